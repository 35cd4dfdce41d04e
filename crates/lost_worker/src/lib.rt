//! Connections (own rules): answering the request lines of a stream, the moments of the answers, and a loop that serves
//! connections one after another.
#![tactic(auto)]

mod cached;
mod connection;
mod desk_stream;
mod desking;
mod faults;
mod marks;
mod moments;
mod place_cache;
mod replier;
mod serving;
mod shared;
mod source;
mod streams;
mod witness;
mod worker;

pub use cached::{CacheRefusal, CachedReader};
pub use connection::Connection;
pub use desk_stream::{serve_desk, serve_desk_with};
pub use faults::CacheError;
pub use lost_lines::{Counts, Gate, NoGate, ServeError, Turns, Watched};
pub use moments::Moments;
pub use replier::{Replied, Replier};
pub use shared::SharedReplier;
pub use source::ConnectionSource;
pub use streams::serve_lines;
pub use witness::{DeskWitness, NoWitness};
pub use worker::{serve_connections, worker_loop};
