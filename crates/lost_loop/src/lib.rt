//! The event loops of a server's workers (own rules). One thread accepts connections, admits them and gives each to a
//! worker in turn. Each worker watches all of its connections, and answers their lines in bursts, as they come.
#![tactic(auto)]

mod accepting;
mod connection_state;
mod deciding;
mod ending;
mod event_loop;
mod ready_queue;
mod service;
mod shared_admission;
mod shared_stream;
mod spent_keys;
mod sweeping;
mod worker_handle;

pub use accepting::{Acceptor, WhenFull};
pub use event_loop::EventLoop;
pub use service::Service;
pub use shared_admission::SharedAdmission;
pub use worker_handle::{Arrival, Arrivals, WorkerHandle, open_worker};
