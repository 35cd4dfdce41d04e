//! A server: its map, its threads and its clock (own rules). It answers the connections of desks and clients in many
//! threads, from a map that it may have read before.
#![tactic(auto)]

mod clock;
mod counting;
mod journal;
mod listeners;
mod loading;
mod map;
mod map_kept;
mod order;
mod run;
mod run_fault;
mod running;
mod server_fault;
mod starting;
mod status_port;
mod system;
mod threads;
mod workers;

pub use listeners::{Listeners, Ready};
pub use lost_answer_log::{KeptReply, LogFault};
pub use lost_connections::ConnectionLimits;
pub use lost_lines::{Counts, Gate, NoGate, ServeError, Turns, Watched};
pub use lost_replay::{Replayer, replay};
pub use lost_status::VERSION;
pub use map::{MapFound, load_map};
pub use order::{ConnectionSettings, OnRefusal, Progress, ServerOrder};
pub use run_fault::RunFault;
pub use running::serve;
pub use server_fault::{JournalFault, MapFault, ServerFault};
pub use starting::run_server;
pub use system::{Machine, System};
