//! The replay of a stream (own rules): one thread answers desk lines and request lines in order, over two books. One of
//! them is published. And the check of a stream: which lines a replay would refuse, and why.
#![tactic(auto)]

mod books;
mod checker;
mod checking;
mod findings;
mod head;
mod outcome;
mod pair;
mod replayer;
mod replaying;
mod saying;
mod tally;

pub use checking::check_lines;
pub use findings::Findings;
pub use lost_lines::{Counts, NoGate, ServeError, Turns, Watched};
pub use outcome::Outcome;
pub use replayer::Replayer;
pub use replaying::replay;
