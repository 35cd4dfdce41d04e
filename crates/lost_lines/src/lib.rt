//! Lines of a stream: bytes are cut into lines, each line is answered, and the replies are written in order, up to the
//! end of the input or to a fault. The caller says how a line is answered.
#![tactic(auto)]

mod answerer;
mod counts;
mod cutter;
mod fault;
mod gate;
mod lines;
mod output;
mod server;
mod tally;
mod turns;
mod watched;

pub use answerer::{Answer, Answerer, Text};
pub use counts::Counts;
pub use cutter::MAX_LINE;
pub use fault::ServeError;
pub use gate::{Gate, NoGate};
pub use lines::run_lines;
pub use turns::{Turns, law_usual_turns};
pub use watched::Watched;
