//! Many connections of one worker (own rules): each is served in bursts, as its bytes come, and no worker waits. What
//! limits them is here too: how many may be open, how many lines each may have, and how long each may take.
#![tactic(auto)]

mod admission;
mod answering;
mod burst;
mod client;
mod clients;
mod deadlines;
mod faults;
mod laws;
mod limits;
mod noted;
mod onward;
mod replies;
mod unsent;

pub use admission::{Admission, Refusal};
pub use burst::{Burst, Progress};
pub use client::Client;
pub use clients::{Clients, Connected};
pub use deadlines::{Passed, Shown, Times};
pub use faults::ClientFault;
pub use laws::{law_all_have_left, law_burst_is_stream, law_bursts_are_stream};
pub use limits::{ConnectionLimits, TimeLimits};
