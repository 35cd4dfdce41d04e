//! What the programs of rows share (own rules), and nothing else uses: the server of every row, and its moment; the
//! commands of the command line; readers and writers in memory that move at most so many bytes at once, count their
//! calls, and fail at a given call; the limits of desks, a diary of such calls, and a gate at which lines wait.
#![tactic(auto)]

mod commands;
mod desk_limits;
mod diary;
mod feed;
mod meeting;
mod setting;
mod sink;
mod spaces;

pub use commands::{End, given};
pub use desk_limits::{limits, limits_of};
pub use diary::{Diary, Event, Recorded};
pub use feed::Feed;
pub use meeting::Meeting;
pub use setting::Setting;
pub use sink::Sink;
pub use spaces::Spaces;

/// The number of a call that never comes: no call fails.
pub const NEVER: u64 = u64::MAX;
