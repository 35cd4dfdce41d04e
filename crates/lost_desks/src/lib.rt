//! The connections of desks (own rules): one is served at a time, and edits that it leaves pending are dropped. A peer
//! that speaks HTTP may read back the map that is published. If desks
//! are served one after another, a desk that sends no whole line gives way to the next.
#![tactic(auto)]

mod counting;
mod desk_input;
mod desk_output;
mod desk_queue;
mod desk_turn;
mod line_wait;
mod map_reply;
mod map_request;
mod protocol;
mod serving;
mod turn_end;

pub use counting::tell_book;
pub use line_wait::LineWait;
pub use map_request::{MapAsked, asked_by};
pub use serving::{DeskService, Left, serve_desks, serve_one_desk};
pub use turn_end::{TurnEnd, TurnState, input_state, output_state};
