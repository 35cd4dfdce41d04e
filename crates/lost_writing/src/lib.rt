//! Writes the lines of replies (own format over RFC 5222): to requests, and to the map desk's lines.
#![tactic(auto)]

mod constant_lines;
mod desk_reply;
mod plain;
mod token_text;
mod writing;

pub use constant_lines::{BAD_REQUEST, INTERNAL_ERROR, law_constant_lines};
pub use desk_reply::{DeskReply, is_code, refusal_name, write_desk};
pub use lost_spec::DeskText;
pub use plain::plain_len;
pub use writing::{prepare, write_reply};
