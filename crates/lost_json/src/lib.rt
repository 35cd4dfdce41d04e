//! Answers lines of JSON (own format over RFC 5222): one line, and a stream of desk lines and request lines, whatever
//! its start and its limits. It passes on the readers and writers of lines from the two crates below.
#![tactic(auto)]

mod line;
mod replies;

pub use line::{reply_asked, reply_line, reply_request, reply_to_unread};
pub use lost_reading::{DeskFault, DeskLine, ReadError, read_desk, read_request};
pub use lost_writing::{
    BAD_REQUEST, DeskReply, DeskText, INTERNAL_ERROR, is_code, law_constant_lines, write_desk,
    write_reply,
};
pub use replies::{bad_request, desk_answer, internal_error};
