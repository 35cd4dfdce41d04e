//! The head of a line's report: its number, and the refusal's code and name. It takes no memory.
ghost use Rattle.std.specs.Prelude.{◌≡◌, ◌≤◌, ◌+◌, ◌++◌, length};
ghost use Rattle.lost_writing.specs.DeskReplies.{IsCode};
ghost use Rattle.lost_replay.specs.Said.{line_front, code_label};

use lost_writing::{DeskText, refusal_name};

/// The head of the report of the line with this number: `line 12: badRequest` for the label `badRequest`. The label
/// must have at most 18 bytes.
pub(crate) fn head(number: u64, label: &[u8]) -> DeskText
    requires { length label.now ≤ 18 }
    ensures text { result ≡ line_front number ++ label.now }
    ensures short { length result ≤ 45 }
{
    let mut text = DeskText::new();
    text.push(b"line ");
    text.push_number(number);
    text.push(b": ");
    text.push(label);
    text
}

/// The label of a code: `9 BadRegion`. The code must be one of the desk's table.
pub(crate) fn label(code: u8) -> DeskText
    requires { IsCode code }
    ensures text { result ≡ code_label code }
    ensures short { length result ≤ 18 }
{
    let mut text = DeskText::new();
    text.push_number(u64::from(code));
    text.push(b" ");
    text.push(refusal_name(code).as_bytes());
    text
}
