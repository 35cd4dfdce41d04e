//! The desk's replies.
ghost use Rattle.std.specs.Prelude.{◌≡◌, ◌≤◌, ◌↔◌, ◌++◌, length, decimal, codes, IsTrue};
ghost use Rattle.lost_writing.specs.DeskReplies.{desk_text, IsCode, IsInTable, refusal_name as refusal_name_of};
ghost use Rattle.lost_writing.specs.PlainNames.{IsPlainName};

use lost_spec::DeskText;

/// A reply to a desk line (own format).
#[derive(Clone, Copy, PartialEq, Eq, Debug)]
pub enum DeskReply {
    /// The edit is staged. Gives the number of pending edits.
    Staged(u64),
    /// All pending edits are published. Gives the number of edits accepted in all.
    Committed(u64),
    /// The line is refused, with the number of the refusal.
    Refused(u8),
}

/// The greatest code of the table of refusals.
const LAST_CODE: u8 = 23;

/// Whether a number is a code of the table of refusals.
pub fn is_code(code: u8) -> bool
    ensures { IsTrue result ↔ IsCode code }
{
    code >= 1 && code <= LAST_CODE
}

/// The name of a refusal, which stands in JSON as it is. The code must be one of the table.
#[tactic(auto, unfolding(serde_json::proofs::OnLiterals::serde_json_on_literals))]
pub fn refusal_name(code: u8) -> &'static str
    requires { IsCode code }
    ensures name { result.now ≡ refusal_name_of code }
    ensures plain { IsPlainName result.now }
{
    match code {
        1 => "BadLine",
        2 => "BadSource",
        3 => "BadSourceId",
        4 => "BadStamp",
        5 => "BadExpires",
        6 => "BadService",
        7 => "BadUri",
        8 => "BadNumber",
        9 => "BadRegion",
        10 => "RegionMissing",
        11 => "TooLarge",
        12 => "BadKey",
        13 => "IdentityHeld",
        14 => "IdentityUnknown",
        15 => "NotNewer",
        16 => "KeyHeld",
        17 => "KeyUnchanged",
        18 => "Full",
        19 => "EditsSpent",
        20 => "Memory",
        21 => "Withdrawn",
        22 => "TracesFull",
        _ => "NotKept",
    }
}

/// The line of a count: what stands before it, the count, and the brackets that close two objects.
fn write_count(before: &[u8], count: u64) -> DeskText
    requires { length before.now ≤ 40 }
    ensures { result ≡ before.now ++ (decimal count ++ codes "}}\n") }
{
    let mut text = DeskText::new();
    text.push(before);
    text.push_number(count);
    text.push(b"}}\n");
    text
}

#[tactic(auto, unfolding(crate::specs::DeskReplies::desk_text, serde_json::proofs::OnLiterals::serde_json_on_literals))]
fn write_staged(pending: u64) -> DeskText
    ensures { result ≡ desk_text (DeskReply.Staged pending) }
{
    write_count(b"{\"staged\":{\"pending\":", pending)
}

#[tactic(auto, unfolding(crate::specs::DeskReplies::desk_text, serde_json::proofs::OnLiterals::serde_json_on_literals))]
fn write_committed(edition: u64) -> DeskText
    ensures { result ≡ desk_text (DeskReply.Committed edition) }
{
    write_count(b"{\"committed\":{\"edition\":", edition)
}

#[tactic(auto, unfolding(crate::specs::DeskReplies::desk_text, serde_json::proofs::OnLiterals::serde_json_on_literals))]
fn write_refused(code: u8) -> DeskText
    requires { IsCode code }
    ensures { result ≡ desk_text (DeskReply.Refused code) }
{
    let mut text = DeskText::new();
    text.push(b"{\"refused\":{\"code\":");
    text.push_number(u64::from(code));
    text.push(b",\"name\":\"");
    text.push(refusal_name(code).as_bytes());
    text.push(b"\"}}\n");
    text
}

/// Writes a desk's reply. A refusal must be one of the table.
pub fn write_desk(reply: &DeskReply) -> DeskText
    requires { IsInTable reply.now }
    ensures { result ≡ desk_text reply.now }
{
    match reply {
        DeskReply::Staged(pending) => write_staged(*pending),
        DeskReply::Committed(edition) => write_committed(*edition),
        DeskReply::Refused(code) => write_refused(*code),
    }
}
