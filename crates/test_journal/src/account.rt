//! What is noted while the lines of a row are answered.
use crate::listed::Listed;
use lost_desk::Desk;
use lost_json::DeskReply;
use lost_keeping::NOT_KEPT;
use lost_worker::DeskWitness;

/// The code of a refusal whose cause is that memory was refused.
const MEMORY: u8 = 20;

/// What the replies of a desk said.
#[derive(Clone, Copy, PartialEq, Eq, Debug)]
pub(crate) struct Account {
    /// What was published at the last reply `committed`.
    pub(crate) answered: Listed,
    /// How many lines could not be kept.
    pub(crate) refused: u64,
    /// Whether a commit was refused, and no edit was staged and nothing published since. It may be in the file.
    pub(crate) may_be_kept: bool,
    /// Whether edits were published by a commit, and no other line than commits was answered since.
    pub(crate) is_at_rest: bool,
}

impl Account {
    /// No reply was given yet.
    pub(crate) fn new() -> Account {
        Account {
            answered: Listed::nothing(),
            refused: 0,
            may_be_kept: false,
            is_at_rest: false,
        }
    }

    /// Notes a reply `committed`, with what is published then.
    fn publish(&mut self, published: Listed) {
        self.is_at_rest = self.is_at_rest || published != self.answered;
        self.may_be_kept = false;
        self.answered = published;
    }
}

impl DeskWitness for Account {
    ghost step = { λ old reply new. Unit {0} };

    fn saw(&mut self, line: Option<&[u8]>, reply: DeskReply, desk: &Desk) {
        match reply {
            DeskReply::Staged(_) => {
                self.may_be_kept = false;
                self.is_at_rest = false;
            }
            DeskReply::Committed(_) => self.publish(Listed::published(desk)),
            DeskReply::Refused(code) => {
                self.is_at_rest = false;
                if code == NOT_KEPT {
                    self.refused = self.refused.saturating_add(1);
                }
                if code == NOT_KEPT || code == MEMORY {
                    self.may_be_kept = self.may_be_kept || line.is_some_and(orders_commit);
                }
            }
        }
    }
}

/// Whether a line that is a desk line orders a commit.
fn orders_commit(line: &[u8]) -> bool {
    let text = line.trim_ascii_start();
    match text.strip_prefix(b"{") {
        Some(rest) => rest.trim_ascii_start().starts_with(b"\"commit\""),
        None => false,
    }
}
