//! What may be published after a crash.
use crate::listed::Listed;

/// What a crash may leave after a run.
#[derive(Clone, Copy, PartialEq, Eq, Debug)]
pub(crate) struct Allowed {
    /// What was published.
    pub(crate) published: Listed,
    /// That with the commit behind it, where that was being kept.
    pub(crate) more: Option<Listed>,
    /// Whether the file has nothing behind its last commit.
    pub(crate) is_at_rest: bool,
}

impl Allowed {
    /// Whether this may be published.
    pub(crate) fn has(self, listed: Listed) -> bool {
        listed == self.published || Some(listed) == self.more
    }
}
