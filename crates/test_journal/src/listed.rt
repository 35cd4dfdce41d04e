//! What a list of edits comes to.
use lost_desk::Desk;
use lost_digest::MapDigest;

/// How many edits a list has, and the digest of the map that they make.
#[derive(Clone, Copy, PartialEq, Eq, Debug)]
pub(crate) struct Listed {
    edition: u64,
    map: u128,
}

impl Listed {
    /// No edits.
    pub(crate) fn nothing() -> Listed {
        Listed {
            edition: 0,
            map: MapDigest::empty().number(),
        }
    }

    /// What a desk has published.
    pub(crate) fn published(desk: &Desk) -> Listed {
        Listed {
            edition: desk.edition(),
            map: desk.digest().number(),
        }
    }

    /// What a desk has published and staged.
    pub(crate) fn staged(desk: &Desk) -> Listed {
        Listed {
            edition: desk.staged().edition(),
            map: desk.staged_digest().number(),
        }
    }
}
