//! What a burst came to.
use crate::deadlines::Shown;

/// The state of a connection after a burst.
#[derive(Clone, Copy, PartialEq, Eq, Debug)]
pub enum Progress {
    /// There may be more to read at once.
    More,
    /// It waits until its input has bytes, or its output takes some.
    Waits,
    /// Its input has ended, or is not read any more, and all replies are taken: it can be closed.
    Over,
}

/// What a burst came to.
#[derive(Clone, Copy, PartialEq, Eq, Debug)]
pub struct Burst {
    /// The state of the connection after it.
    pub progress: Progress,
    /// What it showed of the connection.
    pub shown: Shown,
}
