//! The gate behind what a journal keeps.

/// What is known of the last gate, the byte before the end of the last commit's line.
#[derive(Clone, Copy, PartialEq, Eq, Debug)]
pub enum Gate {
    /// It is closed: nothing behind it counts.
    Closed,
    /// A commit stands whole behind it, and opening it may have failed half way.
    Unsure,
}
