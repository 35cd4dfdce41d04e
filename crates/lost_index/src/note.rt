//! A note under a key.

/// A number with the outline of one of its regions.
#[derive(Clone, Copy)]
pub(crate) struct Note<O> {
    pub(crate) number: u64,
    pub(crate) outline: O,
}
