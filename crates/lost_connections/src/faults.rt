//! Why a connection cannot be served further.

/// Why a connection cannot be served further.
#[derive(Clone, Copy, PartialEq, Eq, Debug)]
pub enum ClientFault {
    /// A read failed.
    Read,
    /// A write failed.
    Write,
    /// Memory was refused.
    Memory,
    /// It has more lines than it may have, or the gate refused one.
    Spent,
}
