//! The history of a book's edits, as a token that exists in proofs alone. At run time it is a word with its length, and
//! callers pass a length beside the token. The history only grows, so of two beginnings of one history each begins the
//! longer.
#![tactic(auto)]

mod change;
mod front;
mod head;
mod rule;
mod seal;

pub use change::Change;
pub use front::Front;
pub use head::{Head, open_history};
pub use rule::{Aim, Rises};
pub use seal::Seal;
