//! Civic locations as profiles of an index: the keys under which patterns are kept and addresses are looked up.
#![tactic(auto)]

mod civic;
mod hashed_key;
mod keys;
pub mod laws;
mod named;
mod references;
mod required;
pub mod rows;
mod texts;

pub use civic::Civic;
pub use hashed_key::HashedKey;
pub use keys::ElementKey;
pub use named::Named;
pub use references::References;
pub use required::RequiredElements;
