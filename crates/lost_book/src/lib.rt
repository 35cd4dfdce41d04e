//! Books: the mappings held, in order, the stamps of withdrawn identities, the edits that change them, which edits are
//! refused, and a plain scan for each query.
#![tactic(auto)]

mod book;
mod changes;
mod held;
mod limits;
mod places;
mod regions;
mod register;
mod traces;

pub use book::Book;
pub use held::{has_identity, has_key};
pub use limits::Limits;
pub use lost_mapping::Edit;
pub use lost_spec::faults::EditError;
pub use places::{holds, serves};
pub use register::{Register, check_edit, check_publish, check_replace, check_withdraw};
pub use traces::Traces;
