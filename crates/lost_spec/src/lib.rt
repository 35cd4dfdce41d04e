//! What every word of the contracts means. The definitions are in specs/, one file for each subject. The code here is
//! only what all other crates share: the enums of the definitions, the laws, whose bodies are empty, numbers in decimal
//! digits, and a short text that takes no memory.
//!
//! Throughout the workspace, a rule that cites no section of an RFC is this profile's own. A call that can run out of
//! memory says so in its type: its error is `AllocError`, or has a variant for memory.
#![tactic(auto)]

pub mod answers;
mod code;
mod desk_text;
mod digits;
pub mod faults;
pub mod laws;
pub mod places;
pub mod rows;

pub use code::Coded;
pub use desk_text::DeskText;
pub use digits::{are_digits, digits_value};
