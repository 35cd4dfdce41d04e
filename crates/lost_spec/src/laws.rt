//! The laws above the definitions. Each function's contract is a law, and its body is empty.

pub mod answers;
pub mod book;
pub mod find;
pub mod instants;
pub mod lists;
pub mod rings;
