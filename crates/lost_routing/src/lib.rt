//! The indexed book (own rule): contracts see it as a book, and it answers as one. The cost of a question or an edit
//! does not grow with the number of unrelated mappings.
#![tactic(auto)]

mod apply;
mod check;
mod classes;
mod edits;
mod entering;
mod holdings;
mod picking;
mod placed;
mod questions;
mod routing;
mod scan;
mod services;
mod store;
mod validating;
mod walk;

pub use routing::Routing;
