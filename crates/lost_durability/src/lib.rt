//! A law over the contracts of what keeps a desk's edits: what was published survives a crash.
#![tactic(auto)]

mod survival;

pub use survival::published_survives;
