//! Ties the desk and its readers to the world of steps: whatever their calls give, in any order, is a run of the world.
//! The proof stands on the contracts of lost_desk alone, and nothing runs this crate.
#![tactic(auto)]

pub mod calls;
pub mod laws;
