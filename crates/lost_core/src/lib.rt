//! The world of steps (own rules): a pure machine of one publisher and some workers, and the laws of every such world.
//! Its events are those counted from the list of steps.
#![tactic(auto)]

mod books;
mod event;
pub mod laws;
pub mod rows;
mod step;
mod world;

pub use event::Event;
pub use step::Step;
pub use world::World;
