//! Answers requests (RFC 5222, sections 8 to 13): what a request asks of the mappings held, and the answer to it. The
//! store of the mappings is behind a trait, so the answer does not depend on how they are kept.
#![tactic(auto)]

mod answering;
mod asked;
mod book;
mod boundaries;
mod chain;
mod find_service;
mod finding;
mod found;
mod holdings;
mod lists;
mod picks;
mod places;
mod reference;
mod refusals;
mod services;
mod shown;
mod used;
mod validation;
mod warnings;

pub use answering::{answer, answer_asked};
pub use asked::{Asked, place_used};
pub use holdings::{Holdings, Picked, Positions};
pub use lost_location::{Place, law_equal_places_are_one};
pub use lost_mapping::{
    AnswerError, Body, Boundary, FoundMappings, Location, Locations, Path, Reply, Request,
    Validation, Warning,
};
pub use reference::Reference;
pub use services::children::Children;
