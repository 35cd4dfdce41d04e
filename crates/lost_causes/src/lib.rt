//! Why a line was refused or is no line at all, in plain words with the place in the line (own rules). If the place is
//! unknown, no cause is given. No contract says that a cause is true of its line: the rows of checks compare them line
//! by line.
#![tactic(auto)]

mod bad_line;
mod book_refusals;
mod counts;
mod hints;
mod json;
mod locations;
mod object;
mod patterns;
mod polygons;
mod quoting;
mod refusal;
mod regions;
mod requests;
mod shape;
mod stop;
mod texts;
mod times;
mod uris;

pub use refusal::{bad_request_cause, refusal_cause};
