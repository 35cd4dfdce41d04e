//! Where mappings hold, and where requests ask (RFC 5222, section 12): the kinds of places, each with its profile, what a
//! location of it has, its regions, and which regions contain which places. Whoever stands above passes places and regions
//! on, and asks of no kind.
#![tactic(auto)]

mod body;
mod counts;
mod kinds;
mod lists;
mod patterns;
mod place;
mod polygons;
mod region;
mod regions;
mod rings;
mod token_sets;

pub use body::{Body, place_in};
pub use counts::{Counts, MAX_PATTERNS, MAX_POLYGONS, MAX_TOKEN_SETS};
pub use kinds::{CIVIC, GEODETIC_2D, X_TOKEN, has_system, kind_of, profile_of};
pub use lost_spec::places::PlaceKind;
pub use place::{Place, law_equal_places_are_one};
pub use region::Region;
pub use regions::Regions;
