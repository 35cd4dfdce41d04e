//! Points and rings in EPSG 4326, latitude first, in whole 1e-7 degrees (RFC 5222, section 12.2; unit own): which
//! numbers make a point, which points make a ring, and when a point is inside a ring. Only the runs and a copy
//! of a polygon take memory.
#![tactic(auto)]

pub use bounds::Bounds;
pub use lost_spec::faults::{GeoError, RingError};
pub use point::GeoPoint;
pub use polygon::{MAX_POSITIONS, MIN_POSITIONS, Polygon};
pub use positions::{Positions, is_ring, is_ring_of};

mod bounds;
mod decimal;
mod edge;
pub mod laws;
mod long_ring;
mod point;
mod polygon;
mod positions;
mod ring;
mod run;
