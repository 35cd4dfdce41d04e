//! What a server holds, and what lines say of it, as values. Mappings (RFC 5222, section 5): the parts that a map desk
//! hands in, which parts make a mapping, and when it is live. Messages (sections 5 to 13): requests, replies and edits.
#![tactic(auto)]

mod ascii;
mod calendar;
mod checks;
mod counted;
mod digits;
mod edit;
mod expires;
mod head;
mod identity;
mod labels;
mod mapping;
mod moment;
mod number;
mod part_items;
mod parts;
mod path;
mod reference_text;
mod reply;
mod request;
mod shape;
mod source;
mod stamp;
mod stamp_text;
mod uris;

pub use edit::Edit;
pub use expires::Expires;
pub use identity::Identity;
pub use labels::MAX_SOURCE_BYTES;
pub use lost_location::{
    Body, MAX_PATTERNS, MAX_POLYGONS, MAX_TOKEN_SETS, PlaceKind, Region, Regions,
};
pub use lost_profile::MAX_ID_BYTES;
pub use lost_spec::answers::{AnswerError, Warning};
pub use lost_spec::faults::{MappingError, SourceError, StampError};
pub use mapping::Mapping;
pub use moment::Moment;
pub use number::MAX_NUMBER_BYTES;
pub use part_items::PartItems;
pub use parts::{BorrowedParts, DisplayName, Parts};
pub use path::{Path, path_of};
pub use reply::{Boundary, FoundMappings, Reply, Validation};
pub use request::{Location, Locations, Request};
pub use shape::{MAX_DISPLAY_NAME_BYTES, MAX_DISPLAY_NAMES};
pub use source::Source;
pub use stamp::Stamp;
pub use uris::{MAX_URI_BYTES, MAX_URIS};
