//! What makes a kind of location searchable (RFC 5222, section 12): when a region contains a location, and the keys
//! under which regions are kept and locations are looked up; and tokens, a kind of location that is its own key.
#![tactic(auto)]

mod profile;
mod token;
mod token_set;
mod tokens;

pub use lost_spec::faults::TokenError;
pub use profile::{KINDS, Profile};
pub use token::{MAX_ID_BYTES, Token, is_id};
pub use token_set::{TokenSet, TokenTexts, is_token_set, is_token_set_of};
pub use tokens::Tokens;
