//! Service URNs (RFC 5031): reading them, their text, and how they lie above and below one another.
#![tactic(auto)]

mod label;
pub mod laws;
mod service_text;
mod spelling;
mod traits;
mod urn;

pub use label::check_label;
pub use lost_spec::faults::UrnError;
pub use urn::ServiceUrn;
