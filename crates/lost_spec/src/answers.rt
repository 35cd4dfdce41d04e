//! The names that an answer can carry: its errors and its warnings.

/// An error of an answer (RFC 5222, section 13.1).
#[derive(Clone, Copy, PartialEq, Eq, Debug)]
pub enum AnswerError {
    /// The path of the request has the server's own name.
    Loop,
    /// No location has a profile that the server knows.
    LocationProfileUnrecognized,
    /// The reference system of the location used is not known.
    SrsInvalid,
    /// The content of the location used is not that of its profile.
    LocationInvalid,
    /// The service is implemented, and nothing is found at the place; or no live mapping has the key.
    NotFound,
    /// No live mapping has a service of the chain.
    ServiceNotImplemented,
}

/// A warning of an answer (RFC 5222, section 13.2).
#[derive(Clone, Copy, PartialEq, Eq, Debug)]
pub enum Warning {
    /// The mappings have a service above the one that was asked for.
    ServiceSubstitution,
    /// The mappings are defaults.
    DefaultMappingReturned,
    /// Validation was asked for, and the mappings are defaults.
    LocationValidationUnavailable,
}
