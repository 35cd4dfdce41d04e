//! Replies.
use crate::Mapping;
use crate::path::Path;
use lost_location::PlaceKind;
use lost_spec::answers::{AnswerError, Warning};
use lost_urn::ServiceUrn;

/// A reply (RFC 5222, sections 8.4, 9 to 11 and 13.1). `edition` is the number of edits of the book that it answers
/// from, `path` the request's with the server's name after it.
#[derive(Drop)]
pub enum Reply<'a> {
    /// The mappings found (RFC 5222, section 8.4).
    FindServiceResponse {
        edition: u64,
        location_used: &'a str,
        validation: Option<Validation>,
        mappings: FoundMappings,
        path: Path<'a>,
        warnings: Vec<Warning>,
    },
    /// The services at the location (RFC 5222, section 11).
    ListServicesByLocationResponse {
        edition: u64,
        location_used: &'a str,
        path: Path<'a>,
        services: Vec<ServiceUrn>,
    },
    /// The services anywhere (RFC 5222, section 10).
    ListServicesResponse {
        edition: u64,
        path: Path<'a>,
        services: Vec<ServiceUrn>,
    },
    /// All regions of the mapping that has the key, in the order of their kinds (RFC 5222, section 9).
    GetServiceBoundaryResponse {
        edition: u64,
        path: Path<'a>,
        mapping: Mapping,
    },
    /// An error of the answer (RFC 5222, section 13.1).
    Errors {
        edition: u64,
        error: AnswerError,
    },
    /// The line was no request (RFC 5222, section 13.1).
    BadRequest,
    /// Memory ran out (RFC 5222, section 13.1).
    InternalError,
}

/// The mappings found, at least one, in their order, and how the boundary of each is shown (RFC 5222, section 8.4.1):
/// a default's is not. One mapping takes no memory for a list.
#[derive(Drop)]
pub struct FoundMappings {
    /// The first.
    pub first: Mapping,
    /// The others.
    pub rest: Vec<Mapping>,
    /// How the boundary of each that is no default is shown.
    pub boundary: Boundary,
}

/// Which boundary of a mapping is shown (RFC 5222, sections 5.5 and 5.6).
#[derive(Clone, Copy, PartialEq, Eq, Debug)]
pub enum Boundary {
    /// Its key and its source.
    ByReference,
    /// Its regions of a kind.
    ByValue(PlaceKind),
}

/// The names of an address by the result of validation (RFC 5222, section 8.4.2).
#[derive(Drop)]
pub struct Validation {
    /// The elements that some reference pattern names, and none with the address's value.
    pub invalid: Vec<String>,
    /// All other names of the address.
    pub unchecked: Vec<String>,
    /// The elements that a matching pattern of a mapping found names.
    pub valid: Vec<String>,
}
