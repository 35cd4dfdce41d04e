//! Requests, as they are read: the content of a location is not checked yet.
use lost_location::Body;
use lost_urn::ServiceUrn;
use std::borrow::CowStr;

/// A request (RFC 5222, sections 8 to 11). Its texts are borrowed from the line, or owned. `path` has the names of the
/// servers that it came by, in order (RFC 5222, section 6).
#[derive(Drop)]
pub enum Request<'a> {
    /// The mappings for a service at a location (RFC 5222, section 8). `validate` asks for validation of a civic
    /// address, and `by_value` for boundaries in place of references.
    FindService {
        service: ServiceUrn,
        locations: Locations<'a>,
        validate: bool,
        by_value: bool,
        path: Vec<CowStr<'a>>,
    },
    /// The services at a location, below a service where one is given (RFC 5222, section 11).
    ListServicesByLocation {
        service: Option<ServiceUrn>,
        locations: Locations<'a>,
        path: Vec<CowStr<'a>>,
    },
    /// The services anywhere, below a service where one is given (RFC 5222, section 10).
    ListServices {
        service: Option<ServiceUrn>,
        path: Vec<CowStr<'a>>,
    },
    /// The regions that a key names (RFC 5222, section 9).
    GetServiceBoundary {
        key: CowStr<'a>,
        path: Vec<CowStr<'a>>,
    },
}

/// The locations of a request, at least one (RFC 5222, section 8.3.1): a request with one takes no memory for a list.
#[derive(Drop)]
pub struct Locations<'a> {
    /// The first location.
    pub first: Location<'a>,
    /// Those after it, in order.
    pub rest: Vec<Location<'a>>,
}

/// A location of a request (RFC 5222, section 8.3.1).
#[derive(Drop)]
pub struct Location<'a> {
    /// The id by which a reply names the location.
    pub id: CowStr<'a>,
    /// The name of its profile (RFC 5222, section 12.1).
    pub profile: CowStr<'a>,
    /// Whether its reference system is known.
    pub srs_known: bool,
    /// Its content.
    pub body: Body<'a>,
}
