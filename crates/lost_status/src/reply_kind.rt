//! The kinds of replies.
ghost use Rattle.std.specs.Prelude.{◌≡◌, ◌<◌};
ghost use Rattle.lost_status.specs.ReplyKind.{kind_name, kind_place};

/// How many kinds there are.
pub(crate) const KINDS: usize = 13;

/// A kind of reply to a request line, by which replies are counted. Each error is a kind.
#[derive(Clone, Copy, PartialEq, Eq, Debug)]
pub enum ReplyKind {
    /// `findServiceResponse`: mappings that were found (RFC 5222, section 8.4).
    FindServiceResponse,
    /// `listServicesByLocationResponse`: the services at a location (RFC 5222, section 11).
    ListServicesByLocationResponse,
    /// `listServicesResponse`: the services anywhere (RFC 5222, section 10).
    ListServicesResponse,
    /// `getServiceBoundaryResponse`: the regions of a mapping (RFC 5222, section 9).
    GetServiceBoundaryResponse,
    /// `loop`: the path of the request has the server's own name (RFC 5222, section 13.1).
    Loop,
    /// `locationProfileUnrecognized`: the server knows the profile of no location (RFC 5222, section 13.1).
    LocationProfileUnrecognized,
    /// `SRSInvalid`: the server does not know the reference system of the location used (RFC 5222, section 13.1).
    SrsInvalid,
    /// `locationInvalid`: the location used is not valid in its profile (RFC 5222, section 13.1).
    LocationInvalid,
    /// `notFound`: nothing is found at the place, or no live mapping has the key (RFC 5222, section 13.1).
    NotFound,
    /// `serviceNotImplemented`: no live mapping has a service of the chain (RFC 5222, section 13.1).
    ServiceNotImplemented,
    /// `badRequest`: the line is no request (RFC 5222, section 13.1).
    BadRequest,
    /// `internalError`: memory was refused (RFC 5222, section 13.1).
    InternalError,
    /// `other`: a line that is no reply. No server writes one, so its count stays 0.
    Other,
}

impl ReplyKind {
    /// All kinds, each once, in the order in which they are shown.
    pub const ALL: [ReplyKind; 13] = [
        ReplyKind::FindServiceResponse,
        ReplyKind::ListServicesByLocationResponse,
        ReplyKind::ListServicesResponse,
        ReplyKind::GetServiceBoundaryResponse,
        ReplyKind::Loop,
        ReplyKind::LocationProfileUnrecognized,
        ReplyKind::SrsInvalid,
        ReplyKind::LocationInvalid,
        ReplyKind::NotFound,
        ReplyKind::ServiceNotImplemented,
        ReplyKind::BadRequest,
        ReplyKind::InternalError,
        ReplyKind::Other,
    ];

    /// The kind's position in [`ReplyKind::ALL`], from 0 to 12.
    pub(crate) fn index(self) -> usize
        ensures place { result ≡ kind_place self }
        ensures within { result < KINDS }
    {
        self as usize
    }

    /// The kind's name: that of the reply's one member, or of its error (RFC 5222, section 13.1).
    pub fn name(self) -> &'static str
        ensures { result.now ≡ kind_name self }
    {
        match self {
            ReplyKind::FindServiceResponse => "findServiceResponse",
            ReplyKind::ListServicesByLocationResponse => "listServicesByLocationResponse",
            ReplyKind::ListServicesResponse => "listServicesResponse",
            ReplyKind::GetServiceBoundaryResponse => "getServiceBoundaryResponse",
            ReplyKind::Loop => "loop",
            ReplyKind::LocationProfileUnrecognized => "locationProfileUnrecognized",
            ReplyKind::SrsInvalid => "SRSInvalid",
            ReplyKind::LocationInvalid => "locationInvalid",
            ReplyKind::NotFound => "notFound",
            ReplyKind::ServiceNotImplemented => "serviceNotImplemented",
            ReplyKind::BadRequest => "badRequest",
            ReplyKind::InternalError => "internalError",
            ReplyKind::Other => "other",
        }
    }
}
