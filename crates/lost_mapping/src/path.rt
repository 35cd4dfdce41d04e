//! The path of a request, and that of its reply: names of servers (RFC 5222, section 6).
ghost use Rattle.std.specs.Prelude.{◌≡◌};
ghost use Rattle.lost_spec.specs.Answer.{path_of, is_loop};
ghost use Rattle.lost_mapping.specs.Request.{path_names, request_of};

use crate::Source;
use crate::request::Request;
use std::borrow::CowStr;

/// The path of a request of any kind.
pub fn path_of<'r, 'a>(request: &'r Request<'a>) -> &'r [CowStr<'a>]
    ensures { path_names result.now ≡ path_of (request_of request.now) }
{
    match request {
        Request::FindService { path, .. } => path,
        Request::ListServicesByLocation { path, .. } => path,
        Request::ListServices { path, .. } => path,
        Request::GetServiceBoundary { path, .. } => path,
    }
}

/// The path of a reply: the request's, and the server's name after it (RFC 5222, section 6).
#[derive(Clone, Copy)]
pub struct Path<'a> {
    /// The names that the request came by, in order.
    pub names: &'a [CowStr<'a>],
    /// The server's name.
    pub server: &'a Source,
}

impl Path<'_> {
    /// Whether the request's path has the server's name, in any case (RFC 5222, section 6).
    pub fn is_loop(&self) -> bool
        ensures { result ≡ is_loop self.now.server.now (path_names self.now.names.now) }
    {
        let server = self.server.text();
        self.names
            .iter()
            .any(|name| server.eq_ignore_ascii_case(name.as_str()))
    }
}
