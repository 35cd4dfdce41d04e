//! Request lines.
ghost use Rattle.std.specs.Prelude.{◌≡◌, None, Err, option_and_then, codes};
ghost use Rattle.serde_json.specs.Find.{as_object};
ghost use Rattle.serde_json.specs.View.{view, members_view};
ghost use Rattle.lost_mapping.specs.Request.{request_of};
ghost use Rattle.lost_reading.specs.Gives.{Gives};
ghost use Rattle.lost_reading.specs.Members as kinds;
ghost use Rattle.lost_reading.specs.Requests.{find_service_of, services_at_of, services_of, boundary_of, request_named, request_in, line_request};

use crate::known_members::read_tree;
use crate::options::{ByValue, read_path};
use crate::reading::{defaulting, only_member, required};
use crate::services::{optional_service, required_service};
use lost_mapping::{Locations, Request};
use lost_spec::Coded;
use serde_json::{Map, Value};
use std::alloc::Global;
use std::borrow::CowStr;
use thiserror::Error;

/// Why a line was not read as a request.
#[derive(Clone, Copy, PartialEq, Eq, Debug, Error)]
pub enum ReadError {
    /// The line is no request.
    #[error("the line is not a request")]
    BadRequest,
    /// Memory ran out.
    #[error("memory ran out")]
    Memory,
}

/// The number of the refusal, 1 or 2 in the order of the variants.
impl Coded for ReadError {
    ghost use Rattle.lost_reading.specs.Gives.{read_code};

    ghost code_of = { read_code };

    fn code(self) -> u8 {
        match self {
            ReadError::BadRequest => 1,
            ReadError::Memory => 2,
        }
    }
}

/// Reads a request line (RFC 5222, sections 8 to 12; own format): an object with exactly one member, named
/// `findService`, `listServicesByLocation`, `listServices` or `getServiceBoundary`, whose value is an object.
///
/// # Errors
///
/// [`ReadError::BadRequest`] if the line is no request.
pub fn read_request<'a>(alloc: Global, line: &[u8]) -> Result<Request<'a>, ReadError>
    ensures { Gives request_of result (line_request line.now) }
{
    let tree = read_tree(alloc, line)?;
    read_tree_request(alloc, &tree)
}

/// The request of a tree: an object with exactly one member, whose value is an object.
fn read_tree_request<'a>(alloc: Global, tree: &Value) -> Result<Request<'a>, ReadError>
    ensures { Gives request_of result (request_in (view tree.now)) }
{
    match only_member(tree) {
        Some((name, value)) => read_member_request(alloc, name, value),
        None => Err(ReadError::BadRequest),
    }
}

pub(crate) fn read_member_request<'a>(
    alloc: Global,
    name: &str,
    value: &Value,
) -> Result<Request<'a>, ReadError>
    ensures { Gives request_of result (option_and_then (request_named name.now) (as_object (view value.now))) }
{
    match value.as_object() {
        Some(members) => read_named_request(alloc, name, members),
        None => Err(ReadError::BadRequest),
    }
}

/// The request of this name, by the members of its value.
fn read_named_request<'a>(
    alloc: Global,
    name: &str,
    members: &Map<String, Value>,
) -> Result<Request<'a>, ReadError>
    ensures { Gives request_of result (request_named name.now (members_view members.now.entries)) }
{
    if "findService" == name {
        read_find_service(alloc, members)
    } else if "listServicesByLocation" == name {
        read_services_at(alloc, members)
    } else if "listServices" == name {
        read_services(alloc, members)
    } else if "getServiceBoundary" == name {
        read_boundary(alloc, members)
    } else {
        Err(ReadError::BadRequest)
    }
}

/// `findService` (RFC 5222, section 8).
fn read_find_service<'a>(
    alloc: Global,
    members: &Map<String, Value>,
) -> Result<Request<'a>, ReadError>
    ensures given { Gives request_of result (find_service_of (members_view members.now.entries)) }
    ensures service_first { kinds.required kinds.service_in (codes "service") (members_view members.now.entries) ≡ None
        → result ≡ Err ReadError.BadRequest }
{
    let service = required_service(alloc, members)?;
    let locations = required::<Locations<'a>>(alloc, members, "location")?;
    let validate = defaulting(alloc, members, "validateLocation", false)?;
    let by_value = defaulting(alloc, members, "serviceBoundary", ByValue(false))?;
    let path = read_path(alloc, members)?;
    Ok(Request::FindService {
        service,
        locations,
        validate,
        by_value: by_value.0,
        path,
    })
}

/// `listServicesByLocation` (RFC 5222, section 11).
fn read_services_at<'a>(
    alloc: Global,
    members: &Map<String, Value>,
) -> Result<Request<'a>, ReadError>
    ensures given { Gives request_of result (services_at_of (members_view members.now.entries)) }
    ensures service_first { kinds.optional kinds.service_in (codes "service") (members_view members.now.entries) ≡ None
        → result ≡ Err ReadError.BadRequest }
{
    let service = optional_service(alloc, members)?;
    let locations = required::<Locations<'a>>(alloc, members, "location")?;
    let path = read_path(alloc, members)?;
    Ok(Request::ListServicesByLocation {
        service,
        locations,
        path,
    })
}

/// `listServices` (RFC 5222, section 10).
fn read_services<'a>(alloc: Global, members: &Map<String, Value>) -> Result<Request<'a>, ReadError>
    ensures given { Gives request_of result (services_of (members_view members.now.entries)) }
    ensures service_first { kinds.optional kinds.service_in (codes "service") (members_view members.now.entries) ≡ None
        → result ≡ Err ReadError.BadRequest }
{
    let service = optional_service(alloc, members)?;
    let path = read_path(alloc, members)?;
    Ok(Request::ListServices { service, path })
}

/// `getServiceBoundary` (RFC 5222, section 9).
fn read_boundary<'a>(alloc: Global, members: &Map<String, Value>) -> Result<Request<'a>, ReadError>
    ensures { Gives request_of result (boundary_of (members_view members.now.entries)) }
{
    let key = required::<CowStr<'a>>(alloc, members, "key")?;
    let path = read_path(alloc, members)?;
    Ok(Request::GetServiceBoundary { key, path })
}
