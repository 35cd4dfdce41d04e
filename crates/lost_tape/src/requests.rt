//! The four requests, and the desk lines with a mapping, by the members of their objects.
ghost use Rattle.std.specs.Prelude.{◌≡◌, false, Some, None, Ok, IfSome, OnSome, codes, if◌then◌else◌};
ghost use Rattle.lost_reading.specs.Members.{required};
ghost use Rattle.lost_reading.specs.Desk.{is_desk_name, order_named, order_in};
ghost use Rattle.lost_reading.specs.Lines.{GivesWhole};
ghost use Rattle.lost_reading.specs.Requests.{locations_in, find_service_of, services_at_of, services_of, boundary_of, request_named, request_in};
ghost use Rattle.lost_tape.specs.Tapes.{data_of, members_of};

use crate::locations::read_locations;
use crate::mappings::read_mapping;
use crate::members::RequestMembers;
use crate::options::{optional_service, read_by_value, read_path, read_validate, required_service};
use crate::part::required_text;
use crate::tree::Tree;
use lost_mapping::{Edit, Request};
use lost_reading::{DeskLine, Line};
use std::alloc::Global;
use std::borrow::CowStr;

/// What a line's value is: an object with one member, whose value is an object.
pub(crate) fn read_root<'a>(alloc: Global, root: &Tree<'_, 'a>) -> Option<Line<'a>>
    ensures { IfSome result (λ found. GivesWhole (Ok found) (order_in (data_of root.now)) (request_in (data_of root.now))) }
{
    let (name, value) = root.only_member()?;
    if value.is_object() {
        read_member(alloc, name, &value)
    } else {
        None
    }
}

/// What the member of this name is.
fn read_member<'a>(alloc: Global, name: &str, object: &Tree<'_, 'a>) -> Option<Line<'a>>
    ensures { IfSome result (λ found. GivesWhole (Ok found)
        (if is_desk_name name.now then Some (order_named name.now (members_of object.now)) else None)
        (request_named name.now (members_of object.now))) }
{
    if "publish" == name {
        let mapping = read_mapping(alloc, object)?;
        Some(Line::Desk(DeskLine::Edit(Edit::Publish(mapping))))
    } else if "replace" == name {
        let mapping = read_mapping(alloc, object)?;
        Some(Line::Desk(DeskLine::Edit(Edit::Replace(mapping))))
    } else {
        read_named(alloc, name, object)
    }
}

/// The request of this name. `None` for the name of a desk line.
fn read_named<'a>(alloc: Global, name: &str, object: &Tree<'_, 'a>) -> Option<Line<'a>>
    ensures request { IfSome result (λ found. GivesWhole (Ok found) None (request_named name.now (members_of object.now))) }
    ensures no_desk_name { OnSome result (is_desk_name name.now ≡ false) }
{
    if "findService" == name {
        read_find_service(alloc, object)
    } else if "listServicesByLocation" == name {
        read_services_at(alloc, object)
    } else if "listServices" == name {
        read_services(alloc, object)
    } else if "getServiceBoundary" == name {
        read_boundary(alloc, object)
    } else {
        None
    }
}

/// `findService` (RFC 5222, section 8).
fn read_find_service<'a>(alloc: Global, object: &Tree<'_, 'a>) -> Option<Line<'a>>
    ensures { IfSome result (λ found. GivesWhole (Ok found) None (find_service_of (members_of object.now))) }
{
    let mut members = RequestMembers::none();
    members.read(object)?;
    let service = required_service(alloc, &members.service)?;
    let locations = read_locations(alloc, &members.location)?;
    let validate = read_validate(&members.validate)?;
    let by_value = read_by_value(&members.boundary)?;
    let path = read_path(alloc, &members.path)?;
    Some(Line::Request(Request::FindService {
        service,
        locations,
        validate,
        by_value,
        path,
    }))
}

/// `listServicesByLocation` (RFC 5222, section 11).
fn read_services_at<'a>(alloc: Global, object: &Tree<'_, 'a>) -> Option<Line<'a>>
    ensures { IfSome result (λ found. GivesWhole (Ok found) None (services_at_of (members_of object.now))) }
{
    let mut members = RequestMembers::none();
    members.read(object)?;
    let service = optional_service(alloc, &members.service)?;
    let locations = read_locations(alloc, &members.location)?;
    let path = read_path(alloc, &members.path)?;
    Some(Line::Request(Request::ListServicesByLocation {
        service,
        locations,
        path,
    }))
}

/// `listServices` (RFC 5222, section 10).
fn read_services<'a>(alloc: Global, object: &Tree<'_, 'a>) -> Option<Line<'a>>
    ensures { IfSome result (λ found. GivesWhole (Ok found) None (services_of (members_of object.now))) }
{
    let service = optional_service(alloc, &object.member("service"))?;
    let path = read_path(alloc, &object.member("path"))?;
    Some(Line::Request(Request::ListServices { service, path }))
}

/// `getServiceBoundary` (RFC 5222, section 9).
fn read_boundary<'a>(alloc: Global, object: &Tree<'_, 'a>) -> Option<Line<'a>>
    ensures { IfSome result (λ found. GivesWhole (Ok found) None (boundary_of (members_of object.now))) }
{
    let key = required_text(object, "key")?;
    let path = read_path(alloc, &object.member("path"))?;
    Some(Line::Request(Request::GetServiceBoundary {
        key: CowStr::Borrowed(key),
        path,
    }))
}
