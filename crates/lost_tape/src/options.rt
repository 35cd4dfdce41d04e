//! The service, the path and the options of a request.
ghost use Rattle.std.specs.Prelude.{◌≡◌, [], Some, Ok, IfSome, option_map, option_and_then, false};
ghost use Rattle.serde_json.specs.Find.{as_bool};
ghost use Rattle.lost_spec.specs.Service.{read_service};
ghost use Rattle.lost_mapping.specs.Request.{path_names};
ghost use Rattle.lost_reading.specs.Members.{service_in, optional_value};
ghost use Rattle.lost_reading.specs.Requests.{path_kind, by_value_kind};
ghost use Rattle.lost_tape.specs.ByName.{or_default};
ghost use Rattle.lost_tape.specs.Tapes.{data_of};

use crate::part::read_list;
use crate::tree::Tree;
use lost_reading::{MAX_NAMES, by_value};
use lost_urn::ServiceUrn;
use std::alloc::Global;
use std::borrow::CowStr;

/// The service that a text spells.
pub(crate) fn parse_service(alloc: Global, text: &[u8]) -> Option<ServiceUrn>
    ensures { IfSome result (λ service. read_service text.now ≡ Ok service) }
{
    match ServiceUrn::parse(alloc, text) {
        Ok(service) => Some(service),
        Err(_) => None,
    }
}

/// The service of a text.
fn read_service(alloc: Global, tree: &Tree<'_, '_>) -> Option<ServiceUrn>
    ensures { IfSome result (λ service. service_in (data_of tree.now) ≡ Some service) }
{
    let text = tree.text()?;
    parse_service(alloc, text.as_bytes())
}

/// The service that a request must have.
pub(crate) fn required_service(alloc: Global, member: &Option<Tree<'_, '_>>) -> Option<ServiceUrn>
    ensures { IfSome result (λ service. option_and_then service_in (option_map data_of member.now) ≡ Some service) }
{
    match member {
        Some(tree) => read_service(alloc, tree),
        None => None,
    }
}

/// The service that a request may have.
pub(crate) fn optional_service(
    alloc: Global,
    member: &Option<Tree<'_, '_>>,
) -> Option<Option<ServiceUrn>>
    ensures { IfSome result (λ found. optional_value service_in (option_map data_of member.now) ≡ Some (option_map (λ service. service) found)) }
{
    match member {
        Some(tree) => Some(Some(read_service(alloc, tree)?)),
        None => Some(None),
    }
}

/// Whether validation is wanted (RFC 5222, section 8.3.3): by default it is not.
pub(crate) fn read_validate(member: &Option<Tree<'_, '_>>) -> Option<bool>
    ensures { IfSome result (λ wanted. or_default as_bool false (option_map data_of member.now) ≡ Some wanted) }
{
    match member {
        Some(tree) => tree.truth(),
        None => Some(false),
    }
}

/// Whether boundaries are wanted by value (RFC 5222, section 8.3.4): by default they come by reference.
pub(crate) fn read_by_value(member: &Option<Tree<'_, '_>>) -> Option<bool>
    ensures { IfSome result (λ wanted. or_default by_value_kind false (option_map data_of member.now) ≡ Some wanted) }
{
    match member {
        Some(tree) => read_preference(tree),
        None => Some(false),
    }
}

fn read_preference(tree: &Tree<'_, '_>) -> Option<bool>
    ensures { IfSome result (λ wanted. by_value_kind (data_of tree.now) ≡ Some wanted) }
{
    let text = tree.text()?;
    by_value(text)
}

/// The path of a request (RFC 5222, section 6), empty if it has none.
pub(crate) fn read_path<'a>(alloc: Global, member: &Option<Tree<'_, 'a>>) -> Option<Vec<CowStr<'a>>>
    ensures { IfSome result (λ path. or_default path_kind [] (option_map data_of member.now) ≡ Some (path_names path.items)) }
{
    match member {
        Some(tree) => read_names(alloc, tree),
        None => Some(Vec::new(alloc)),
    }
}

/// At most 32 texts.
fn read_names<'a>(alloc: Global, tree: &Tree<'_, 'a>) -> Option<Vec<CowStr<'a>>>
    ensures { IfSome result (λ path. path_kind (data_of tree.now) ≡ Some (path_names path.items)) }
{
    let names = read_list::<CowStr<'a>>(alloc, tree)?;
    if names.len() <= MAX_NAMES {
        Some(names)
    } else {
        None
    }
}
