//! The kinds of values that members have: texts, truth values, services, positions, lists, pairs of names and texts.
ghost use Rattle.std.specs.Prelude.{◌≡◌, None, Some, Ok, Err, is_some, map, option_and_then, option_map, string_bytes};
ghost use Rattle.serde_json.specs.Find.{as_bool, as_str};
ghost use Rattle.serde_json.specs.View.{view, items_view, members_view};
ghost use Rattle.lost_civic.specs.Pairs.{seen_pairs};
ghost use Rattle.std.specs.Result.{result_ok};
ghost use Rattle.lost_spec.specs.Service.{read_service};
ghost use Rattle.lost_reading.specs.Gives.{Gives};
ghost use Rattle.lost_reading.specs.Members.{required, each_of, list_in, whole_in, service_in, two_of, pair_in, position_in, pairs_of, pairs_in};

use crate::reading::{Kind, member};
use crate::request::ReadError;
use lost_geo::GeoPoint;
use lost_spec::faults::UrnError;
use lost_urn::ServiceUrn;
use serde_json::{Map, Value};
use std::alloc::Global;
use std::borrow::CowStr;

impl Kind for String {
    ghost use Rattle.lost_spec.specs.Text.{Text};

    ghost Seen = { Text };

    ghost seen = { string_bytes };

    ghost meant = { as_str };

    fn read(alloc: Global, value: &Value) -> Result<String, ReadError> {
        match value.as_str() {
            Some(text) => Ok(String::from_str(alloc, text)?),
            None => Err(ReadError::BadRequest),
        }
    }
}

/// A text that is owned.
impl<'a> Kind for CowStr<'a> {
    ghost use Rattle.std.specs.Cow.{cow_str_bytes};
    ghost use Rattle.lost_spec.specs.Text.{Text};

    ghost Seen = { Text };

    ghost seen = { cow_str_bytes };

    ghost meant = { as_str };

    fn read(alloc: Global, value: &Value) -> Result<CowStr<'a>, ReadError> {
        Ok(CowStr::Owned(String::read(alloc, value)?))
    }
}

impl Kind for bool {
    ghost use Rattle.std.specs.Prelude.{Bool};

    ghost Seen = { Bool };

    ghost seen = { λ truth. truth };

    ghost meant = { as_bool };

    fn read(_alloc: Global, value: &Value) -> Result<bool, ReadError> {
        match value.as_bool() {
            Some(truth) => Ok(truth),
            None => Err(ReadError::BadRequest),
        }
    }
}

impl Kind for ServiceUrn {
    ghost use Rattle.lost_spec.specs.Service.{Service};

    ghost Seen = { Service };

    ghost seen = { λ service. service };

    ghost meant = { service_in };

    fn read(alloc: Global, value: &Value) -> Result<ServiceUrn, ReadError>
        ensures given { Gives (λ service. service) result (service_in (view value.now)) }
        ensures refused { service_in (view value.now) ≡ None → result ≡ Err ReadError.BadRequest }
    {
        match value.as_str() {
            Some(text) => read_service(alloc, text),
            None => Err(ReadError::BadRequest),
        }
    }
}

/// The service of a text. A text that is no service is refused even if memory is short.
fn read_service(alloc: Global, text: &str) -> Result<ServiceUrn, ReadError>
    ensures given { Gives (λ service. service) result (result_ok (read_service text.now)) }
    ensures refused { result_ok (read_service text.now) ≡ None → result ≡ Err ReadError.BadRequest }
{
    match ServiceUrn::parse(alloc, text.as_bytes()) {
        Ok(service) => Ok(service),
        Err(UrnError::Memory) => Err(ReadError::Memory),
        Err(_) => Err(ReadError::BadRequest),
    }
}

/// A latitude and a longitude.
impl Kind for (i64, i64) {
    ghost use Rattle.std.specs.Prelude.{ℤ};

    ghost Seen = { ℤ × ℤ };

    ghost seen = { λ position. position };

    ghost meant = { position_in };

    fn read(_alloc: Global, value: &Value) -> Result<(i64, i64), ReadError> {
        match position(value) {
            Some(position) => Ok(position),
            None => Err(ReadError::BadRequest),
        }
    }
}

/// The latitude and the longitude that a value is, in whole 1e-7 degrees: a list of two whole numbers, or a text as
/// [`GeoPoint::decimal`] reads it (own format). It takes no memory.
#[tactic(auto, using(crate::proofs::PositionLemmas::positions))]
pub fn position(value: &Value) -> Option<(i64, i64)>
    ensures { result ≡ position_in (view value.now) }
{
    match value.as_str() {
        Some(text) => GeoPoint::decimal(text.as_bytes()),
        None => pair(value),
    }
}

/// The position that a list of two whole numbers is.
fn pair(value: &Value) -> Option<(i64, i64)>
    ensures { result ≡ pair_in (view value.now) }
{
    match value.as_array() {
        Some(items) => position_of(items.as_slice()),
        None => None,
    }
}

/// The position of two whole numbers.
fn position_of(items: &[Value]) -> Option<(i64, i64)>
    ensures { result ≡ option_and_then two_of (each_of whole_in (items_view items.now)) }
{
    match items {
        [lat, lon] => Some((lat.as_i64()?, lon.as_i64()?)),
        _ => None,
    }
}

/// A list of things of one kind.
impl<T: Kind> Kind for Vec<T> {
    ghost use Rattle.std.specs.Prelude.{List};

    ghost Seen = { List T.Seen };

    ghost seen = { λ list. map T.seen list.items };

    ghost meant = { list_in T.meant };

    fn read(alloc: Global, value: &Value) -> Result<Vec<T>, ReadError> {
        match value.as_array() {
            Some(items) => read_each(alloc, items.as_slice()),
            None => Err(ReadError::BadRequest),
        }
    }
}

/// Reads each item as one kind, in order.
fn read_each<T: Kind>(alloc: Global, items: &[Value]) -> Result<Vec<T>, ReadError>
    ensures { Gives (λ list. map T.seen list.items) result (each_of T.meant (items_view items.now)) }
{
    let mut list = Vec::with_capacity(alloc, items.len())?;
    for item in items {
        let thing = T::read(alloc, item)?;
        list.push(thing)?;
    }
    Ok(list)
}

/// Names and texts, in ascending byte order of the names.
#[derive(Drop)]
pub(crate) struct NamedTexts(pub Vec<(String, String)>);

impl Kind for NamedTexts {
    ghost use Rattle.lost_spec.specs.Civic.{Pairs};

    ghost Seen = { Pairs };

    ghost seen = { λ pairs. seen_pairs pairs.0.items };

    ghost meant = { pairs_in };

    fn read(alloc: Global, value: &Value) -> Result<NamedTexts, ReadError>
        ensures given { Gives (λ pairs. seen_pairs pairs.0.items) result (pairs_in (view value.now)) }
        ensures refused { pairs_in (view value.now) ≡ None → result ≡ Err ReadError.BadRequest }
    {
        match value.as_object() {
            Some(members) => Ok(NamedTexts(read_pairs(alloc, members)?)),
            None => Err(ReadError::BadRequest),
        }
    }
}

/// The names and texts of a member. `None` if it is missing or something else, even if memory is short.
pub(crate) fn named_texts(
    alloc: Global,
    members: &Map<String, Value>,
    name: &str,
) -> Result<Option<NamedTexts>, ReadError>
    ensures given { Gives (λ found. option_map (λ pairs. seen_pairs pairs.0.items) found) result
        (Some (required pairs_in name.now (members_view members.now.entries))) }
    ensures nothing { required pairs_in name.now (members_view members.now.entries) ≡ None → result ≡ Ok None }
{
    let Some(value) = member(members, name) else {
        return Ok(None);
    };
    match NamedTexts::read(alloc, value) {
        Ok(pairs) => Ok(Some(pairs)),
        Err(ReadError::BadRequest) => Ok(None),
        Err(ReadError::Memory) => Err(ReadError::Memory),
    }
}

/// The names and texts of an object whose values are texts. Another object is refused even if memory is short.
fn read_pairs(
    alloc: Global,
    members: &Map<String, Value>,
) -> Result<Vec<(String, String)>, ReadError>
    ensures given { Gives (λ pairs. seen_pairs pairs.items) result (pairs_of (members_view members.now.entries)) }
    ensures refused { pairs_of (members_view members.now.entries) ≡ None → result ≡ Err ReadError.BadRequest }
{
    if !are_texts(members) {
        return Err(ReadError::BadRequest);
    }
    copy_pairs(alloc, members)
}

/// Whether the values of an object are texts.
fn are_texts(members: &Map<String, Value>) -> bool
    ensures { result ≡ is_some (pairs_of (members_view members.now.entries)) }
{
    for (_name, value) in members.iter() {
        if value.as_str().is_none() {
            return false;
        }
    }
    true
}

/// Copies of the names and texts of an object whose values are texts.
fn copy_pairs(
    alloc: Global,
    members: &Map<String, Value>,
) -> Result<Vec<(String, String)>, ReadError>
    ensures { Gives (λ pairs. seen_pairs pairs.items) result (pairs_of (members_view members.now.entries)) }
{
    let mut pairs = Vec::new(alloc);
    for (name, value) in members.iter() {
        let text = String::read(alloc, value)?;
        let name = name.clone()?;
        pairs.push((name, text))?;
    }
    Ok(pairs)
}
