//! The values of the calls, as they are made.
use crate::calls::unfit;
use crate::edits::edit_of;
use lost_book::Edit;
use lost_civic::CivicAddress;
use lost_geo::GeoPoint;
use lost_mapping::{Mapping, Parts, Region};
use lost_urn::ServiceUrn;
use std::alloc::{AllocError, Global};
use std::io;

/// A mapping with every part that a mapping may have.
const MAPPING: &[u8] =
    br#"{"publish":{"displayName":[{"lang":"en","text":"Police"}],"expires":"2026-06-01T00:00:00Z","key":"A-1","lastUpdated":"2025-12-01T00:00:00.5Z","service":"urn:service:SOS.Police","serviceBoundary":[{"polygon":[[0,0],[0,10000000],[10000000,10000000],[10000000,0],[0,0]],"profile":"geodetic-2d"},{"pattern":{"A3":"Leonia","country":"US"},"profile":"civic"}],"serviceNumber":"112","source":"Map.Example","sourceId":"A","uri":["sip:A@map.example","tel:112"]}}"#;

/// The positions of its ring.
const RING: [(i64, i64); 5] = [
    (0, 0),
    (0, 10_000_000),
    (10_000_000, 10_000_000),
    (10_000_000, 0),
    (0, 0),
];

/// One byte more than a value of a pattern may have.
const LONG: usize = 513;

/// The mapping.
pub(crate) fn mapping(alloc: Global) -> io::Result<Mapping> {
    match edit_of(alloc, MAPPING)? {
        Edit::Publish(mapping) => Ok(mapping),
        _ => Err(unfit()),
    }
}

/// The service above that of the mapping, and the same one.
pub(crate) fn services(alloc: Global) -> io::Result<Vec<ServiceUrn>> {
    let mut services = Vec::new(alloc);
    for text in ["urn:service:sos", "urn:service:sos.police"] {
        match ServiceUrn::parse(alloc, text.as_bytes()) {
            Ok(service) => services.push(service)?,
            Err(_) => return Err(unfit()),
        }
    }
    Ok(services)
}

/// The parts of a mapping, and of one whose number is invalid.
pub(crate) fn parts(alloc: Global) -> Result<Vec<Parts>, AllocError> {
    let mut parts = Vec::new(alloc);
    for number in ["112", "11x"] {
        parts.push(parts_with(alloc, number)?)?;
    }
    Ok(parts)
}

/// The parts of a mapping with a number.
fn parts_with(alloc: Global, number: &str) -> Result<Parts, AllocError> {
    Ok(Parts {
        source: String::from_str(alloc, "map.example")?,
        source_id: String::from_str(alloc, "A")?,
        last_updated: String::from_str(alloc, "2025-12-01T00:00:00Z")?,
        expires: String::from_str(alloc, "NO-EXPIRATION")?,
        service: String::from_str(alloc, "urn:service:sos.police")?,
        uris: uris(alloc)?,
        number: Some(String::from_str(alloc, number)?),
        regions: regions(alloc)?,
        is_default: false,
        display_names: Vec::new(alloc),
        key: Some(String::from_str(alloc, "A-1")?),
    })
}

/// A ring, and the pattern of a town.
fn regions(alloc: Global) -> Result<Vec<Region>, AllocError> {
    let mut regions = Vec::new(alloc);
    regions.push(Region::Ring(Vec::from_slice(alloc, &RING)?))?;
    let mut pairs = Vec::new(alloc);
    pairs.push(pair(alloc, "A3", "Leonia")?)?;
    regions.push(Region::Pattern(pairs))?;
    Ok(regions)
}

/// One URI.
fn uris(alloc: Global) -> Result<Vec<String>, AllocError> {
    let mut uris = Vec::new(alloc);
    uris.push(String::from_str(alloc, "sip:A@map.example")?)?;
    Ok(uris)
}

/// A text that is too long for a pattern.
pub(crate) fn long_text(alloc: Global) -> Result<String, AllocError> {
    let mut text = String::new(alloc);
    for _ in 0..LONG {
        text.push('x')?;
    }
    Ok(text)
}

/// A ring, and too few points for one.
pub(crate) fn rings(alloc: Global) -> io::Result<Vec<Vec<GeoPoint>>> {
    let mut rings = Vec::new(alloc);
    for count in [RING.len(), 3] {
        rings.push(points(alloc, &RING[..count])?)?;
    }
    Ok(rings)
}

/// The points of positions.
fn points(alloc: Global, positions: &[(i64, i64)]) -> io::Result<Vec<GeoPoint>> {
    let mut points = Vec::new(alloc);
    for (lat, lon) in positions {
        match GeoPoint::new(*lat, *lon) {
            Ok(point) => points.push(point)?,
            Err(_) => return Err(unfit()),
        }
    }
    Ok(points)
}

/// An address in the town of the mapping, and one in another town.
pub(crate) fn addresses(alloc: Global) -> io::Result<Vec<CivicAddress>> {
    let mut addresses = Vec::new(alloc);
    for town in [" leonia", "Fort Lee"] {
        addresses.push(address(alloc, town)?)?;
    }
    Ok(addresses)
}

/// An address in a town.
fn address(alloc: Global, town: &str) -> io::Result<CivicAddress> {
    let mut pairs = Vec::new(alloc);
    for (name, value) in [("country", "US"), ("A3", town), ("FLR", "2")] {
        pairs.push(pair(alloc, name, value)?)?;
    }
    match CivicAddress::from_pairs(alloc, pairs) {
        Ok(address) => Ok(address),
        Err(_) => Err(unfit()),
    }
}

/// A name and a value.
fn pair(alloc: Global, name: &str, value: &str) -> Result<(String, String), AllocError> {
    Ok((
        String::from_str(alloc, name)?,
        String::from_str(alloc, value)?,
    ))
}
