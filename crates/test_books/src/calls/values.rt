//! Calls on services, points, rings, civic addresses, mappings, moments and limits.
use crate::calls::making::{addresses, long_text, mapping, parts, rings, services};
use lost_book::Limits;
use lost_civic::{CivicAddress, CivicPattern, Element};
use lost_geo::{GeoPoint, Polygon};
use lost_mapping::{Expires, Mapping, MappingError, Moment, Parts};
use lost_spec::Coded;
use lost_urn::ServiceUrn;
use std::alloc::Global;
use std::cmp::Ordering;
use std::hash::{DefaultHasher, Hash, Hasher};
use std::io;

/// The days of the mapping's stamp and of its end, from 1970-01-01, and the last nanosecond of a day.
const STAMPED: i32 = 20_423;

const ENDED: i32 = 20_605;

const LAST_NANOSECOND: u64 = 86_399_999_999_999;

/// The values of the calls.
#[derive(Drop)]
pub(crate) struct Values {
    mapping: Mapping,
    parts: Vec<Parts>,
    long: String,
    /// The service above that of the mapping, and the same one.
    services: Vec<ServiceUrn>,
    /// A ring, and too few points for one.
    rings: Vec<Vec<GeoPoint>>,
    /// An address in the town of the mapping, and one in another town.
    addresses: Vec<CivicAddress>,
}

impl Values {
    /// Makes all values.
    pub(crate) fn new(alloc: Global) -> io::Result<Values> {
        Ok(Values {
            parts: parts(alloc)?,
            long: long_text(alloc)?,
            services: services(alloc)?,
            rings: rings(alloc)?,
            addresses: addresses(alloc)?,
            mapping: mapping(alloc)?,
        })
    }

    /// Makes the calls, and prints the answers.
    pub(crate) fn print<R: Print>(self, rt: &R) -> io::Result<()> {
        self.print_calls(rt)?;
        for points in self.rings {
            print_polygon(rt, points)?;
        }
        Ok(())
    }

    /// Makes the calls that consume nothing, and prints the answers.
    fn print_calls<R: Print>(&self, rt: &R) -> io::Result<()> {
        self.print_places(rt)?;
        print_checks(rt, self.parts.as_slice())?;
        print_mapping(rt, &self.mapping)?;
        print_lists(rt, &self.mapping)?;
        print_moments(rt, &self.mapping)?;
        print_limits(rt)
    }

    /// Makes those on services, points, elements and addresses, and prints the answers.
    fn print_places<R: Print>(&self, rt: &R) -> io::Result<()> {
        for service in &self.services {
            print_services(rt, self.mapping.service(), service)?;
        }
        print_points(rt)?;
        print_elements(rt)?;
        for address in &self.addresses {
            print_matches(rt, &self.mapping, address)?;
        }
        print_pairs(rt, self.long.as_str())
    }
}

/// Prints how a service and another one compare.
fn print_services<R: Print>(rt: &R, service: &ServiceUrn, other: &ServiceUrn) -> io::Result<()> {
    println!(rt;
        "service {}, {} labels, below {} {}, and the other way {}",
        service.text(),
        service.depth(),
        other.text(),
        service.is_at_or_below(other),
        other.is_at_or_below(service)
    )?;
    println!(rt;
        "equal {}, before {}, with one hash where equal {}",
        service == other,
        service.cmp(other) == Ordering::Less,
        service != other || hash_of(service) == hash_of(other)
    )
}

/// The hash of a service.
fn hash_of(service: &ServiceUrn) -> u64 {
    let mut hasher = DefaultHasher::new();
    service.hash(&mut hasher);
    hasher.finish()
}

/// Prints which pairs of numbers are points.
fn print_points<R: Print>(rt: &R) -> io::Result<()> {
    for (lat, lon) in [
        (900_000_000, 1_800_000_000),
        (900_000_001, 0),
        (0, 1_800_000_001),
    ] {
        print_point(rt, lat, lon)?;
    }
    Ok(())
}

fn print_point<R: Print>(rt: &R, lat: i64, lon: i64) -> io::Result<()> {
    match GeoPoint::new(lat, lon) {
        Ok(point) => println!(rt;
            "point {} {}, normal {} {}",
            point.lat(),
            point.lon(),
            point.normal().lat(),
            point.normal().lon()
        ),
        Err(error) => println!(rt; "point refused {}", error.code()),
    }
}

/// Prints what ring these points make.
fn print_polygon<R: Print>(rt: &R, points: Vec<GeoPoint>) -> io::Result<()> {
    match Polygon::new(points) {
        Ok(polygon) => print_ring(rt, &polygon),
        Err(error) => println!(rt; "ring refused {}", error.code()),
    }
}

/// Prints how many positions a ring has, its bounds, and whether its corners are inside.
fn print_ring<R: Print>(rt: &R, polygon: &Polygon) -> io::Result<()> {
    let bounds = polygon.bounds();
    print!(rt;
        "ring of {}, from {} {} to {} {}, inside",
        polygon.positions().len(),
        bounds.lat_min,
        bounds.lon_min,
        bounds.lat_max,
        bounds.lon_max
    )?;
    for point in polygon.positions() {
        print!(rt; " {}", polygon.inside(point))?;
    }
    println!(rt)
}

/// Prints which names are elements.
fn print_elements<R: Print>(rt: &R) -> io::Result<()> {
    for name in ["A3", "a3"] {
        match Element::by_name(name) {
            Some(element) => println!(rt; "element {}", element.name())?,
            None => println!(rt; "no element")?,
        }
    }
    Ok(())
}

/// Prints whether the patterns of a mapping match an address.
fn print_matches<R: Print>(rt: &R, mapping: &Mapping, address: &CivicAddress) -> io::Result<()> {
    for pattern in mapping.patterns() {
        println!(rt; "pattern matches {}", pattern.matches(address))?;
    }
    Ok(())
}

/// Prints which pairs a pattern takes: a good one, one whose name is no element, and one with a long value.
fn print_pairs<R: Print>(rt: &R, long: &str) -> io::Result<()> {
    println!(rt;
        "pairs taken {} {} {}",
        CivicPattern::takes_pair("A3", "Leonia"),
        CivicPattern::takes_pair("a3", "Leonia"),
        CivicPattern::takes_pair("A3", long)
    )
}

/// Prints whether parts make a mapping.
fn print_checks<R: Print>(rt: &R, parts: &[Parts]) -> io::Result<()> {
    for one in parts {
        print_check(rt, Mapping::check::<Parts>(&one.borrowed()))?;
    }
    Ok(())
}

fn print_check<R: Print>(rt: &R, checked: Result<(), MappingError>) -> io::Result<()> {
    match checked {
        Ok(()) => println!(rt; "parts allowed"),
        Err(error) => println!(rt; "parts refused {}", error.code()),
    }
}

/// Prints the texts of a mapping.
fn print_mapping<R: Print>(rt: &R, mapping: &Mapping) -> io::Result<()> {
    let expires = match mapping.expires() {
        Expires::NoCache => "NO-CACHE",
        Expires::NoExpiration => "NO-EXPIRATION",
        Expires::At(stamp) => stamp.text(),
    };
    println!(rt;
        "mapping {} {} {} {}, key {}, number {}, default {}",
        mapping.identity().source().text(),
        mapping.identity().source_id(),
        mapping.stamp().text(),
        expires,
        mapping.key().unwrap_or("-"),
        mapping.number().unwrap_or("-"),
        mapping.is_default()
    )
}

/// Prints how long the lists of a mapping are.
fn print_lists<R: Print>(rt: &R, mapping: &Mapping) -> io::Result<()> {
    println!(rt;
        "{} uris, {} display names, {} polygons, {} patterns",
        mapping.uris().len(),
        mapping.display_names().len(),
        mapping.polygons().len(),
        mapping.patterns().len()
    )
}

/// Prints when a mapping was stamped, and whether it is live before its end and at it.
fn print_moments<R: Print>(rt: &R, mapping: &Mapping) -> io::Result<()> {
    println!(rt;
        "stamped {}, live {} {}, past the day {}",
        Moment::new(STAMPED, 500_000_000) == Some(mapping.stamp().moment()),
        is_live(mapping, ENDED - 1, LAST_NANOSECOND),
        is_live(mapping, ENDED, 0),
        Moment::new(0, LAST_NANOSECOND + 1).is_some()
    )
}

/// Whether a mapping is live at a nanosecond of a day.
fn is_live(mapping: &Mapping, day: i32, nanosecond: u64) -> bool {
    match Moment::new(day, nanosecond) {
        Some(moment) => mapping.is_live(&moment),
        None => false,
    }
}

/// Prints which limits are allowed.
fn print_limits<R: Print>(rt: &R) -> io::Result<()> {
    for (mappings, edits, traces) in [(1, 1, 1), (0, 1, 1), (1, 0, 1), (1, 1, 0)] {
        let allowed = are_allowed(mappings, edits, traces);
        println!(rt; "limits {mappings} {edits} {traces}: {allowed}")?;
    }
    Ok(())
}

fn are_allowed(mappings: u32, edits: u32, traces: u32) -> bool {
    match Limits::new(mappings, edits) {
        Some(limits) => limits.with_traces(traces).is_some(),
        None => false,
    }
}
