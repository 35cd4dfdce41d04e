//! The questions that a book is asked after each edit.
use lost_geo::GeoPoint;
use lost_mapping::{Moment, Stamp};
use lost_query::{Holdings, Picked, Place};
use lost_urn::ServiceUrn;
use std::alloc::{AllocError, Global};
use std::fmt::Write;

/// The keys of the questions.
const KEYS: [&str; 5] = ["A-1", "A-2", "A-3", "B-1", "D-1"];

/// The latitude and the longitude of the point of the questions, in 1e-7 degrees.
const MIDDLE: i64 = 5_000_000;

/// A book that is asked, at a moment.
#[derive(Drop)]
struct Asked<'a, H: Holdings> {
    holdings: &'a H,
    moment: Moment,
}

/// The count of edits and of mappings, the positions for the keys, and whether the service is implemented; then the
/// positions of the mappings that hold the point, that hold it and have the service, of the service's defaults and of
/// all its mappings; last, the services below `sos`.
pub(crate) fn answers<H: Holdings>(alloc: Global, holdings: &H) -> Result<String, AllocError> {
    let asked = Asked {
        holdings,
        moment: moment(alloc, "2026-01-01T00:00:00Z")?,
    };
    let mut text = format!(in alloc; "edition {}, held {}", holdings.edition(), holdings.len())?;
    asked.add_answers(alloc, &mut text)?;
    Ok(text)
}

impl<H: Holdings> Asked<'_, H> {
    /// Adds what is asked for keys, for the point and for services.
    fn add_answers(&self, alloc: Global, text: &mut String) -> Result<(), AllocError> {
        self.add_keys(text)?;
        self.add_positions(text, &service(alloc, "urn:service:sos.police")?)?;
        self.add_below(text, &service(alloc, "urn:service:sos")?)
    }

    /// Adds the positions for the keys.
    fn add_keys(&self, text: &mut String) -> Result<(), AllocError> {
        text.push_str(", keys")?;
        for key in KEYS {
            push_position(text, self.holdings.by_key(&self.moment, key))?;
        }
        Ok(())
    }

    /// Adds whether a service is implemented, and the positions for the point and for the service.
    fn add_positions(&self, text: &mut String, service: &ServiceUrn) -> Result<(), AllocError> {
        self.add_implemented(text, service)?;
        self.add_those_at(text, service, &place(MIDDLE)?)?;
        self.add_those_of(text, service)
    }

    fn add_implemented(&self, text: &mut String, service: &ServiceUrn) -> Result<(), AllocError> {
        text.push_str(if self.holdings.implemented(&self.moment, service) {
            ", implemented"
        } else {
            ", not implemented"
        })
    }

    /// Adds the positions of the mappings that hold a place, and of those that also have a service.
    fn add_those_at(
        &self,
        text: &mut String,
        service: &ServiceUrn,
        place: &Place,
    ) -> Result<(), AllocError> {
        let (holdings, moment) = (self.holdings, &self.moment);
        list(text, "holding", holdings.holding(moment, place))?;
        list(text, "at", holdings.at(moment, place, service))
    }

    /// Adds the positions of a service's defaults, and of all its mappings.
    fn add_those_of(&self, text: &mut String, service: &ServiceUrn) -> Result<(), AllocError> {
        let (holdings, moment) = (self.holdings, &self.moment);
        list(text, "defaults", holdings.defaults(moment, service))?;
        list(text, "of service", holdings.of_service(moment, service))
    }

    /// Adds the services below one.
    fn add_below(&self, text: &mut String, above: &ServiceUrn) -> Result<(), AllocError> {
        text.push_str(", below")?;
        for found in &self.holdings.services_below(&self.moment, Some(above))? {
            write!(text, " {}", found.text())?;
        }
        Ok(())
    }
}

/// The moment of a stamp.
fn moment(alloc: Global, text: &str) -> Result<Moment, AllocError> {
    match Stamp::parse(alloc, text.as_bytes()) {
        Ok(stamp) => Ok(stamp.moment()),
        Err(_) => Err(AllocError),
    }
}

/// The point with this latitude and this longitude.
fn place(degrees: i64) -> Result<Place, AllocError> {
    match GeoPoint::new(degrees, degrees) {
        Ok(point) => Ok(Place::Point(point)),
        Err(_) => Err(AllocError),
    }
}

/// The service of a text.
fn service(alloc: Global, text: &str) -> Result<ServiceUrn, AllocError> {
    match ServiceUrn::parse(alloc, text.as_bytes()) {
        Ok(service) => Ok(service),
        Err(_) => Err(AllocError),
    }
}

/// Adds a position, or a dash where there is none.
fn push_position(text: &mut String, position: Option<usize>) -> Result<(), AllocError> {
    match position {
        Some(position) => write!(text, " {position}"),
        None => text.push_str(" -"),
    }
}

/// Adds a name and the list of positions that a book gave.
fn list(text: &mut String, name: &str, picked: Picked) -> Result<(), AllocError> {
    match picked {
        Ok(positions) => push_list(text, name, positions.as_slice()),
        Err(refused) => Err(refused),
    }
}

fn push_list(text: &mut String, name: &str, positions: &[usize]) -> Result<(), AllocError> {
    write!(text, ", {name}")?;
    for position in positions {
        write!(text, " {position}")?;
    }
    Ok(())
}
