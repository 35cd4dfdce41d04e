//! Until when a book refuses a publish of an identity because it was withdrawn.
use crate::kinds::Kind;
use lost_book::{Edit, EditError};
use lost_mapping::{Mapping, Parts};
use std::alloc::{AllocError, Global};
use std::fmt::Write;

/// The identities that are looked for: two mappings of the rows, and for the first one its sourceId with another source
/// and its source with another sourceId.
const IDENTITIES: [(&str, &str); 4] = [
    ("map.example", "A"),
    ("map.example", "B"),
    ("other.example", "A"),
    ("map.example", "a"),
];

/// Publishes are stamped with the first second of so many days of December 2025, from the first on.
const DAYS: u64 = 6;

/// Publishes of the identities, one for each day.
#[derive(Drop)]
pub(crate) struct Publishes {
    of_identities: Vec<Vec<Edit>>,
}

impl Publishes {
    /// Makes all publishes.
    pub(crate) fn new(alloc: Global) -> Result<Publishes, AllocError> {
        let mut of_identities = Vec::new(alloc);
        for (source, source_id) in IDENTITIES {
            of_identities.push(by_days(alloc, source, source_id)?)?;
        }
        Ok(Publishes { of_identities })
    }

    /// Adds for each identity the last day whose publish a book refuses as withdrawn, or a dash.
    pub(crate) fn add_last_refused<K: Kind>(
        &self,
        text: &mut String,
        book: &K,
    ) -> Result<(), AllocError> {
        text.push_str(", withdrawn")?;
        for edits in &self.of_identities {
            push_days(text, refused_days(book, edits.as_slice()))?;
        }
        Ok(())
    }
}

/// Adds a number of days, or a dash where it is 0.
fn push_days(text: &mut String, days: usize) -> Result<(), AllocError> {
    match days {
        0 => text.push_str(" -"),
        _ => write!(text, " {days}"),
    }
}

/// How many of the first edits a book refuses as withdrawn.
fn refused_days<K: Kind>(book: &K, edits: &[Edit]) -> usize {
    for (day, edit) in edits.iter().enumerate() {
        if book.check(edit) != Err(EditError::Withdrawn) {
            return day;
        }
    }
    edits.len()
}

/// Publishes of an identity, one with the stamp of each day.
fn by_days(alloc: Global, source: &str, source_id: &str) -> Result<Vec<Edit>, AllocError> {
    let mut edits = Vec::new(alloc);
    for day in 1..=DAYS {
        edits.push(Edit::Publish(standby(alloc, source, source_id, day)?))?;
    }
    Ok(edits)
}

/// A default of this identity, stamped with a day.
fn standby(alloc: Global, source: &str, source_id: &str, day: u64) -> Result<Mapping, AllocError> {
    let parts = Parts {
        source: String::from_str(alloc, source)?,
        source_id: String::from_str(alloc, source_id)?,
        last_updated: format!(in alloc; "2025-12-0{day}T00:00:00Z")?,
        expires: String::from_str(alloc, "NO-CACHE")?,
        service: String::from_str(alloc, "urn:service:sos")?,
        uris: uris(alloc)?,
        number: None,
        is_default: true,
        regions: Vec::new(alloc),
        display_names: Vec::new(alloc),
        key: None,
    };
    match Mapping::build(alloc, parts) {
        Ok(mapping) => Ok(mapping),
        Err(_) => Err(AllocError),
    }
}

/// One URI.
fn uris(alloc: Global) -> Result<Vec<String>, AllocError> {
    let mut uris = Vec::new(alloc);
    uris.push(String::from_str(alloc, "sip:a")?)?;
    Ok(uris)
}
