//! The server of every row.
use lost_mapping::{Moment, Source, Stamp};
use std::alloc::{AllocError, Global};

/// The server's name, and the moment of every answer.
#[derive(Drop)]
pub struct Setting {
    /// `lost.example`.
    pub name: Source,
    /// The first moment of 2026.
    pub moment: Moment,
}

impl Setting {
    /// The server of every row, at its moment.
    pub fn new(alloc: Global) -> Result<Setting, AllocError> {
        let Ok(name) = Source::parse(alloc, b"lost.example") else {
            return Err(AllocError);
        };
        let Ok(now) = Stamp::parse(alloc, b"2026-01-01T00:00:00Z") else {
            return Err(AllocError);
        };
        Ok(Setting {
            name,
            moment: now.moment(),
        })
    }
}
