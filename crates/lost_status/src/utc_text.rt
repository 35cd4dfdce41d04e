//! The text of a moment.
use jiff::Timestamp;
use std::alloc::{AllocError, Global};

/// The moment `second` seconds after 1970-01-01T00:00:00Z as `2026-01-01T00:00:00Z`; `None` past the end of the
/// calendar.
pub(crate) fn utc_text(alloc: Global, second: u64) -> Result<Option<String>, AllocError> {
    let Ok(second) = i64::try_from(second) else {
        return Ok(None);
    };
    match Timestamp::from_second(second) {
        Ok(moment) => {
            let text = format!(in alloc; "{moment}")?;
            Ok(Some(text))
        }
        Err(_) => Ok(None),
    }
}
