//! The text of a day.
use jiff::Timestamp;
use lost_mapping::Moment;
use std::alloc::{AllocError, Global};

/// The seconds of a day.
const SECONDS_OF_A_DAY: i64 = 86_400;

/// How many bytes the text of a day has.
const LENGTH: usize = 10;

/// The day of a moment, such as 2026-12-01; from 10000-01-01 on and before 0000-01-01 the last day of the calendar.
pub fn day_text(alloc: Global, moment: &Moment) -> Result<String, AllocError> {
    let second = i64::from(moment.day()).saturating_mul(SECONDS_OF_A_DAY);
    if let Ok(stamp) = Timestamp::from_second(second) {
        let text = format!(in alloc; "{stamp}")?;
        if let Some(day) = text.get(..LENGTH)
            && !day.starts_with('-')
        {
            return String::from_str(alloc, day);
        }
    }
    String::from_str(alloc, "9999-12-31")
}
