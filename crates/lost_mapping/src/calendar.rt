//! Days of the calendar. `jiff` judges a date, and gives its day number.
ghost use Rattle.std.specs.Prelude.{◌≡◌, IfSome, is_some};
ghost use Rattle.lost_spec.specs.Moment.{is_date, day_number};

use jiff::civil::Date;

/// The day number of a date of the years 1 to 9999, or `None` where the Gregorian calendar has no such day.
pub(crate) fn day_number(year: u64, month: u64, day: u64) -> Option<i32>
    ensures exists { is_some result ≡ is_date year month day }
    ensures value { IfSome result (λ n. n ≡ day_number year month day) }
{
    if year == 0 {
        return None;
    }
    let year = i16::try_from(year).ok()?;
    let month = i8::try_from(month).ok()?;
    let day = i8::try_from(day).ok()?;
    let date = Date::new(year, month, day).ok()?;
    Some(date.to_plain().to_unix_epoch_day())
}
