//! Instants, as a day and a nanosecond of the day.
ghost use Rattle.std.specs.Prelude.{◌≡◌, ◌<◌, ◌≤◌, ◌↔◌, IsNone, IfSome};
ghost use Rattle.lost_spec.specs.Moment.{Instant, is_earlier, nanoseconds_of_a_day};

use std::marker::Model;

/// The nanoseconds of a day.
const NANOSECONDS_OF_A_DAY: u64 = 86_400_000_000_000;

/// An instant in UTC: a civil day number from 1970-01-01, which is day 0, and a nanosecond of that day. Instants are
/// ordered by day, and then by nanosecond.
#[derive(Clone, Copy, PartialEq, Eq, PartialOrd, Ord, Hash, Debug)]
pub struct Moment {
    day: i32,
    nanosecond: u64,
}

impl Model for Moment {
    ghost use Rattle.std.specs.Prelude.{◌<◌};
    ghost use Rattle.lost_spec.specs.Moment.{Instant, nanoseconds_of_a_day};

    ghost Value = { Instant };

    ghost view = { λ m. record { day = m.day; nanosecond = m.nanosecond } };

    ghost invariant = { λ m. m.nanosecond < nanoseconds_of_a_day };

    ghost inverse = { λ i. record { day = i.day; nanosecond = i.nanosecond } };
}

impl Moment {
    /// The instant at a nanosecond of a day, or `None` from 86,400,000,000,000 nanoseconds on.
    pub fn new(day: i32, nanosecond: u64) -> Option<Moment>
        ensures none { IsNone result ↔ (nanoseconds_of_a_day ≤ nanosecond) }
        ensures value { IfSome result (λ m. m ≡ record { day = day; nanosecond = nanosecond }) }
    {
        if nanosecond >= NANOSECONDS_OF_A_DAY {
            return None;
        }
        Some(Moment { day, nanosecond })
    }

    /// The day number, 0 for 1970-01-01 and negative before it.
    pub fn day(&self) -> i32
        ensures { result ≡ self.now.day }
    {
        self.day
    }

    /// The nanosecond of the day.
    pub fn nanosecond(&self) -> u64
        ensures value { result ≡ self.now.nanosecond }
        ensures within { result < nanoseconds_of_a_day }
    {
        self.nanosecond
    }

    /// Whether this instant is before another, as `<` says.
    pub fn is_earlier(&self, other: &Moment) -> bool
        ensures { result ≡ is_earlier self.now other.now }
    {
        self < other
    }
}
