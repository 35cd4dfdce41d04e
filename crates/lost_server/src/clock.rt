//! The moments of the machine's clock.
ghost use Rattle.std.specs.Prelude.{◌≡◌, ◌≤◌, ◌/◌, ◌%◌, ◌^◌, ◌↔◌, pos, IfSome, IsNone};
ghost use Rattle.std.specs.Duration.{as_nanos};

use lost_mapping::Moment;
use lost_worker::Moments;
use std::time::{Clock, Duration};

/// The seconds of a day.
const SECONDS_OF_A_DAY: u64 = 86_400;

/// The nanoseconds of a second.
const NANOSECONDS_OF_A_SECOND: u64 = 1_000_000_000;

/// Gives the time of the machine's clock, in UTC. If the clock cannot be read, or its day is past the last possible
/// stamp, it gives the last moment again; at first that is 1970-01-01T00:00:00Z.
#[derive(Drop)]
pub(crate) struct MachineClock<'r, R: Clock> {
    rt: &'r R,
    last: Moment,
}

impl<'r, R: Clock> MachineClock<'r, R> {
    /// The clock of this machine.
    pub(crate) fn new(rt: &'r R) -> MachineClock<'r, R> {
        match Moment::new(0, 0) {
            Some(last) => MachineClock { rt, last },
            None => unreachable!(),
        }
    }
}

impl<R: Clock> Moments for MachineClock<'_, R> {
    ghost use Rattle.std.specs.Prelude.{[]};

    ghost coming = { λ _. [] };

    fn now(&mut self) -> Moment {
        if let Ok(since) = self.rt.since_1970()
            && let Some(moment) = moment_since_1970(since)
        {
            self.last = moment;
        }
        self.last
    }
}

/// The moment `since` after 1970-01-01T00:00:00Z; `None` if its day has no number.
fn moment_since_1970(since: Duration) -> Option<Moment>
    ensures none { IsNone result ↔ (2 ^ 31 ≤ as_nanos since / 86_400_000_000_000) }
    ensures value { IfSome result (λ moment.
        moment ≡ record { day = pos (as_nanos since / 86_400_000_000_000); nanosecond = as_nanos since % 86_400_000_000_000 }) }
{
    let day = i32::try_from(since.as_secs() / SECONDS_OF_A_DAY).ok()?;
    let second = since.as_secs() % SECONDS_OF_A_DAY;
    Moment::new(
        day,
        second * NANOSECONDS_OF_A_SECOND + u64::from(since.subsec_nanos()),
    )
}
