//! What a worker decides, from values alone.
ghost use Rattle.std.specs.Prelude.{◌≡◌};
ghost use Rattle.lost_loop.specs.Next.{is_due as is_due_since, next_of, patience_of};

use lost_connections::{ClientFault, Progress};
use std::time::Duration;

/// How often limits are checked, in nanoseconds.
const SWEEP_NANOS: u128 = 250_000_000;

/// What becomes of a connection after a burst.
#[derive(Clone, Copy, PartialEq, Eq, Debug)]
pub enum Next {
    /// It waits until something happens at it.
    Waits,
    /// It goes behind the others that are served at once.
    Goes,
    /// It has no line left: its replies are sent, and then it ends.
    Rests,
    /// It ends, in this fault or in none.
    Ends(Option<ClientFault>),
}

/// For how long a worker waits for events.
#[derive(Clone, Copy, PartialEq, Eq, Debug)]
pub enum Patience {
    /// Not at all.
    Nothing,
    /// Until the next check of limits.
    UntilSweep,
    /// Until something happens.
    UntilEvent,
}

/// What becomes of a connection after a burst with this outcome. `is_spent` says whether it had no line left before.
pub(crate) fn next_after(served: Result<Progress, ClientFault>, is_spent: bool) -> Next
    ensures { result ≡ next_of served is_spent }
{
    match served {
        Ok(Progress::Waits) => Next::Waits,
        Ok(Progress::More) => Next::Goes,
        Ok(Progress::Over) if is_spent => Next::Ends(Some(ClientFault::Spent)),
        Ok(Progress::Over) => Next::Ends(None),
        Err(ClientFault::Spent) => Next::Rests,
        Err(fault) => Next::Ends(Some(fault)),
    }
}

/// For how long a worker waits for events. `has_queued` says whether a connection is served at once, `may_pass` whether one
/// could pass a limit.
pub(crate) fn patience_for(has_queued: bool, may_pass: bool) -> Patience
    ensures { result ≡ patience_of has_queued may_pass }
{
    if has_queued {
        Patience::Nothing
    } else if may_pass {
        Patience::UntilSweep
    } else {
        Patience::UntilEvent
    }
}

/// Whether limits are to be checked at `now`: [`SWEEP_NANOS`] have passed since the last time.
pub(crate) fn is_due(swept: Duration, now: Duration) -> bool
    ensures { result ≡ is_due_since swept now }
{
    now.saturating_sub(swept).as_nanos() >= SWEEP_NANOS
}
