//! The time limits of a connection.
ghost use Rattle.std.specs.Prelude.{◌≡◌};
ghost use Rattle.lost_connections.specs.Deadlines.{is_past as is_past_limit, passed_of, since_when, times_after, times_at};

use crate::limits::TimeLimits;
use std::time::Duration;

/// A time limit that was passed.
#[derive(Clone, Copy, PartialEq, Eq, Debug)]
pub enum Passed {
    /// That of waiting replies.
    Reply,
    /// That of a line.
    Line,
    /// That of a connection on which nothing moves.
    Idle,
}

impl Passed {
    /// The cause that is reported when a connection is closed for this limit.
    pub fn text(self) -> &'static str {
        match self {
            Passed::Reply => "it took no reply for too long",
            Passed::Line => "it did not finish a line in time",
            Passed::Idle => "it sent nothing for too long",
        }
    }
}

/// What a burst showed about a connection.
#[derive(Clone, Copy, PartialEq, Eq, Debug)]
pub struct Shown {
    /// Whether bytes were read, or taken by the client.
    pub has_moved: bool,
    /// Whether the client took bytes.
    pub has_taken: bool,
    /// Whether a line was read to its end.
    pub has_ended_line: bool,
    /// Whether a line is begun, and not read to its end.
    pub has_begun: bool,
    /// Whether replies wait to be taken.
    pub has_unsent: bool,
    /// Whether so many replies wait that nothing is read.
    pub is_held: bool,
}

/// Since when a connection has kept its worker waiting, by the monotonic clock.
#[derive(Clone, Copy, PartialEq, Eq, Debug)]
pub struct Times {
    /// Since when no byte was read, and the client took none.
    quiet: Duration,
    /// Since when a line is begun, if one is.
    begun: Option<Duration>,
    /// Since when the client took no byte, if replies wait.
    unsent: Option<Duration>,
    /// Whether so many replies wait that nothing is read.
    is_held: bool,
}

impl Times {
    /// The times of a connection that begins now.
    pub fn at(now: Duration) -> Times
        ensures { result ≡ times_at now }
    {
        Times {
            quiet: now,
            begun: None,
            unsent: None,
            is_held: false,
        }
    }

    /// The times after a burst at `now`. While the connection is not read, no time of its line passes.
    pub fn after(&self, shown: &Shown, now: Duration) -> Times
        ensures { result ≡ times_after self.now shown.now now }
    {
        Times {
            quiet: if shown.has_moved { now } else { self.quiet },
            begun: since(
                shown.has_begun,
                shown.has_ended_line || self.is_held,
                self.begun,
                now,
            ),
            unsent: since(shown.has_unsent, shown.has_taken, self.unsent, now),
            is_held: shown.is_held,
        }
    }

    /// The limit that is passed at `now`, if any.
    pub fn passed(&self, limits: &TimeLimits, now: Duration) -> Option<Passed>
        ensures { result ≡ passed_of self.now limits.now now }
    {
        if is_past(self.unsent, limits.reply, now) {
            return Some(Passed::Reply);
        }
        if !self.is_held && is_past(self.begun, limits.line, now) {
            return Some(Passed::Line);
        }
        if self.unsent.is_none() && is_past(Some(self.quiet), limits.idle, now) {
            return Some(Passed::Idle);
        }
        None
    }
}

/// Since when something is the case, if it `is`: since `now` if it `begins` anew or was not the case before.
fn since(is: bool, begins: bool, before: Option<Duration>, now: Duration) -> Option<Duration>
    ensures { result ≡ since_when is begins before now }
{
    match before {
        _ if !is => None,
        Some(before) if !begins => Some(before),
        _ => Some(now),
    }
}

/// Whether a limit has passed since a moment.
fn is_past(since: Option<Duration>, limit: Option<Duration>, now: Duration) -> bool
    ensures { result ≡ is_past_limit since limit now }
{
    match (since, limit) {
        (Some(since), Some(limit)) => now.saturating_sub(since).as_nanos() >= limit.as_nanos(),
        _ => false,
    }
}
