//! The limits of query connections.
ghost use Rattle.std.specs.Prelude.{◌≡◌, ◌&&◌, not, is_some};

use std::time::Duration;

/// The limits on the number and the time of a server's query connections.
#[derive(Clone, Copy, PartialEq, Eq, Debug)]
pub struct ConnectionLimits {
    /// How long a line may take from its first byte to its end; `None` for any time.
    pub line_time: Option<Duration>,
    /// How long a client may take no byte of its waiting replies; `None` for ever.
    pub reply_time: Option<Duration>,
    /// How many connections may be open.
    pub most_connections: u32,
    /// How many of one address may be open; `None` for any number.
    pub per_address: Option<u32>,
}

/// How long a connection may keep its worker waiting; `None` for ever.
#[derive(Clone, Copy, PartialEq, Eq, Debug)]
pub struct TimeLimits {
    /// Without a byte read, while no reply waits to be taken.
    pub idle: Option<Duration>,
    /// From the first byte of a line to its end, while the connection is read.
    pub line: Option<Duration>,
    /// Without a byte taken of the replies that wait.
    pub reply: Option<Duration>,
}

impl TimeLimits {
    /// The time limits of a server: that of silence, and those of its lines and its replies.
    pub fn of(idle: Option<Duration>, limits: &ConnectionLimits) -> TimeLimits
        ensures { result ≡ record { idle = idle; line = limits.now.line_time; reply = limits.now.reply_time } }
    {
        TimeLimits {
            idle,
            line: limits.line_time,
            reply: limits.reply_time,
        }
    }

    /// Whether there is no limit.
    pub fn are_none(&self) -> bool
        ensures { result ≡ (not (is_some self.now.idle) && not (is_some self.now.line) && not (is_some self.now.reply)) }
    {
        self.idle.is_none() && self.line.is_none() && self.reply.is_none()
    }
}
