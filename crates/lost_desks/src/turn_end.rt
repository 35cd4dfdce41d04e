//! When a desk's turn is over, and why.
ghost use Rattle.std.specs.Prelude.{◌≡◌};
ghost use Rattle.lost_desks.specs.Turns.{input_state_of, is_too_long as is_too_long_a_wait, output_state_of};

use std::time::Duration;

/// Why a desk's turn is over before its connection has ended.
#[derive(Clone, Copy, PartialEq, Eq, Debug)]
pub enum TurnEnd {
    /// It sent no byte for too long.
    Silent,
    /// It sent no whole line from its start on.
    NoLine,
    /// It sent no whole line for long, and another desk waits.
    NoLineAndWaited,
    /// It took no byte of its replies for too long.
    NotTaken,
    /// It took no byte of its replies for long, and another desk waits.
    NotTakenAndWaited,
    /// Its first bytes are those of HTTP.
    SpeaksHttp,
    /// Its first bytes are those of TLS.
    SpeaksTls,
}

impl TurnEnd {
    /// The cause that is reported.
    pub fn text(self) -> &'static str {
        match self {
            TurnEnd::Silent => "it sent nothing for too long",
            TurnEnd::NoLine => "it sent no whole line within 10 seconds",
            TurnEnd::NoLineAndWaited => {
                "it sent no whole line for 10 seconds, and another desk waits"
            }
            TurnEnd::NotTaken => "it took no reply for too long",
            TurnEnd::NotTakenAndWaited => {
                "it took no reply for 10 seconds, and another desk waits"
            }
            TurnEnd::SpeaksHttp => "it speaks HTTP, not desk lines",
            TurnEnd::SpeaksTls => "it speaks TLS, not desk lines",
        }
    }
}

/// Whether a desk's turn is over.
#[derive(Clone, Copy, PartialEq, Eq, Debug)]
pub enum TurnState {
    /// It is not.
    GoesOn,
    /// It is.
    IsOver(TurnEnd),
    /// It is if another desk waits.
    IsOverIfWaited(TurnEnd),
}

/// A turn that has sent no byte for `silent`, and no whole line for `without_line`. `has_line` says whether it ever sent
/// one. It may be silent for less than `idle`; `None` for ever. `length` is how long it may go without a whole line:
/// after that it is over if it never sent one, and else gives way to a desk that waits; `None` for ever.
pub fn input_state(
    idle: Option<Duration>,
    length: Option<Duration>,
    silent: Duration,
    without_line: Duration,
    has_line: bool,
) -> TurnState
    ensures { result ≡ input_state_of idle length silent without_line has_line }
{
    if is_too_long(idle, silent) {
        return TurnState::IsOver(TurnEnd::Silent);
    }
    if !is_too_long(length, without_line) {
        return TurnState::GoesOn;
    }
    if has_line {
        TurnState::IsOverIfWaited(TurnEnd::NoLineAndWaited)
    } else {
        TurnState::IsOver(TurnEnd::NoLine)
    }
}

/// A turn whose replies have waited for `waited` without a byte taken, with limits as those of [`input_state`].
pub fn output_state(idle: Option<Duration>, length: Option<Duration>, waited: Duration) -> TurnState
    ensures { result ≡ output_state_of idle length waited }
{
    if is_too_long(idle, waited) {
        return TurnState::IsOver(TurnEnd::NotTaken);
    }
    if is_too_long(length, waited) {
        TurnState::IsOverIfWaited(TurnEnd::NotTakenAndWaited)
    } else {
        TurnState::GoesOn
    }
}

/// Whether a wait was longer than is allowed.
fn is_too_long(limit: Option<Duration>, waited: Duration) -> bool
    ensures { result ≡ is_too_long_a_wait limit waited }
{
    match limit {
        Some(limit) => waited.as_nanos() >= limit.as_nanos(),
        None => false,
    }
}
