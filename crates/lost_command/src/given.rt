//! The server's name and the moment of every answer, as the command line gives them.
ghost use Rattle.std.specs.Prelude.{◌≡◌, ◌≢◌, ◌↔◌, false, None, IfOk, IfErr, OnOk, Err, Some, option_map};
ghost use Rattle.lost_spec.specs.Text.{lowered};
ghost use Rattle.lost_spec.specs.Mapping.{is_source};
ghost use Rattle.lost_spec.specs.Moment.{is_stamp, read_stamp};
ghost use Rattle.lost_command.specs.ExitReasons.{begin_fault};

use crate::exit_reason::ExitReason;
use lost_lines::ServeError;
use lost_mapping::{Moment, Source, SourceError, Stamp, StampError};
use std::alloc::Global;

/// The server's name and the moment of every answer (own rule).
///
/// # Errors
/// [`ExitReason::Name`] if the name is not one, even if memory is short; else [`ExitReason::Now`] if the moment is not
/// one; [`ExitReason::MEMORY`] if memory is refused.
pub fn begin(alloc: Global, name: &str, now: &str) -> Result<(Source, Moment), ExitReason>
    ensures accepted { OnOk result (begin_fault name.now now.now ≡ None) }
    ensures name { IfOk result (λ begun. begun.0 ≡ lowered name.now) }
    ensures moment { IfOk result (λ begun. option_map (λ stamp. stamp.moment) (read_stamp now.now) ≡ Some begun.1) }
    ensures refused { IfErr result (λ reason. reason ≢ ExitReason.Run ServeError.Memory
        → begin_fault name.now now.now ≡ Some reason) }
    ensures bad_name { is_source name.now ≡ false → result ≡ Err ExitReason.Name }
{
    let name = server_name(alloc, name)?;
    let moment = moment_of(alloc, now)?;
    Ok((name, moment))
}

/// The server's name (own rule).
///
/// # Errors
/// [`ExitReason::Name`] exactly if it is not one; [`ExitReason::MEMORY`] if memory is refused.
pub fn server_name(alloc: Global, text: &str) -> Result<Source, ExitReason>
    ensures value { IfOk result (λ name. name ≡ lowered text.now) }
    ensures bad { (result ≡ Err ExitReason.Name) ↔ (is_source text.now ≡ false) }
    ensures refused { IfErr result (λ reason. reason ≢ ExitReason.Name → reason ≡ ExitReason.Run ServeError.Memory) }
{
    match Source::parse(alloc, text.as_bytes()) {
        Ok(name) => Ok(name),
        Err(SourceError::Bad) => Err(ExitReason::Name),
        Err(SourceError::Memory) => Err(ExitReason::MEMORY),
    }
}

/// The moment that a text says.
pub(crate) fn moment_of(alloc: Global, text: &str) -> Result<Moment, ExitReason>
    ensures value { IfOk result (λ moment. option_map (λ stamp. stamp.moment) (read_stamp text.now) ≡ Some moment) }
    ensures bad { (result ≡ Err ExitReason.Now) ↔ (is_stamp text.now ≡ false) }
    ensures refused { IfErr result (λ reason. reason ≢ ExitReason.Now → reason ≡ ExitReason.Run ServeError.Memory) }
{
    match Stamp::parse(alloc, text.as_bytes()) {
        Ok(stamp) => Ok(stamp.moment()),
        Err(StampError::Bad) => Err(ExitReason::Now),
        Err(StampError::Memory) => Err(ExitReason::MEMORY),
    }
}
