//! How the program ends.
ghost use Rattle.std.specs.Prelude.{◌≡◌, true, false, OnOk, IfErr, Ok, Err};
ghost use Rattle.std.specs.Process.{exit_status};
ghost use Rattle.lost_command.specs.ExitReasons.{status_of};

use crate::exit_reason::ExitReason;
use lost_lines::{Counts, ServeError};
use std::process::ExitCode;

/// How the program ends after a replay (own rule).
///
/// # Errors
/// [`ExitReason::Run`] with the replay's fault.
pub fn replay_outcome(replayed: Result<Counts, ServeError>) -> Result<(), ExitReason>
    ensures ended { OnOk replayed (result ≡ Ok tt) }
    ensures fault { IfErr replayed (λ fault. result ≡ Err (ExitReason.Run fault)) }
{
    match replayed {
        Ok(_) => Ok(()),
        Err(fault) => Err(ExitReason::Run(fault)),
    }
}

/// How the program ends after a check. `is_nothing_found` says whether it reported no line (own rule).
///
/// # Errors
/// [`ExitReason::Run`] with the check's fault; [`ExitReason::Found`] if a line was reported.
pub fn check_outcome(
    checked: Result<Counts, ServeError>,
    is_nothing_found: bool,
) -> Result<(), ExitReason>
    ensures nothing { OnOk checked (is_nothing_found ≡ true → result ≡ Ok tt) }
    ensures something { OnOk checked (is_nothing_found ≡ false → result ≡ Err ExitReason.Found) }
    ensures fault { IfErr checked (λ fault. result ≡ Err (ExitReason.Run fault)) }
{
    match checked {
        Ok(_) if is_nothing_found => Ok(()),
        Ok(_) => Err(ExitReason::Found),
        Err(fault) => Err(ExitReason::Run(fault)),
    }
}

/// Reports what went wrong, if anything, and gives the exit status: 0 if all went well (own rule).
pub fn end<R: Eprint>(rt: &R, outcome: Result<(), ExitReason>) -> ExitCode
    ensures { exit_status result ≡ status_of outcome }
{
    match outcome {
        Ok(()) => ExitCode::SUCCESS,
        Err(reason) => reason.report(rt),
    }
}
