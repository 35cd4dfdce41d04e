//! Why a journal whose reading stopped ends the program.
ghost use Rattle.std.specs.Prelude.{◌≡◌};
ghost use Rattle.lostd.specs.ExitReasons.{recovery_reason};

use lost_command::ExitReason;
use lost_journal::ReadFault;
use lost_keeping::{RecoveryFault, Stopped};
use std::io;

/// The reason why a journal whose reading stopped ends the program.
pub(crate) fn recovery_reason(fault: RecoveryFault) -> ExitReason
    ensures { result ≡ recovery_reason fault }
{
    match fault {
        RecoveryFault::Damaged(_) | RecoveryFault::Unread(ReadFault::Line) => ExitReason::Damaged,
        RecoveryFault::Unread(_) | RecoveryFault::Uncut(_) | RecoveryFault::Memory => {
            ExitReason::File
        }
    }
}

/// Reports where the reading of a journal stopped, and why.
pub(crate) fn say_of_stop<R: Eprint>(rt: &R, path: &str, stopped: Stopped) -> io::Result<()> {
    let Stopped {
        line,
        offset,
        fault,
    } = stopped;
    if line == 0 {
        return eprintln!(rt; "lostd: --journal: {path}: {fault}");
    }
    eprintln!(rt; "lostd: --journal: {path}: line {line}, offset {offset}: {fault}")
}
