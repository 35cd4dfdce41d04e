//! The check of a stream of lines.
ghost use Rattle.std.specs.Prelude.{◌≡◌, ◌≤◌, ◌-◌, ◌^◌, Err};
ghost use Rattle.lost_lines.specs.Calls.{AreFresh, StreamFaults};
ghost use Rattle.lost_lines.specs.Outcome.{passage_of};
ghost use Rattle.lost_replay.specs.Check.{IsCheckOutcome};

use crate::Replayer;
use crate::checker::Checker;
use crate::findings::Findings;
use crate::tally::Tally;
use lost_lines::{Counts, Gate, ServeError, Turns, Watched, run_lines};
use lost_mapping::{Moment, Source};
use std::alloc::Global;
use std::io::{Read, Write};

/// Reads the desk lines and the request lines of `input` as a replay does, by the server of this name at one moment.
/// Writes a line of text for each line that the replay refuses or answers `badRequest` or `internalError`: its number,
/// from 1, the code and name of the refusal or the name of the error, and a cause in plain words. For any other line it
/// writes nothing. Each line is judged only once `gate` let it through. The counts go into `found`, even if a fault
/// came later (own rules).
///
/// # Errors
///
/// [`ServeError::Memory`] if the replay could not begin: nothing was read or written. [`ServeError::Read`],
/// [`ServeError::Write`] and [`ServeError::TurnsSpent`] as in [`run_lines`]. After a fault the output holds a front of
/// the report. After `Read` and `TurnsSpent` it holds the whole report of all lines whose byte 10 was read, up to
/// `turns.lines` of them and before any that the gate refused.
pub fn check_lines<R: Read, W: Write, G: Gate>(
    alloc: Global,
    input: &mut Watched<R>,
    output: &mut Watched<W>,
    name: &Source,
    moment: &Moment,
    gate: &G,
    turns: Turns,
    found: &mut Findings,
) -> Result<Counts, ServeError>
    requires fresh { AreFresh input.old output.old }

    // Reports exactly the lines that a replay refuses or answers `badRequest` or `internalError`.
    ensures outcome { IsCheckOutcome (G.says gate.now) name.now moment.now turns
        (passage_of R.remaining W.contents input.old input.new output.old output.new) found.new result }
    ensures faults { StreamFaults R.remaining turns input.new output.old output.new result }
    ensures unread { result ≡ Err ServeError.Memory → input.new ≡ input.old }
    ensures unwritten { result ≡ Err ServeError.Memory → output.new ≡ output.old }
{
    let Ok(replayer) = Replayer::new(alloc, name, moment) else {
        return Err(ServeError::Memory);
    };
    let mut checker = Checker {
        alloc,
        replayer,
        tally: Tally::new(),
    };
    law_most_lines(turns);
    let served = run_lines(alloc, input, output, &mut checker, gate, turns);
    *found = checker.findings();
    served
}

/// The number of lines that turns allow has 64 bits.
fn law_most_lines(turns: Turns)
    ensures { turns.lines ≤ 2 ^ 64 - 1 }
{}
