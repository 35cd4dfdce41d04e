//! Answers the request lines of a stream.
ghost use Rattle.std.specs.Prelude.{◌≢◌, Err};
ghost use Rattle.lost_lines.specs.Calls.{AreFresh, StreamFaults};
ghost use Rattle.lost_lines.specs.Outcome.{IsOutcome, passage_of};
ghost use Rattle.lost_worker.specs.Lines.{Answers, HasSeenMore};

use crate::moments::Moments;
use crate::replier::Replier;
use crate::serving::Serving;
use lost_lines::{Counts, Gate, ServeError, Turns, Watched, run_lines};
use lost_mapping::Source;
use std::alloc::Global;
use std::io::{Read, Write};

/// Answers the request lines of `input`, in order, as the server of this name, and writes a reply for each line
/// (RFC 5222; own format). Each line that is kept whole goes to `replier` at the next moment of `moments`. If memory is
/// refused for the reply or for keeping the line, the reply is `internalError`. A line over 1,048,576 bytes is
/// `badRequest`. Each line is answered only once `gate` let it through.
///
/// # Errors
///
/// [`ServeError::Read`], [`ServeError::Write`] and [`ServeError::TurnsSpent`] as [`run_lines`] says. After a fault the
/// output holds a beginning of the replies' text, and after `Read` and `TurnsSpent` the whole text of all lines whose
/// byte 10 was read, up to `turns.lines` lines and before any that the gate refused.
pub fn serve_lines<R: Read, W: Write, P: Replier, M: Moments, G: Gate>(
    alloc: Global,
    input: &mut Watched<R>,
    output: &mut Watched<W>,
    replier: &mut P,
    name: &Source,
    moments: &mut M,
    gate: &G,
    turns: Turns,
) -> Result<Counts, ServeError>
    requires fresh { AreFresh input.old output.old }

    // Each line of the input is answered by the replier, from a list that begins with the one before.
    ensures outcome { IsOutcome (G.says gate.now) (Answers name.now)
        (record { reader = P.reader replier.old; moments = M.coming moments.old })
        (record { reader = P.reader replier.new; moments = M.coming moments.new }) turns
        (passage_of R.remaining W.contents input.old input.new output.old output.new) result }
    ensures seen { HasSeenMore (P.reader replier.old) (P.reader replier.new) }
    ensures faults { StreamFaults R.remaining turns input.new output.old output.new result }
    ensures memory { result ≢ Err ServeError.Memory }
{
    let mut serving = Serving {
        name,
        replier,
        moments,
    };
    run_lines(alloc, input, output, &mut serving, gate, turns)
}
