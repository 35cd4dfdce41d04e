//! The replay of a stream of lines by one thread.
ghost use Rattle.std.specs.Prelude.{◌≡◌, Err};
ghost use Rattle.lost_lines.specs.Calls.{AreFresh, StreamFaults};
ghost use Rattle.lost_lines.specs.Outcome.{passage_of};
ghost use Rattle.lost_replay.specs.Replay.{IsReplayOutcome};

use crate::replayer::Replayer;
use lost_lines::{Counts, NoGate, ServeError, Turns, Watched, run_lines};
use lost_mapping::{Moment, Source};
use std::alloc::Global;
use std::io::{Read, Write};

/// Answers the desk lines and the request lines of `input`, in order, by one thread, as the server of this name at one
/// moment, and writes a reply for each line (RFC 5222; own format). It begins with no mappings. An edit is staged, a
/// commit publishes all staged edits, and a request is answered over the published book, from scratch. A line over
/// 1,048,576 bytes is `badRequest`. If memory is refused, the reply is code 20 where that refused the edit or the
/// commit of the line, otherwise `internalError`.
///
/// # Errors
///
/// [`ServeError::Memory`] if the two books could not be made: nothing was read or written. [`ServeError::Read`],
/// [`ServeError::Write`] and [`ServeError::TurnsSpent`] as in [`run_lines`]. After a fault the output holds a front of
/// the text of the replies. After `Read` and `TurnsSpent` it holds the whole text of all lines whose byte 10 was read,
/// up to `turns.lines` of them.
pub fn replay<R: Read, W: Write>(
    alloc: Global,
    input: &mut Watched<R>,
    output: &mut Watched<W>,
    name: &Source,
    moment: &Moment,
    turns: Turns,
) -> Result<Counts, ServeError>
    requires fresh { AreFresh input.old output.old }

    // Each line of the input is answered from scratch over the edits that were committed before it.
    ensures outcome { IsReplayOutcome name.now moment.now turns
        (passage_of R.remaining W.contents input.old input.new output.old output.new) result }
    ensures faults { StreamFaults R.remaining turns input.new output.old output.new result }
    ensures unread { result ≡ Err ServeError.Memory → input.new ≡ input.old }
    ensures unwritten { result ≡ Err ServeError.Memory → output.new ≡ output.old }
{
    let Ok(mut replayer) = Replayer::new(alloc, name, moment) else {
        return Err(ServeError::Memory);
    };
    run_lines(alloc, input, output, &mut replayer, &NoGate, turns)
}
