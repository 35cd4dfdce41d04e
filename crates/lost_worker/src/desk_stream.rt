//! Answers the lines of a desk's connection.
ghost use Rattle.std.specs.Prelude.{◌≢◌, Err};
ghost use Rattle.lost_lines.specs.Calls.{AreFresh, StreamFaults};
ghost use Rattle.lost_lines.specs.Outcome.{IsOutcome, passage_of};
ghost use Rattle.lost_json.specs.Outcome.{IsStreamOutcome};
ghost use Rattle.lost_worker.specs.Desking.{IsSameDesk, Watches, always_lets, desk_terms, lists_of};

use crate::desking::Desking;
use crate::witness::{DeskWitness, NoWitness};
use lost_desk::Desk;
use lost_lines::{Counts, NoGate, ServeError, Turns, Watched, run_lines};
use lost_tape::Scratch;
use std::alloc::Global;
use std::io::{Read, Write};
use std::sync::Wait;

/// Answers the desk lines of `input`, in order, and writes a reply for each line (own format). An edit is staged behind
/// the pending ones, and a commit publishes all that is pending. A line over 1,048,576 bytes, or one that is no desk
/// line, is code 1. If memory is refused, the reply is code 20 and the desk stays as it was. A commit waits for readers
/// that still read.
///
/// # Errors
///
/// [`ServeError::Read`], [`ServeError::Write`] and [`ServeError::TurnsSpent`] as [`run_lines`] says. After a fault the
/// output holds a beginning of the replies' text, and after `Read` and `TurnsSpent` the whole text of all lines whose
/// byte 10 was read, up to `turns.lines` lines. The edits of the answered lines stand.
pub fn serve_desk<T: Wait, R: Read, W: Write>(
    rt: &T,
    alloc: Global,
    input: &mut Watched<R>,
    output: &mut Watched<W>,
    desk: &mut Desk,
    turns: Turns,
) -> Result<Counts, ServeError>
    requires fresh { AreFresh input.old output.old }

    // Each line of the input is answered by the lists of the desk, which change as the lines say.
    ensures outcome { IsStreamOutcome (desk_terms desk.old.limits) (lists_of desk.old) (lists_of desk.new) turns
        (passage_of R.remaining W.contents input.old input.new output.old output.new) result }
    ensures same { IsSameDesk desk.old desk.new }
    ensures faults { StreamFaults R.remaining turns input.new output.old output.new result }
    ensures memory { result ≢ Err ServeError.Memory }
{
    serve_desk_with(rt, alloc, input, output, desk, &mut NoWitness, turns)
}

/// Answers the desk lines of `input` as [`serve_desk`] does, and tells `witness` of each reply, in order, as it is given.
///
/// # Errors
///
/// Those of [`serve_desk`].
pub fn serve_desk_with<T: Wait, R: Read, W: Write, V: DeskWitness>(
    rt: &T,
    alloc: Global,
    input: &mut Watched<R>,
    output: &mut Watched<W>,
    desk: &mut Desk,
    witness: &mut V,
    turns: Turns,
) -> Result<Counts, ServeError>
    requires fresh { AreFresh input.old output.old }

    ensures outcome { IsStreamOutcome (desk_terms desk.old.limits) (lists_of desk.old) (lists_of desk.new) turns
        (passage_of R.remaining W.contents input.old input.new output.old output.new) result }

    // The witness was told of each line's reply: the lists and the witness go by one run over the lines.
    ensures watched { IsOutcome always_lets (Watches V.step (desk_terms desk.old.limits))
        (record { lists = lists_of desk.old; witness = witness.old })
        (record { lists = lists_of desk.new; witness = witness.new }) turns
        (passage_of R.remaining W.contents input.old input.new output.old output.new) result }
    ensures same { IsSameDesk desk.old desk.new }
    ensures faults { StreamFaults R.remaining turns input.new output.old output.new result }
    ensures memory { result ≢ Err ServeError.Memory }
{
    let mut scratch = Scratch::new(alloc);
    let mut desking = Desking {
        rt,
        desk,
        scratch: &mut scratch,
        witness,
    };
    run_lines(alloc, input, output, &mut desking, &NoGate, turns)
}
