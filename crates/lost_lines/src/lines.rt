//! Serves a stream of lines.
ghost use Rattle.std.specs.Prelude.{◌≢◌, Err};
ghost use Rattle.lost_lines.specs.Calls.{AreFresh, StreamFaults};
ghost use Rattle.lost_lines.specs.Outcome.{IsOutcome, passage_of};

use crate::answerer::Answerer;
use crate::counts::Counts;
use crate::fault::ServeError;
use crate::gate::Gate;
use crate::server::LineServer;
use crate::turns::Turns;
use crate::watched::Watched;
use std::alloc::Global;
use std::io::{Read, Write};

/// The most bytes of one read.
const MAX_READ: usize = 16_384;

/// Reads lines from `input` to its end, has `answerer` answer each, and writes the replies to `output` in order. A line
/// ends at byte 10 or at the end of the input; a last piece without byte 10 is a line where it has a byte. A line over
/// 1,048,576 bytes is read to its end and not kept; nor is the rest of a line once memory is refused for it. Each line
/// is answered only once `gate` lets it through. Where the gate is open, replies are gathered, and written and flushed
/// before the next read and before the call ends. Where it is not, each reply is written and flushed before the gate
/// hears about it.
///
/// Errors: `Read` where a read failed, an interrupted one too; `Write` where a write or a flush failed, or a write took
/// no byte; `TurnsSpent` where `turns.lines` lines were answered and a byte follows, where `turns.reads` reads
/// did not reach the end, or where the gate refused a line. After a fault the output holds a prefix of the replies'
/// text. After `Read` and `TurnsSpent` that is the reply to each line whose byte 10 was read, up to `turns.lines` lines
/// and before any that the gate refused. `Memory` never comes.
pub fn run_lines<R: Read, W: Write, A: Answerer, G: Gate>(
    alloc: Global,
    input: &mut Watched<R>,
    output: &mut Watched<W>,
    answerer: &mut A,
    gate: &G,
    turns: Turns,
) -> Result<Counts, ServeError>
    requires fresh { AreFresh input.old output.old }

    // A reply for each line, in order; after a fault a prefix of the replies.
    ensures outcome { IsOutcome (G.says gate.now) A.step answerer.old answerer.new turns
        (passage_of R.remaining W.contents input.old input.new output.old output.new) result }
    ensures faults { StreamFaults R.remaining turns input.new output.old output.new result }
    ensures memory { result ≢ Err ServeError.Memory }
{
    let mut server = LineServer::new(alloc, turns.lines);
    let mut chunk = [0u8; MAX_READ];
    for _turn in 0..turns.reads {
        let Ok(count) = input.read(&mut chunk) else {
            return Err(ServeError::Read);
        };
        if count == 0 {
            if !server.may_finish(gate) {
                return Err(ServeError::TurnsSpent);
            }
            server.finish(alloc, output, answerer, gate)?;
            return Ok(server.counts());
        }
        let rest = server.take_chunk(alloc, &chunk[..count], output, answerer, gate)?;
        if !rest.is_empty() {
            return Err(ServeError::TurnsSpent);
        }
    }
    Err(ServeError::TurnsSpent)
}
