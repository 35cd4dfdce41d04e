//! Serves the lines of a stream, as its bytes come.
ghost use Rattle.std.specs.Prelude.{◌≡◌, ◌<◌, ◌≤◌, ◌+◌, true, false, List, ℕ, [], ◌∷◌, length, Some, IfOk, OnOk, OnErr, IsTrue};
ghost use Rattle.memchr.specs.Find.{IsFirstByte, is_byte};
ghost use Rattle.lost_lines.specs.Cutter.{IsHolding, count_of, was_refused};
ghost use Rattle.lost_lines.specs.Cutting.{newline, piece_lines};
ghost use Rattle.lost_lines.specs.Gate.{Through};
ghost use Rattle.lost_lines.specs.Sending.{SetsFlag};
ghost use Rattle.lost_lines.specs.Serving.{cutter_of, gathered_of, server_counts, server_most, point_of, MayEnd, Serves, Breaks, Fails, TakesFront, TakesUpTo};
ghost use Rattle.lost_lines.specs.Watched.{inner_of, is_unflushed};

use crate::answerer::Answerer;
use crate::counts::Counts;
use crate::cutter::Cutter;
use crate::fault::ServeError;
use crate::gate::Gate;
use crate::output::{pass_on, settle};
use crate::tally::Tally;
use crate::watched::Watched;
use memchr::memchr;
use std::alloc::Global;
use std::io::Write;

/// The state of a stream while its lines are served: the line being read, the replies gathered, and the counts.
#[derive(Drop)]
pub(crate) struct LineServer {
    cutter: Cutter,
    gathered: Vec<u8>,
    tally: Tally,
}

impl LineServer {
    pub(crate) fn new(alloc: Global, most: u64) -> LineServer
        ensures cutter { IsHolding (cutter_of result) [] }
        ensures unrefused { was_refused (cutter_of result) ≡ false }
        ensures gathered { gathered_of result ≡ [] }
        ensures counts { server_counts result
            ≡ record { lines = 0; long_lines = 0; memory = 0; faults = 0 } }
        ensures most { server_most result ≡ most }
    {
        LineServer {
            cutter: Cutter::new(alloc),
            gathered: Vec::new(alloc),
            tally: Tally::new(most),
        }
    }

    pub(crate) fn counts(&self) -> Counts
        ensures counts { result ≡ server_counts self.now }
        ensures within { result.lines ≤ server_most self.now }
    {
        self.tally.counts()
    }

    /// Takes the bytes of a chunk, and sends the replies to the lines that they end. Gives back the rest where no
    /// further line may be answered, or where the gate refuses the next.
    pub(crate) fn take_chunk<'c, W: Write, A: Answerer, G: Gate>(
        &mut self,
        alloc: Global,
        chunk: &'c [u8],
        output: &mut Watched<W>,
        answerer: &mut A,
        gate: &G,
    ) -> Result<&'c [u8], ServeError>
        requires { MayEnd self.old }
        ensures ok { IfOk result (λ rest. TakesUpTo (G.says gate.now) (Through (G.says gate.now) A.step)
            (point_of answerer.old (W.contents (inner_of output.old)) self.old)
            (point_of answerer.new (W.contents (inner_of output.new)) self.new) chunk.now rest.now) }
        ensures settled { OnOk result (gathered_of self.new ≡ []) }
        ensures flushed { OnOk result (is_unflushed output.new ≡ false) }
        ensures may_end { OnOk result (MayEnd self.new) }
        ensures err { OnErr result (Fails (Through (G.says gate.now) A.step)
            (point_of answerer.old (W.contents (inner_of output.old)) self.old)
            (point_of answerer.new (W.contents (inner_of output.new)) self.new) chunk.now) }
        ensures most { server_most self.new ≡ server_most self.old }
        ensures flag { SetsFlag output.old output.new result }
    {
        let rest = self.take_lines(alloc, chunk, output, answerer, gate)?;
        settle(&mut self.gathered, output)?;
        Ok(rest)
    }

    /// Takes the bytes of a chunk as `take_chunk` does, but gathers the replies.
    fn take_lines<'c, W: Write, A: Answerer, G: Gate>(
        &mut self,
        alloc: Global,
        chunk: &'c [u8],
        output: &mut Watched<W>,
        answerer: &mut A,
        gate: &G,
    ) -> Result<&'c [u8], ServeError>
        requires { MayEnd self.old }
        ensures ok { IfOk result (λ rest. TakesUpTo (G.says gate.now) (Through (G.says gate.now) A.step)
            (point_of answerer.old (W.contents (inner_of output.old)) self.old)
            (point_of answerer.new (W.contents (inner_of output.new)) self.new) chunk.now rest.now) }
        ensures may_end { OnOk result (MayEnd self.new) }
        ensures err { OnErr result (Fails (Through (G.says gate.now) A.step)
            (point_of answerer.old (W.contents (inner_of output.old)) self.old)
            (point_of answerer.new (W.contents (inner_of output.new)) self.new) chunk.now) }
        ensures most { server_most self.new ≡ server_most self.old }
        ensures flag { SetsFlag output.old output.new result }
    {
        let mut rest = chunk;
        while !rest.is_empty() {
            if self.tally.is_spent() {
                return Ok(rest);
            }
            let Some(end) = memchr(b'\n', rest) else {
                self.cutter.take(rest);
                return Ok(&rest[rest.len()..]);
            };
            if !gate.before_reply(self.tally.next()) {
                return Ok(rest);
            }
            rest = self.take_line(alloc, rest, end, output, answerer, gate)?;
        }
        Ok(rest)
    }

    /// Takes the bytes up to their first byte 10, at `end`, and answers that line. Gives the bytes after it.
    fn take_line<'c, W: Write, A: Answerer, G: Gate>(
        &mut self,
        alloc: Global,
        bytes: &'c [u8],
        end: usize,
        output: &mut Watched<W>,
        answerer: &mut A,
        gate: &G,
    ) -> Result<&'c [u8], ServeError>
        requires first { IsFirstByte (is_byte newline) bytes.now (Some end) }
        requires room { (server_counts self.old).lines < server_most self.old }
        requires let_through { G.says gate.now ((server_counts self.old).lines + 1) true }
        ensures ok { IfOk result (λ rest. TakesFront (Through (G.says gate.now) A.step)
            (point_of answerer.old (W.contents (inner_of output.old)) self.old)
            (point_of answerer.new (W.contents (inner_of output.new)) self.new) bytes.now rest.now) }
        ensures less { IfOk result (λ rest. length rest.now < length bytes.now) }
        ensures may_end { OnOk result (MayEnd self.new) }
        ensures err { OnErr result (Fails (Through (G.says gate.now) A.step)
            (point_of answerer.old (W.contents (inner_of output.old)) self.old)
            (point_of answerer.new (W.contents (inner_of output.new)) self.new) bytes.now) }
        ensures most { server_most self.new ≡ server_most self.old }
        ensures flag { SetsFlag output.old output.new result }
    {
        self.cutter.take(&bytes[..end]);
        self.end_line(alloc, output, answerer, gate)?;
        Ok(&bytes[end + 1..])
    }

    /// Whether the input may end here: no line is begun, or the gate lets it through.
    pub(crate) fn may_finish<G: Gate>(&self, gate: &G) -> bool
        requires { MayEnd self.now }
        ensures let_through { IsTrue result → 0 < count_of (cutter_of self.now) → G.says gate.now ((server_counts self.now).lines + 1) true }
        ensures begun { result ≡ false → 0 < count_of (cutter_of self.now) }
        ensures refused { result ≡ false → G.says gate.now ((server_counts self.now).lines + 1) false }
    {
        self.cutter.is_empty() || gate.before_reply(self.tally.next())
    }

    /// Answers the last line where the input ended in one, and sends the replies.
    pub(crate) fn finish<W: Write, A: Answerer, G: Gate>(
        &mut self,
        alloc: Global,
        output: &mut Watched<W>,
        answerer: &mut A,
        gate: &G,
    ) -> Result<(), ServeError>
        requires may_end { MayEnd self.old }
        requires let_through { 0 < count_of (cutter_of self.old) → G.says gate.now ((server_counts self.old).lines + 1) true }
        ensures ok { (piece : List ℕ) → IsHolding (cutter_of self.old) piece
            → OnOk result (Serves (Through (G.says gate.now) A.step)
            (point_of answerer.old (W.contents (inner_of output.old)) self.old)
            (point_of answerer.new (W.contents (inner_of output.new)) self.new) (piece_lines piece)) }
        ensures settled { OnOk result (gathered_of self.new ≡ []) }
        ensures flushed { OnOk result (is_unflushed output.new ≡ false) }
        ensures err { (piece : List ℕ) → IsHolding (cutter_of self.old) piece
            → OnErr result (Breaks (Through (G.says gate.now) A.step)
            (point_of answerer.old (W.contents (inner_of output.old)) self.old)
            (point_of answerer.new (W.contents (inner_of output.new)) self.new) (piece_lines piece)) }
        ensures most { server_most self.new ≡ server_most self.old }
        ensures flag { SetsFlag output.old output.new result }
    {
        self.end_last_line(alloc, output, answerer, gate)?;
        settle(&mut self.gathered, output)
    }

    /// Answers the last line where the input ended in one.
    fn end_last_line<W: Write, A: Answerer, G: Gate>(
        &mut self,
        alloc: Global,
        output: &mut Watched<W>,
        answerer: &mut A,
        gate: &G,
    ) -> Result<(), ServeError>
        requires may_end { MayEnd self.old }
        requires let_through { 0 < count_of (cutter_of self.old) → G.says gate.now ((server_counts self.old).lines + 1) true }
        ensures ok { (piece : List ℕ) → IsHolding (cutter_of self.old) piece
            → OnOk result (Serves (Through (G.says gate.now) A.step)
            (point_of answerer.old (W.contents (inner_of output.old)) self.old)
            (point_of answerer.new (W.contents (inner_of output.new)) self.new) (piece_lines piece)) }
        ensures err { (piece : List ℕ) → IsHolding (cutter_of self.old) piece
            → OnErr result (Breaks (Through (G.says gate.now) A.step)
            (point_of answerer.old (W.contents (inner_of output.old)) self.old)
            (point_of answerer.new (W.contents (inner_of output.new)) self.new) (piece_lines piece)) }
        ensures most { server_most self.new ≡ server_most self.old }
        ensures flag { SetsFlag output.old output.new result }
    {
        if self.cutter.is_empty() {
            return Ok(());
        }
        self.end_line(alloc, output, answerer, gate)
    }

    /// Answers the line that was read.
    fn end_line<W: Write, A: Answerer, G: Gate>(
        &mut self,
        alloc: Global,
        output: &mut Watched<W>,
        answerer: &mut A,
        gate: &G,
    ) -> Result<(), ServeError>
        requires room { (server_counts self.old).lines < server_most self.old }
        requires let_through { G.says gate.now ((server_counts self.old).lines + 1) true }
        ensures ok { (piece : List ℕ) → IsHolding (cutter_of self.old) piece
            → OnOk result (Serves (Through (G.says gate.now) A.step)
            (point_of answerer.old (W.contents (inner_of output.old)) self.old)
            (point_of answerer.new (W.contents (inner_of output.new)) self.new) (piece ∷ [])) }
        ensures err { (piece : List ℕ) → IsHolding (cutter_of self.old) piece
            → OnErr result (Breaks (Through (G.says gate.now) A.step)
            (point_of answerer.old (W.contents (inner_of output.old)) self.old)
            (point_of answerer.new (W.contents (inner_of output.new)) self.new) (piece ∷ [])) }
        ensures cutter { IsHolding (cutter_of self.new) [] }
        ensures unrefused { was_refused (cutter_of self.new) ≡ false }
        ensures most { server_most self.new ≡ server_most self.old }
        ensures flag { SetsFlag output.old output.new result }
    {
        let answer = self.cutter.answer(alloc, answerer);
        self.tally
            .count(self.cutter.is_long(), answer.is_internal_error);
        self.cutter.clear();
        pass_on(&mut self.gathered, output, answer.bytes(), G::IS_OPEN)?;
        gate.after_reply(self.tally.counts().lines);
        Ok(())
    }
}
