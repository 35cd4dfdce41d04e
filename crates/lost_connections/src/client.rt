//! A connection that is served as its bytes come.
ghost use Rattle.std.specs.Prelude.{◌≡◌, ◌+◌, ◌<◌, ◌≤◌, ◌||◌, true, false, ℕ, List, [], length, IfOk, OnErr, IfErr};
ghost use Rattle.std.specs.Io.KnownBytes.{Consumes};
ghost use Rattle.lost_worker.specs.Lines.{HasSeenMore};

use crate::answering::{answer, answer_last};
use crate::burst::{Burst, Progress};
use crate::deadlines::Shown;
use crate::faults::ClientFault;
use crate::noted::Noted;
use crate::replies::Replies;
use lost_mapping::Source;
use lost_worker::{Counts, Gate, Moments, Replier};
use std::alloc::Global;
use std::io::{Read, Write};

/// A client's connection: its input and output, the line that was begun, and its replies. No read or write may wait:
/// each fails with `ErrorKind::WouldBlock` instead.
#[derive(Drop)]
pub struct Client<I, O> {
    input: Noted<I>,
    output: Noted<O>,
    begun: Vec<u8>,
    replies: Replies,
    has_ended: bool,
    ghost none_begun: { has_ended ≡ true → begun.items ≡ [] },
}

/// The outcome of a read.
#[derive(Clone, Copy, PartialEq, Eq, Debug)]
pub(crate) enum Came {
    /// Nothing, for now.
    Nothing,
    /// Nothing, since too many replies wait.
    Held,
    /// This many bytes, at the front of the chunk.
    Bytes(usize),
    /// The end.
    End,
}

/// How much moved in a burst.
#[derive(Clone, Copy, PartialEq, Eq, Debug)]
pub(crate) struct Moved {
    /// How many bytes came.
    pub(crate) came: usize,
    /// How many bytes of replies were taken.
    pub(crate) taken: usize,
    /// How many lines were read to their ends.
    pub(crate) lines: u64,
}

impl<I: Read, O: Write> Client<I, O> {
    ghost use Rattle.lost_connections.specs.Worker.{worker};
    ghost use Rattle.lost_connections.specs.Begun.{IsBegun};
    ghost use Rattle.lost_connections.specs.Noted.{inner_of, has_failed};
    ghost use Rattle.lost_connections.specs.Bursts.{shown_by, is_held, rest_progress};
    ghost use Rattle.lost_connections.specs.Steady.{TakesIn, BreaksIn, Serves, Broken, TellsFaults, is_read_fault, is_write, SendsRest, SendsRestAs};
    ghost use Rattle.lost_connections.specs.Client.{connection_of, fresh, came_bytes, came_count, IsBrought, progress_after, KeepsRest};

    /// A connection from which nothing was read yet, and that may have at most this many lines.
    pub fn new(alloc: Global, input: I, output: O, most_lines: u64) -> Client<I, O>
        ensures { connection_of I.remaining O.contents result ≡ fresh (I.remaining input) (O.contents output) most_lines }
    {
        Client {
            input: Noted::new(input),
            output: Noted::new(output),
            begun: Vec::new(alloc),
            replies: Replies::new(alloc, most_lines),
            has_ended: false,
        }
    }

    /// The counts of the lines that were answered. The lines of a burst that ended in a fault while they were answered
    /// are not counted.
    pub fn counts(&self) -> Counts
        ensures counts { result ≡ (connection_of I.remaining O.contents self.now).replied.counts }
        ensures within { result.lines ≤ (connection_of I.remaining O.contents self.now).replied.most }
    {
        self.replies.counts()
    }

    /// The input, to be changed.
    pub fn input_mut(&mut self) -> &mut I {
        self.input.inner_mut()
    }

    /// The output.
    pub fn output(&self) -> &O
        ensures { O.contents result.now ≡ (connection_of I.remaining O.contents self.now).written }
    {
        self.output.inner()
    }

    /// Reads once, has `replier` answer the lines that are complete, each at the next moment of `moments`, and writes
    /// as much of the replies as the output takes. Bytes behind the last line's end are kept until the rest of their
    /// line comes. While 1,048,576 bytes of replies or more wait, nothing is read. Each line is answered only once
    /// `gate` let its number through: lines count from 1, over all bursts of the connection.
    ///
    /// # Errors
    ///
    /// [`ClientFault`]. No further burst may follow: a beginning of the replies is written. After
    /// [`ClientFault::Spent`] the replies that wait are whole, and [`Client::send_rest`] writes them.
    pub fn serve_burst<P: Replier, M: Moments, G: Gate>(
        &mut self,
        alloc: Global,
        chunk: &mut [u8],
        replier: &mut P,
        name: &Source,
        moments: &mut M,
        gate: &G,
    ) -> Result<Burst, ClientFault>
        requires room { 0 < length chunk.old }

        // Each line that has come is answered once, in order, from a list that begins with those seen before, and its
        // reply stands behind those that wait. The burst says what came, what was taken and whether more may come.
        ensures steady { IfOk result (Serves (G.says gate.now) name.now
            (worker (P.reader replier.old) (M.coming moments.old)) (worker (P.reader replier.new) (M.coming moments.new))
            (connection_of I.remaining O.contents self.old) (connection_of I.remaining O.contents self.new)) }
        ensures broken { IfErr result (Broken (G.says gate.now) name.now
            (worker (P.reader replier.old) (M.coming moments.old)) (worker (P.reader replier.new) (M.coming moments.new))
            (connection_of I.remaining O.contents self.old) (connection_of I.remaining O.contents self.new)) }
        ensures faults { TellsFaults (connection_of I.remaining O.contents self.old) (connection_of I.remaining O.contents self.new) result }
        ensures seen { HasSeenMore (P.reader replier.old) (P.reader replier.new) }
    {
        let lines = self.replies.counts().lines;
        let came = self.take_in(alloc, chunk, replier, name, moments, gate)?;
        let taken = self.send(alloc)?;
        let moved = Moved {
            came: came.count(),
            taken,
            lines: self.replies.counts().lines.saturating_sub(lines),
        };
        Ok(Burst {
            progress: self.progress(came),
            shown: self.shown(moved),
        })
    }

    /// Writes as much of the waiting replies as the output takes, and reads nothing: for a connection whose lines are
    /// spent. It is over once nothing waits.
    ///
    /// # Errors
    ///
    /// [`ClientFault::Write`] if a write failed.
    pub fn send_rest(&mut self, alloc: Global) -> Result<Burst, ClientFault>
        ensures rest { IfOk result (SendsRestAs (connection_of I.remaining O.contents self.old) (connection_of I.remaining O.contents self.new)) }
        ensures broken { OnErr result (SendsRest (connection_of I.remaining O.contents self.old) (connection_of I.remaining O.contents self.new)) }
        ensures faults { TellsFaults (connection_of I.remaining O.contents self.old) (connection_of I.remaining O.contents self.new) result }
    {
        let taken = self.send(alloc)?;
        let moved = Moved {
            came: 0,
            taken,
            lines: 0,
        };
        Ok(Burst {
            progress: self.rest_progress(),
            shown: self.shown(moved),
        })
    }

    /// Reads once, and has the complete lines answered.
    fn take_in<P: Replier, M: Moments, G: Gate>(
        &mut self,
        alloc: Global,
        chunk: &mut [u8],
        replier: &mut P,
        name: &Source,
        moments: &mut M,
        gate: &G,
    ) -> Result<Came, ClientFault>
        requires room { 0 < length chunk.old }
        ensures taken { (piece : List ℕ) → IsBegun self.old.begun.items piece → IfOk result (λ came. TakesIn (G.says gate.now) name.now
            (worker (P.reader replier.old) (M.coming moments.old)) (worker (P.reader replier.new) (M.coming moments.new))
            (connection_of I.remaining O.contents self.old) (connection_of I.remaining O.contents self.new) piece (came_count came)) }
        ensures broken { (piece : List ℕ) → IsBegun self.old.begun.items piece → IfErr result (BreaksIn (G.says gate.now) name.now
            (worker (P.reader replier.old) (M.coming moments.old)) (worker (P.reader replier.new) (M.coming moments.new))
            (connection_of I.remaining O.contents self.old) (connection_of I.remaining O.contents self.new) piece) }
        ensures brought { IfOk result (λ came. IsBrought came self.old.has_ended (is_held (connection_of I.remaining O.contents self.old))
            (I.remaining (inner_of self.new.input)) chunk.new) }
        ensures failed { has_failed self.new.input ≡ (has_failed self.old.input || is_read_fault result) }
        ensures only { IfErr result (λ fault. is_write fault ≡ false) }
        ensures output { self.new.output ≡ self.old.output }
        ensures seen { HasSeenMore (P.reader replier.old) (P.reader replier.new) }
    {
        let came = self.receive(chunk)?;
        match came {
            Came::Nothing | Came::Held => Ok(came),
            Came::Bytes(count) => {
                let bytes = &chunk[..count];
                let (begun, replies) = (&mut self.begun, &mut self.replies);
                answer(alloc, begun, replies, bytes, replier, name, moments, gate)?;
                Ok(came)
            }
            Came::End => {
                self.has_ended = true;
                let (begun, replies) = (&mut self.begun, &mut self.replies);
                answer_last(alloc, begun, replies, replier, name, moments, gate)?;
                Ok(came)
            }
        }
    }

    /// Reads once, unless the input has ended or too many replies wait.
    fn receive(&mut self, chunk: &mut [u8]) -> Result<Came, ClientFault>
        requires room { 0 < length chunk.old }
        ensures rest { KeepsRest self.old self.new }
        ensures read { IfOk result (λ came. Consumes (I.remaining (inner_of self.old.input)) (I.remaining (inner_of self.new.input))
            (came_bytes came chunk.new)) }
        ensures err { OnErr result (Consumes (I.remaining (inner_of self.old.input)) (I.remaining (inner_of self.new.input)) []) }
        ensures brought { IfOk result (λ came. IsBrought came self.old.has_ended (is_held (connection_of I.remaining O.contents self.old))
            (I.remaining (inner_of self.new.input)) chunk.new) }
        ensures ended { self.old.has_ended ≡ true → self.new.input ≡ self.old.input }
        ensures only { IfErr result (λ fault. fault ≡ ClientFault.Read) }
        ensures failed { has_failed self.new.input ≡ (has_failed self.old.input || is_read_fault result) }
    {
        if self.has_ended {
            return Ok(Came::Nothing);
        }
        if self.replies.are_held() {
            return Ok(Came::Held);
        }
        match self.input.read(chunk) {
            Ok(count) if count > 0 => Ok(Came::Bytes(count)),
            Ok(_) => Ok(Came::End),
            Err(_) if self.input.has_failed() => Err(ClientFault::Read),
            Err(_) => Ok(Came::Nothing),
        }
    }

    /// Writes as much of the replies as the output takes, and gives how many bytes it took.
    fn send(&mut self, alloc: Global) -> Result<usize, ClientFault>
        ensures rest { SendsRest (connection_of I.remaining O.contents self.old) (connection_of I.remaining O.contents self.new) }
        ensures count { IfOk result (λ count. count + length self.new.replies.unsent ≡ length self.old.replies.unsent) }
        ensures only { IfErr result (λ fault. fault ≡ ClientFault.Write) }
        ensures faults { TellsFaults (connection_of I.remaining O.contents self.old) (connection_of I.remaining O.contents self.new) result }
    {
        let waiting = self.replies.unsent_len();
        self.replies.send(alloc, &mut self.output);
        if self.output.has_failed() {
            return Err(ClientFault::Write);
        }
        Ok(waiting - self.replies.unsent_len())
    }

    /// The state of the connection after this outcome of a read.
    fn progress(&self, came: Came) -> Progress
        ensures { result ≡ progress_after came (connection_of I.remaining O.contents self.now) }
    {
        if self.has_ended && self.replies.are_taken() {
            Progress::Over
        } else if came.may_bring_more() && !self.replies.are_held() {
            Progress::More
        } else {
            Progress::Waits
        }
    }

    /// The state of a connection of which only the rest of the replies is sent.
    fn rest_progress(&self) -> Progress
        ensures { result ≡ rest_progress (connection_of I.remaining O.contents self.now) }
    {
        if self.replies.are_taken() {
            Progress::Over
        } else {
            Progress::Waits
        }
    }

    /// What a burst showed in which so much moved.
    fn shown(&self, moved: Moved) -> Shown
        ensures { result ≡ shown_by moved.came moved.taken moved.lines (connection_of I.remaining O.contents self.now) }
    {
        Shown {
            has_moved: moved.came > 0 || moved.taken > 0,
            has_taken: moved.taken > 0,
            has_ended_line: moved.lines > 0,
            has_begun: !self.begun.is_empty(),
            has_unsent: !self.replies.are_taken(),
            is_held: self.replies.are_held(),
        }
    }
}

impl Came {
    ghost use Rattle.lost_connections.specs.Client.{came_count, may_bring_more};

    /// How many bytes came.
    fn count(self) -> usize
        ensures { result ≡ came_count self }
    {
        match self {
            Came::Bytes(count) => count,
            Came::Nothing | Came::Held | Came::End => 0,
        }
    }

    /// Whether more may come at once.
    fn may_bring_more(self) -> bool
        ensures { result ≡ may_bring_more self }
    {
        matches!(self, Came::Bytes(_) | Came::Held)
    }
}
