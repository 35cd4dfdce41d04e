//! The replies of a connection.
ghost use Rattle.std.specs.Prelude.{◌≡◌, ◌+◌, ◌≤◌, true, [], ◌==◌, length, nat_le, OnOk, IfErr};
ghost use Rattle.lost_lines.specs.Cutting.{lines_of};
ghost use Rattle.lost_worker.specs.Lines.{HasSeenMore};

use crate::faults::ClientFault;
use crate::noted::Noted;
use crate::onward::Onward;
use crate::unsent::Unsent;
use lost_mapping::Source;
use lost_worker::{Counts, Gate, Moments, Replier, ServeError, Turns, Watched, serve_lines};
use std::alloc::Global;
use std::io::Write;
use std::mem::replace;

/// Once this many bytes of replies wait, no further lines are read.
const MOST_UNSENT: usize = 1_048_576;

/// The replies of a connection that wait, the counts of the lines that were answered, and how many lines there may be.
#[derive(Drop)]
pub(crate) struct Replies {
    unsent: Unsent,
    counts: Counts,
    most_lines: u64,
    ghost within: { counts.lines ≤ most_lines },
    ghost few_long: { counts.long_lines ≤ counts.lines },
    ghost few_unread: { counts.memory ≤ counts.lines },
    ghost no_faults: { counts.faults ≡ 0 },
}

impl Replies {
    ghost use Rattle.lost_connections.specs.Worker.{worker};
    ghost use Rattle.lost_connections.specs.Noted.{inner_of, has_failed};
    ghost use Rattle.lost_connections.specs.Sent.{Sent};
    ghost use Rattle.lost_connections.specs.Replies.{no_counts, sum_of, AnswersAll, AnswersFront, IsAnswering, most_unsent};
    ghost use Rattle.lost_connections.specs.Parts.{replied_of};

    /// No replies to at most this many lines.
    pub(crate) fn new(alloc: Global, most_lines: u64) -> Replies
        ensures { replied_of result ≡ record { unsent = []; counts = no_counts; most = most_lines } }
    {
        Replies {
            unsent: Unsent::new(alloc),
            counts: Counts::default(),
            most_lines,
        }
    }

    /// The counts of the lines that were answered.
    pub(crate) fn counts(&self) -> Counts
        ensures counts { result ≡ (replied_of self.now).counts }
        ensures within { result.lines ≤ (replied_of self.now).most }
        ensures no_faults { result.faults ≡ 0 }
    {
        self.counts
    }

    /// How many bytes wait.
    pub(crate) fn unsent_len(&self) -> usize
        ensures { result ≡ length (replied_of self.now).unsent }
    {
        self.unsent.len()
    }

    /// Whether none waits.
    pub(crate) fn are_taken(&self) -> bool
        ensures { result ≡ (length (replied_of self.now).unsent == 0) }
    {
        self.unsent.is_empty()
    }

    /// Whether so many bytes wait that no further lines are read.
    pub(crate) fn are_held(&self) -> bool
        ensures { result ≡ nat_le most_unsent (length (replied_of self.now).unsent) }
    {
        self.unsent.len() >= MOST_UNSENT
    }

    /// Writes as much of what waits as the output takes at once. A write that fails sets the output's flag.
    pub(crate) fn send<O: Write>(&mut self, alloc: Global, output: &mut Noted<O>)
        ensures sent { Sent (O.contents (inner_of output.old)) (O.contents (inner_of output.new))
            (replied_of self.old).unsent (replied_of self.new).unsent }
        ensures counts { (replied_of self.new).counts ≡ (replied_of self.old).counts }
        ensures most { (replied_of self.new).most ≡ (replied_of self.old).most }
        ensures flag { has_failed output.old ≡ true → has_failed output.new ≡ true }
    {
        self.unsent.send(alloc, output);
    }

    /// Counts lines that were answered.
    fn count(&mut self, counts: Counts)
        requires within { (replied_of self.old).counts.lines + counts.lines ≤ (replied_of self.old).most }
        requires few_long { counts.long_lines ≤ counts.lines }
        requires few_unread { counts.memory ≤ counts.lines }
        ensures counts { (replied_of self.new).counts ≡ sum_of (replied_of self.old).counts counts }
        ensures unsent { (replied_of self.new).unsent ≡ (replied_of self.old).unsent }
        ensures most { (replied_of self.new).most ≡ (replied_of self.old).most }
    {
        let Counts {
            lines,
            long_lines,
            memory,
            faults: _,
        } = counts;
        self.counts.lines += lines;
        self.counts.long_lines += long_lines;
        self.counts.memory += memory;
    }

    /// Has the lines of a text answered, and puts the replies behind those that wait.
    pub(crate) fn answer_text<P: Replier, M: Moments, G: Gate>(
        &mut self,
        alloc: Global,
        text: &[u8],
        replier: &mut P,
        name: &Source,
        moments: &mut M,
        gate: &G,
    ) -> Result<(), ClientFault>
        ensures answers { OnOk result (AnswersAll (G.says gate.now) name.now
            (worker (P.reader replier.old) (M.coming moments.old)) (worker (P.reader replier.new) (M.coming moments.new))
            (lines_of text.now) (replied_of self.old) (replied_of self.new)) }
        ensures front { IfErr result (AnswersFront (G.says gate.now) name.now
            (worker (P.reader replier.old) (M.coming moments.old)) (worker (P.reader replier.new) (M.coming moments.new))
            (lines_of text.now) (replied_of self.old) (replied_of self.new)) }
        ensures cause { IfErr result IsAnswering }
        ensures seen { HasSeenMore (P.reader replier.old) (P.reader replier.new) }
    {
        let mut input = Watched::new(text);
        let mut output = Watched::new(replace(&mut self.unsent, Unsent::new(alloc)));
        let turns = Turns {
            lines: self.most_lines - self.counts.lines,
            reads: Turns::USUAL.reads,
        };
        let onward = Onward {
            gate,
            before: self.counts.lines,
        };
        let served = serve_lines(
            alloc,
            &mut input,
            &mut output,
            replier,
            name,
            moments,
            &onward,
            turns,
        );
        self.unsent = output.into_inner();
        match served {
            Ok(counts) => {
                self.count(counts);
                Ok(())
            }
            Err(ServeError::TurnsSpent) if input.reads() < turns.reads => Err(ClientFault::Spent),
            // A write fails only if memory is refused, and no burst needs as many reads as the turns allow.
            Err(_) => Err(ClientFault::Memory),
        }
    }
}
