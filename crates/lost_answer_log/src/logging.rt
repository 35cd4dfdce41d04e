//! Logs the answers of a worker.
ghost use Rattle.std.specs.Prelude.{◌≡◌, IfOk};
ghost use Rattle.lost_json.specs.Stream.{internal_error};
ghost use Rattle.lost_answer_log.specs.Answered.{IsAnswer};

use crate::batch::{Batch, LeftOut};
use crate::log_thread::AnswerLog;
use crossbeam_channel::TrySendError;
use lost_json::internal_error;
use lost_mapping::{Moment, Source};
use lost_worker::{Replied, Replier, SharedReplier};
use std::alloc::{AllocError, Global};
use std::mem;
use std::sync::Wait;
use std::thread::sleep;
use std::time::{Clock, Duration};

/// After how many bytes of lines a batch is handed over.
const FULL: usize = 65_536;

/// The most bytes of a batch that is handed over when it is full, for most lines.
const USUAL: usize = 69_632;

/// How many bytes of lines are kept while the writing thread takes none.
const MOST_KEPT: usize = 1_048_576;

/// How often to try at the end to hand the last lines over, and the milliseconds between: 2 seconds in all.
const LAST_TRIES: u32 = 100;

const PAUSE: u64 = 20;

/// A replier whose answers are logged. It replies as the other does.
#[derive(Drop)]
pub struct Logging<'p, 'r, P, R> {
    rt: &'r R,
    alloc: Global,
    replier: &'p mut P,
    log: AnswerLog,
    batch: Batch,
    /// How many lines were left out, and are not counted yet.
    left_out: u64,
    /// The number of the connection whose lines come.
    connection: u64,
}

impl<'p, 'r, P: Replier, R: Wait> Logging<'p, 'r, P, R> {
    /// This replier, logged here.
    pub fn of(
        rt: &'r R,
        alloc: Global,
        replier: &'p mut P,
        log: AnswerLog,
    ) -> Logging<'p, 'r, P, R> {
        Logging {
            rt,
            alloc,
            replier,
            log,
            batch: Batch::new(alloc),
            left_out: 0,
            connection: 0,
        }
    }

    /// Notes an answer, or that it is left out.
    fn note(&mut self, moment: &Moment, edition: u64, request: &[u8], replied: &Replied)
        requires reply { IfOk replied.now (λ reply. IsAnswer moment.now edition request.now reply.items) }
        requires error { IsAnswer moment.now edition request.now internal_error }
        ensures same { P.reader self.new.replier.now ≡ P.reader self.old.replier.now }
    {
        if self.batch.bytes.len() >= MOST_KEPT {
            self.leave_out(moment);
        } else if self.add(moment, edition, request, replied).is_err() {
            self.leave_out(moment);
        }
        if self.batch.bytes.len() >= FULL {
            self.hand_over();
        }
    }

    /// Adds an answer to the batch: a reply, or `internalError` where memory was refused for it.
    fn add(
        &mut self,
        moment: &Moment,
        edition: u64,
        request: &[u8],
        replied: &Replied,
    ) -> Result<(), AllocError>
        requires reply { IfOk replied.now (λ reply. IsAnswer moment.now edition request.now reply.items) }
        requires error { IsAnswer moment.now edition request.now internal_error }
        ensures same { P.reader self.new.replier.now ≡ P.reader self.old.replier.now }
    {
        let connection = self.connection;
        match replied {
            Ok(reply) => {
                self.batch
                    .add(moment, edition, connection, request, reply.as_slice())
            }
            Err(_) => {
                let error = internal_error();
                self.batch
                    .add(moment, edition, connection, request, error.bytes())
            }
        }
    }

    /// Leaves a line out.
    fn leave_out(&mut self, moment: &Moment)
        ensures same { P.reader self.new.replier.now ≡ P.reader self.old.replier.now }
    {
        self.batch.left_out = Some(LeftOut::and(self.batch.left_out, *moment));
        self.left_out = self.left_out.saturating_add(1);
    }

    /// Counts the lines that were left out.
    fn count_left_out(&mut self)
        ensures same { P.reader self.new.replier.now ≡ P.reader self.old.replier.now }
    {
        if self.left_out > 0 {
            self.log.counts.add_left_out(self.left_out);
            self.left_out = 0;
        }
    }

    /// Hands over what there is. If too much waits, it is kept. Says whether nothing is left.
    fn hand_over(&mut self) -> bool
        ensures same { P.reader self.new.replier.now ≡ P.reader self.old.replier.now }
    {
        if self.batch.is_empty() {
            return true;
        }
        let (lines, bytes) = (self.batch.lines.len(), self.batch.bytes.len());
        let batch = mem::replace(&mut self.batch, Batch::new(self.alloc));
        match self.log.batches.try_send(self.rt, batch) {
            Ok(()) => {
                // As many may come again.
                self.batch.make_room(lines, bytes.min(USUAL));
                true
            }
            Err(TrySendError::Full(batch)) => {
                self.batch = batch;
                false
            }
            Err(_) => true,
        }
    }
}

impl<P: Replier, R: Wait + Clock> Logging<'_, '_, P, R> {
    /// Hands over the last lines. It tries for 2 seconds at most, since the file may take none.
    pub fn finish(&mut self) {
        self.count_left_out();
        for _try in 0..LAST_TRIES {
            if self.hand_over() {
                return;
            }
            sleep(self.rt, Duration::from_millis(PAUSE));
        }
    }
}

impl<P: Replier, R: Wait> Replier for Logging<'_, '_, P, R> {
    ghost reader = { λ l. P.reader l.replier.now };

    fn reply_line(&mut self, alloc: Global, name: &Source, time: &Moment, line: &[u8]) -> Replied {
        let replied = self.replier.reply_line(alloc, name, time, line);
        let edition = self.replier.edition();
        self.note(time, edition, line, &replied);
        replied
    }

    fn edition(&self) -> u64 {
        self.replier.edition()
    }
}

impl<P: SharedReplier, R: Wait> SharedReplier for Logging<'_, '_, P, R> {
    fn turn_to(&mut self, connection: u64) {
        self.connection = connection;
        self.replier.turn_to(connection);
    }

    fn rest(&mut self) {
        self.count_left_out();
        self.hand_over();
        self.replier.rest();
    }
}
