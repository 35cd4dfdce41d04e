//! Judges the lines of a log.
ghost use Rattle.std.specs.Prelude.{◌≡◌, ◌≢◌, ◌==◌, ◌&&◌, [], IfOk};
ghost use Rattle.lost_audit.specs.Verdicts.{IsTold};

use crate::log_line::{Kept, LastDay, LogLine, Question, read_log_line};
use crate::reporting::report_text;
use crate::verdict::{Verdict, judge};
use crate::window::{MOST_LINES, Window};
use lost_answer_log::{reply_digest, without_end};
use lost_desk::Desk;
use lost_json::internal_error;
use lost_keeping::{Damage, RecoveryFault, Stopped, Walk};
use lost_mapping::Source;
use lost_tape::Scratch;
use sqlite_disk::Disk;
use std::alloc::{AllocError, Global};
use std::sync::Wait;

/// What an audit found.
#[derive(Clone, Copy, PartialEq, Eq, Debug)]
pub struct Findings {
    /// How many lines the log has.
    pub lines: u64,
    /// How many replies are not the ones that the journal's edits give.
    pub differ: u64,
    /// How many lines could not be judged.
    pub unjudged: u64,
    /// How many replies were `internalError`, which is never judged.
    pub internal_errors: u64,
    /// How many answers the log left out, as it says itself.
    pub left_out: u64,
    /// The last edition of the journal that was reached.
    pub edition: u64,
}

impl Findings {
    /// Nothing yet.
    pub(crate) fn none() -> Findings {
        Findings {
            lines: 0,
            differ: 0,
            unjudged: 0,
            internal_errors: 0,
            left_out: 0,
            edition: 0,
        }
    }

    /// Whether every reply was judged and is right.
    pub fn are_none(&self) -> bool
        ensures { result ≡ (self.now.differ == 0 && self.now.unjudged == 0) }
    {
        self.differ == 0 && self.unjudged == 0
    }
}

/// Judges the lines of a log over the books of a journal, edition by edition.
#[derive(Drop)]
pub(crate) struct Auditor<'a, R, D: Disk> {
    pub(crate) rt: &'a R,
    pub(crate) alloc: Global,
    pub(crate) name: &'a Source,
    pub(crate) desk: &'a mut Desk,
    pub(crate) walk: Walk<D>,
    pub(crate) window: Window,
    /// What the reading of requests works with.
    pub(crate) scratch: Scratch,
    /// The day of the last line.
    pub(crate) last_day: LastDay,
    pub(crate) found: Findings,
    /// What is to be told, and is not written yet.
    pub(crate) reports: Vec<u8>,
    /// Why the journal could not be read on.
    pub(crate) stopped: Option<Stopped>,
    /// Where the journal ended without a last commit. Nothing behind that is read.
    pub(crate) ran_out: Option<Stopped>,
}

impl<R: Wait, D: Disk + Drop> Auditor<'_, R, D> {
    /// Takes a line of the log, without its byte 10, and adds the report of what is judged then.
    pub(crate) fn take_line(&mut self, line: &[u8]) -> Result<(), AllocError> {
        let number = self.next_number();
        match read_log_line(self.alloc, line, &mut self.last_day)? {
            LogLine::Answer(question) => self.take_question(number, question)?,
            LogLine::LeftOut(lines) => {
                self.found.left_out = self.found.left_out.saturating_add(lines);
            }
            LogLine::Other => {
                let verdict = Verdict::Unjudged("it is no line of a log of answers");
                self.add_report(number, None, verdict)?;
            }
        }
        Ok(())
    }

    /// Takes the question of a line. It is judged at once if its edition has been reached, and else it waits.
    fn take_question(&mut self, number: u64, question: Question) -> Result<(), AllocError> {
        if question.edition <= self.desk.edition() {
            return self.judge(number, &question);
        }
        self.window.add(number, question)?;
        if self.window.is_full() {
            self.judge_next()?;
            self.judge_reached()?;
        }
        Ok(())
    }

    /// Judges the questions that wait and whose edition has been reached.
    fn judge_reached(&mut self) -> Result<(), AllocError> {
        for _question in 0..=MOST_LINES {
            match self.window.first_edition() {
                Some(edition) if edition <= self.desk.edition() => self.judge_next()?,
                _ => break,
            };
        }
        Ok(())
    }

    /// Takes a line of the log that is too long to be kept.
    pub(crate) fn take_long_line(&mut self) -> Result<(), AllocError> {
        let number = self.next_number();
        self.add_report(number, None, Verdict::Unjudged("it has more than 64 MiB"))
    }

    /// The number of the next line, from 1.
    fn next_number(&mut self) -> u64 {
        self.found.lines = self.found.lines.saturating_add(1);
        self.found.lines
    }

    /// Judges the question that is next in the window, and adds its report. Says whether one waited.
    pub(crate) fn judge_next(&mut self) -> Result<bool, AllocError> {
        match self.window.take() {
            Some((number, question)) => {
                self.judge(number, &question)?;
                Ok(true)
            }
            None => Ok(false),
        }
    }

    /// Judges the question of a line, and adds its report.
    fn judge(&mut self, number: u64, question: &Question) -> Result<(), AllocError> {
        self.reach(question.edition);
        if self.stopped.is_some() {
            return Ok(());
        }
        let verdict = self.verdict(question)?;
        self.add_report(number, Some(question), verdict)
    }

    /// Counts a verdict, and adds its report.
    fn add_report(
        &mut self,
        number: u64,
        question: Option<&Question>,
        verdict: Verdict,
    ) -> Result<(), AllocError> {
        let report = self.report(number, question, verdict)?;
        self.reports.extend_from_slice(report.as_slice())
    }

    /// Publishes the journal's edits until an edition is reached.
    fn reach(&mut self, edition: u64) {
        for _commit in self.rt.forever() {
            if self.desk.edition() >= edition || self.stopped.is_some() {
                break;
            }
            match self.walk.next_commit(self.rt, self.desk) {
                Ok(true) => {}
                Ok(false) => break,
                Err(stopped) => self.stop(stopped),
            }
        }
        self.found.edition = self.desk.edition();
    }

    /// Notes where the reading of the journal stopped.
    fn stop(&mut self, stopped: Stopped) {
        match stopped.fault {
            RecoveryFault::Damaged(Damage::NoEnd) => self.ran_out = Some(stopped),
            _ => self.stopped = Some(stopped),
        }
    }

    /// What a question comes to.
    fn verdict(&mut self, question: &Question) -> Result<Verdict, AllocError> {
        let published = self.desk.edition();
        if is_internal_error(&question.kept) {
            return Ok(Verdict::InternalError);
        }
        if published > question.edition {
            return Ok(Verdict::Unjudged(
                "its edition was passed: no commit made it, or the line comes too late (see --help)",
            ));
        }
        if published < question.edition {
            return Ok(Verdict::Unjudged("the journal has no such edition"));
        }
        judge(
            self.alloc,
            &mut self.scratch,
            self.desk,
            self.name,
            question,
        )
    }

    /// Counts a verdict, and gives its report, which is empty if there is nothing to tell.
    fn report(
        &mut self,
        number: u64,
        question: Option<&Question>,
        verdict: Verdict,
    ) -> Result<Vec<u8>, AllocError>
        ensures told { IfOk result (λ text. IsTold verdict → text.items ≢ []) }
    {
        self.count(&verdict);
        report_text(self.alloc, number, question, &verdict)
    }

    /// Counts a verdict.
    fn count(&mut self, verdict: &Verdict) {
        let found = &mut self.found;
        match verdict {
            Verdict::Right => {}
            Verdict::InternalError => {
                found.internal_errors = found.internal_errors.saturating_add(1);
            }
            Verdict::Differs(_) => found.differ = found.differ.saturating_add(1),
            Verdict::Unjudged(_) => found.unjudged = found.unjudged.saturating_add(1),
        }
    }
}

/// Whether what was kept of a reply is of `internalError`.
fn is_internal_error(kept: &Kept) -> bool {
    let error = internal_error();
    match kept {
        Kept::Whole(reply) => reply.as_slice() == error.bytes(),
        Kept::Digest(digest) => reply_digest(without_end(error.bytes())) == *digest,
        Kept::Nothing => false,
    }
}
