//! The thread that writes the log of answers.
use crate::batch::{Batch, LeftOut, Noted};
use crate::line_text::{KeptReply, LineWriter};
use crate::log_file::{LogFile, OpenLog};
use crossbeam_channel::{Receiver, Sender, TryRecvError, bounded};
use lost_status::LogCounts;
use std::alloc::{AllocError, Global};
use std::sync::atomic::{AtomicBool, Ordering};
use std::sync::{Arc, Wait};
use std::thread::{JoinHandle, Threads, sleep};
use std::time::{Clock, Duration};
use std::{io, thread};

/// The most batches that may wait for the file.
const MOST_WAITING: usize = 64;

/// How often to check at the end whether all lines are written, and the milliseconds between: 5 seconds in all.
const LAST_LOOKS: u32 = 250;

const PAUSE: u64 = 20;

/// How long to wait for the next batch, in milliseconds: twice as long each time that none has come.
const SHORTEST_WAIT: u64 = 1;

const LONGEST_WAIT: u64 = 4;

/// The most bytes of room that stay for the text of the next batch.
const MOST_ROOM: usize = 1_048_576;

/// How often to look where the path of the log leads, in seconds, while lines come.
const LOOK: u64 = 1;

/// Why a log was not begun.
#[derive(Clone, Copy, Debug)]
pub enum LogFault {
    /// Its file could not be opened.
    Unopened(io::Error),
    /// Memory or a thread was refused.
    Memory,
}

impl From<AllocError> for LogFault {
    fn from(_error: AllocError) -> LogFault {
        LogFault::Memory
    }
}

/// Where a worker hands its lines over.
#[derive(Drop)]
pub struct AnswerLog {
    pub(crate) batches: Sender<Batch>,
    pub(crate) counts: Arc<LogCounts>,
}

impl AnswerLog {
    /// The same for another worker.
    ///
    /// # Errors
    ///
    /// If memory is refused.
    pub fn for_another(&self) -> Result<AnswerLog, AllocError> {
        Ok(AnswerLog {
            batches: self.batches.clone()?,
            counts: Arc::try_clone(&self.counts)?,
        })
    }
}

/// The thread that writes the log.
#[derive(Drop)]
pub struct AnswerLogWriter {
    thread: JoinHandle<()>,
    has_ended: Arc<AtomicBool>,
}

/// The thread's state.
#[derive(Drop)]
struct Writing {
    alloc: Global,
    path: String,
    file: LogFile,
    /// When the file was opened, by the monotonic clock.
    opened: Duration,
    /// The lines that are written.
    text: Vec<u8>,
    writer: LineWriter,
    batches: Receiver<Batch>,
    counts: Arc<LogCounts>,
    /// The lines that the file did not take.
    left_out: Option<LeftOut>,
    has_ended: Arc<AtomicBool>,
}

/// A log that was begun: where lines are handed over, what writes them, and how many bytes of a line that was not ended
/// were cut off its file.
#[derive(Drop)]
pub struct Begun {
    pub log: AnswerLog,
    pub writer: AnswerLogWriter,
    pub cut: u64,
}

/// Opens the file at a path, and starts a thread that writes lines to it. They keep this of their replies.
///
/// # Errors
///
/// [`LogFault`].
pub fn start_answer_log<R: Threads + Wait + Clock + OpenLog + Clone + Send + Drop + 'static>(
    rt: &R,
    alloc: Global,
    path: &str,
    kept: KeptReply,
    counts: Arc<LogCounts>,
) -> Result<Begun, LogFault> {
    let mut file = match rt.open_log(path) {
        Ok(file) => file,
        Err(error) => return Err(LogFault::Unopened(error)),
    };
    let cut = match file.begin_line(alloc) {
        Ok(cut) => cut,
        Err(error) => return Err(LogFault::Unopened(error)),
    };
    let (sender, batches) = bounded(alloc, MOST_WAITING)?;
    let Ok(has_ended) = Arc::new(alloc, AtomicBool::new(false)) else {
        return Err(LogFault::Memory);
    };
    let mut writing = Writing {
        alloc,
        path: String::from_str(alloc, path)?,
        file,
        opened: now(rt, Duration::ZERO),
        text: Vec::new(alloc),
        writer: LineWriter::new(alloc, kept)?,
        batches,
        counts: Arc::try_clone(&counts)?,
        left_out: None,
        has_ended: Arc::try_clone(&has_ended)?,
    };
    let own = rt.clone()?;
    let Ok(thread) = thread::spawn(rt, move || writing.write_all(&own)) else {
        return Err(LogFault::Memory);
    };
    Ok(Begun {
        log: AnswerLog {
            batches: sender,
            counts,
        },
        writer: AnswerLogWriter { thread, has_ended },
        cut,
    })
}

/// The time by the monotonic clock; `before` if it cannot be read.
fn now<R: Clock>(rt: &R, before: Duration) -> Duration {
    rt.monotonic().unwrap_or(before)
}

impl Writing {
    /// Writes each batch that is handed over, until no more can come. It looks whether one has come, and is not woken for
    /// it, which would take a worker longer than an answer.
    fn write_all<R: Wait + Clock + OpenLog>(&mut self, rt: &R) {
        let mut wait = SHORTEST_WAIT;
        for _look in rt.forever() {
            match self.batches.try_recv(rt) {
                Ok(batch) => {
                    self.open_anew(rt);
                    self.write(&batch);
                    wait = SHORTEST_WAIT;
                }
                Err(TryRecvError::Empty) => {
                    sleep(rt, Duration::from_millis(wait));
                    wait = wait.saturating_mul(2).min(LONGEST_WAIT);
                }
                Err(_) => break,
            }
        }
        self.has_ended.store(true, Ordering::SeqCst);
    }

    /// Opens the file anew if that was not done for a second, since its path may lead to another one by now. Where that
    /// fails, the one that is open is kept.
    fn open_anew<R: Clock + OpenLog>(&mut self, rt: &R) {
        let now = now(rt, self.opened);
        if now.saturating_sub(self.opened) < Duration::from_secs(LOOK) {
            return;
        }
        self.opened = now;
        if let Ok(file) = rt.open_log(self.path.as_str()) {
            self.file = file;
        }
    }

    /// Writes a batch. What the file does not take is left out, and counted.
    fn write(&mut self, batch: &Batch) {
        let lines = batch.lines.len() as u64;
        self.clear_text();
        if self.make_text(batch).is_ok() && self.file.add(self.text.as_slice()).is_ok() {
            self.left_out = None;
            self.counts.add_written(lines);
        } else {
            self.leave_out(batch);
            self.counts.add_left_out(lines);
        }
    }

    /// Takes the lines away that were written, and their room where it is much.
    fn clear_text(&mut self) {
        if self.text.capacity() > MOST_ROOM {
            self.text = Vec::new(self.alloc);
        }
        self.text.clear();
    }

    /// Makes the lines of a batch, behind those that say what was left out.
    fn make_text(&mut self, batch: &Batch) -> Result<(), AllocError> {
        if let Some(left_out) = &self.left_out {
            self.writer.push_left_out(&mut self.text, left_out)?;
        }
        if let Some(left_out) = &batch.left_out {
            self.writer.push_left_out(&mut self.text, left_out)?;
        }
        let mut rest = batch.bytes.as_slice();
        for line in batch.lines.iter() {
            rest = self.push_answer(line, rest)?;
        }
        Ok(())
    }

    /// Makes the line of an answer, whose bytes come first, and gives the others.
    fn push_answer<'b>(&mut self, line: &Noted, bytes: &'b [u8]) -> Result<&'b [u8], AllocError> {
        let (request, rest) = bytes.split_at(line.request.min(bytes.len()));
        let (reply, rest) = rest.split_at(line.reply.min(rest.len()));
        self.writer.push_line(&mut self.text, line, request, reply)?;
        Ok(rest)
    }

    /// Notes that the lines of a batch were left out, and those that were before them.
    fn leave_out(&mut self, batch: &Batch) {
        if let Some(more) = batch.left_out {
            self.left_out = Some(more.behind(self.left_out));
        }
        for line in batch.lines.iter() {
            self.left_out = Some(LeftOut::and(self.left_out, line.moment));
        }
    }
}

impl AnswerLogWriter {
    /// Waits until all lines are written. Nobody can hand over any more by then. It waits for 5 seconds at most, since
    /// the file may take none.
    pub fn finish<R: Threads + Wait + Clock>(self, rt: &R) {
        let AnswerLogWriter { thread, has_ended } = self;
        for _look in 0..LAST_LOOKS {
            if has_ended.load(Ordering::SeqCst) {
                thread.join(rt);
                return;
            }
            sleep(rt, Duration::from_millis(PAUSE));
        }
    }
}
