//! A thread that writes lines to standard error, so that nobody else waits for it.
use crossbeam_channel::{Receiver, Sender, bounded};
use std::alloc::{AllocError, Global};
use std::io::Eprint;
use std::sync::atomic::{AtomicBool, AtomicU64, Ordering};
use std::sync::{Arc, Wait};
use std::thread;
use std::thread::{JoinHandle, Threads, sleep};
use std::time::{Clock, Duration};

/// The most lines that may wait for standard error.
const MOST_WAITING: usize = 256;

/// How often to check at the end whether all lines are written, and the milliseconds between: 5 seconds in all.
const LAST_LOOKS: u32 = 250;

const PAUSE: u64 = 20;

/// Takes the lines to be written.
#[derive(Drop)]
pub struct LogSender {
    lines: Sender<String>,
    left_out: Arc<AtomicU64>,
}

/// The thread that writes lines.
#[derive(Drop)]
pub struct LogWriter {
    thread: JoinHandle<()>,
    has_ended: Arc<AtomicBool>,
}

/// The thread's state.
#[derive(Drop)]
struct Writing {
    alloc: Global,
    lines: Receiver<String>,
    left_out: Arc<AtomicU64>,
    has_ended: Arc<AtomicBool>,
}

/// Starts a thread that writes lines to the standard error of `rt`.
///
/// # Errors
///
/// If memory or a thread is refused.
pub fn start_log<R: Threads + Wait + Eprint + Clone + Send + Drop + 'static>(
    rt: &R,
    alloc: Global,
) -> Result<(LogSender, LogWriter), AllocError> {
    let (sender, lines) = bounded(alloc, MOST_WAITING)?;
    let Ok(left_out) = Arc::new(alloc, AtomicU64::new(0)) else {
        return Err(AllocError);
    };
    let Ok(has_ended) = Arc::new(alloc, AtomicBool::new(false)) else {
        return Err(AllocError);
    };
    let writing = Writing {
        alloc,
        lines,
        left_out: Arc::try_clone(&left_out)?,
        has_ended: Arc::try_clone(&has_ended)?,
    };
    let own = rt.clone()?;
    let Ok(thread) = thread::spawn(rt, move || writing.write_all(&own)) else {
        return Err(AllocError);
    };
    let log = LogSender {
        lines: sender,
        left_out,
    };
    Ok((log, LogWriter { thread, has_ended }))
}

impl LogSender {
    /// Queues a line to be written. If too many wait, it is left out and counted.
    pub fn send<R: Wait>(&self, rt: &R, line: String) {
        if self.lines.try_send(rt, line).is_err() {
            self.left_out.fetch_add(1, Ordering::SeqCst);
        }
    }
}

impl Writing {
    /// Writes each line that is given, until no more can come.
    fn write_all<R: Wait + Eprint>(&self, rt: &R) {
        for _ in rt.forever() {
            let Ok(line) = self.lines.recv(rt) else {
                break;
            };
            // If standard error fails, the line is lost.
            let _said = rt.eprint(line.as_str());
            self.write_left_out(rt);
        }
        self.has_ended.store(true, Ordering::SeqCst);
    }

    /// Writes how many lines were left out since the last such report, if any were.
    fn write_left_out<R: Eprint>(&self, rt: &R) {
        let count = self.left_out.swap(0, Ordering::SeqCst);
        if count > 0
            && let Ok(line) = left_out_line(self.alloc, count)
        {
            let _said = rt.eprint(line.as_str());
        }
    }
}

impl LogWriter {
    /// Waits until all lines are written. Nobody can give any more by then. It waits for 5 seconds at most, since
    /// standard error may take none.
    pub fn finish<R: Threads + Wait + Clock>(self, rt: &R) {
        let LogWriter { thread, has_ended } = self;
        for _ in 0..LAST_LOOKS {
            if has_ended.load(Ordering::SeqCst) {
                thread.join(rt);
                return;
            }
            sleep(rt, Duration::from_millis(PAUSE));
        }
    }
}

/// The report of left-out lines.
fn left_out_line(alloc: Global, count: u64) -> Result<String, AllocError> {
    format!(in alloc;
        "lostd: {count} lines were left out here: nothing read standard error in time\n"
    )
}
