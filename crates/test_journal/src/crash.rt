//! What a crash makes of the changes since the last flush: each range that was written may hold any bytes, the file may
//! have any length between the old and the new one, and changes may be lost, whatever came before or behind them.
use crate::content::put;
use crate::record::{Record, Step, Written};
use std::alloc::AllocError;

/// What a crash makes of all changes since the last flush.
#[derive(Clone, Copy, PartialEq, Eq, Debug)]
pub(crate) enum Crash {
    /// All is done, as where the process alone dies.
    Done,
    /// All is lost.
    Lost,
    /// The last change is lost, and those before it are done.
    LastLost,
    /// The last change is done, and those before it are lost.
    LastAlone,
    /// The first, third, fifth change is lost, and each other one is done.
    EachOther,
    /// The first half of each change is done.
    Fronts,
    /// The second half of each change is done.
    Backs,
    /// Each range holds what begins like a commit, and a single byte one that nobody wrote.
    Others,
    /// All is done, but the commit that was written last has an open gate.
    Opened,
}

/// What becomes of one change.
#[derive(Clone, Copy, PartialEq, Eq, Debug)]
enum Fate {
    Done,
    Lost,
    Front,
    Back,
    Other,
}

/// All crashes.
pub(crate) const CRASHES: [Crash; 9] = [
    Crash::Done,
    Crash::Lost,
    Crash::LastLost,
    Crash::LastAlone,
    Crash::EachOther,
    Crash::Fronts,
    Crash::Backs,
    Crash::Others,
    Crash::Opened,
];

/// What ranges hold of which nothing else is left.
const OTHER: &[u8] = b"{\"commit\":{\"edition\":1,\"map\":\"\",\"sum\":\"\",\"time\":\"\"}}\t\n";

impl Crash {
    /// What becomes of a change, which has this number from 0 among so many.
    fn fate(self, number: usize, count: usize) -> Fate {
        let is_last = number.saturating_add(1) == count;
        let is_done = match self {
            Crash::Done | Crash::Opened => true,
            Crash::Lost => false,
            Crash::LastLost => !is_last,
            Crash::LastAlone => is_last,
            Crash::EachOther => number % 2 == 1,
            Crash::Fronts => return Fate::Front,
            Crash::Backs => return Fate::Back,
            Crash::Others => return Fate::Other,
        };
        if is_done { Fate::Done } else { Fate::Lost }
    }

    /// Puts into `content` what this crash leaves of a file.
    pub(crate) fn leave(self, record: &Record, content: &mut Vec<u8>) -> Result<(), AllocError> {
        content.clear();
        content.extend_from_slice(&record.flushed)?;
        let count = record.steps.len();
        for (number, step) in record.steps.iter().enumerate() {
            match step {
                Step::Write(written) => {
                    write(content, record, *written, self.fate(number, count))?
                }
                Step::Cut(len) => cut(content, *len, self.fate(number, count))?,
            }
        }
        if self == Crash::Opened {
            open_gate(content, record);
        }
        Ok(())
    }
}

/// Makes of a write what its fate is.
fn write(
    content: &mut Vec<u8>,
    record: &Record,
    written: Written,
    fate: Fate,
) -> Result<(), AllocError> {
    let bytes = record.bytes_of(written);
    let (front, back) = bytes.split_at(bytes.len() / 2);
    match fate {
        Fate::Done => put(content, written.at, bytes),
        Fate::Lost => Ok(()),
        Fate::Front => put(content, written.at, front),
        Fate::Back => put(content, written.at.saturating_add(front.len()), back),
        Fate::Other => put_other(content, written.at, bytes.len()),
    }
}

/// Puts so many other bytes at an offset.
fn put_other(content: &mut Vec<u8>, at: usize, count: usize) -> Result<(), AllocError> {
    let mut place = at;
    for byte in OTHER.iter().cycle().take(count) {
        put(content, place, &[*byte])?;
        place = place.saturating_add(1);
    }
    Ok(())
}

/// Makes of a change of the length what its fate is.
fn cut(content: &mut Vec<u8>, len: usize, fate: Fate) -> Result<(), AllocError> {
    let old = content.len();
    let between = old.min(len).saturating_add(old.abs_diff(len) / 2);
    match fate {
        Fate::Done => content.resize(len, 0),
        Fate::Lost => Ok(()),
        Fate::Front | Fate::Back | Fate::Other => content.resize(between, 0),
    }
}

/// The commit that was written last behind what was flushed, if the last write is one.
fn last_commit(record: &Record) -> Option<Written> {
    let mut last = None;
    for step in &record.steps {
        if let Step::Write(written) = step {
            last = Some(*written);
        }
    }
    let written = last?;
    if record.bytes_of(written).starts_with(b"{\"commit\":") {
        Some(written)
    } else {
        None
    }
}

/// Opens the gate of the commit that was written last.
fn open_gate(content: &mut [u8], record: &Record) {
    let Some(written) = last_commit(record) else {
        return;
    };
    let gate = written.at.saturating_add(written.count).saturating_sub(2);
    if let Some(byte) = content.get_mut(gate) {
        *byte = b'\t';
    }
}

/// How the content that a crash leaves is wanted to open.
#[derive(Clone, Copy, PartialEq, Eq, Debug)]
pub(crate) enum Wanted {
    /// As a journal.
    Opens,
    /// Not: its last gate is neither the old nor the new byte.
    TornGate,
    /// Not: a whole commit with an open gate stands behind the last one.
    CommitBehind,
}

impl Wanted {
    /// How what a crash leaves of a file is wanted to open.
    pub(crate) fn of(crash: Crash, record: &Record) -> Wanted {
        match crash {
            Crash::Others if record.steps.iter().any(is_gate) => Wanted::TornGate,
            Crash::Opened if last_commit(record).is_some() => Wanted::CommitBehind,
            _ => Wanted::Opens,
        }
    }
}

/// Whether a change wrote a gate: a byte of its own.
fn is_gate(step: &Step) -> bool {
    match step {
        Step::Write(written) => written.count == 1,
        Step::Cut(_) => false,
    }
}
