//! What a file was asked to hold.
use crate::content::put;
use std::alloc::{AllocError, Global};
use std::cell::RefCell;

/// Bytes that were written.
#[derive(Clone, Copy, PartialEq, Eq, Debug)]
pub(crate) struct Written {
    /// Where in the file.
    pub(crate) at: usize,
    /// Where they begin in what the record keeps of such bytes.
    from: usize,
    /// How many.
    pub(crate) count: usize,
}

/// A change of a file.
#[derive(Clone, Copy, PartialEq, Eq, Debug)]
pub(crate) enum Step {
    /// Bytes were written.
    Write(Written),
    /// The file was given this length.
    Cut(usize),
}

/// What a file holds, what it held at its last flush, and its changes since.
#[derive(Drop)]
pub(crate) struct Record {
    pub(crate) file: Vec<u8>,
    pub(crate) flushed: Vec<u8>,
    /// The oldest comes first.
    pub(crate) steps: Vec<Step>,
    /// What they wrote, one behind the other.
    written: Vec<u8>,
    /// How many calls were made.
    pub(crate) calls: u64,
    /// Whether a change is missing, since memory was refused.
    pub(crate) has_gap: bool,
}

impl Record {
    /// The record of an empty file.
    fn new(alloc: Global) -> Record {
        Record {
            file: Vec::new(alloc),
            flushed: Vec::new(alloc),
            steps: Vec::new(alloc),
            written: Vec::new(alloc),
            calls: 0,
            has_gap: false,
        }
    }

    /// The bytes that a step wrote.
    pub(crate) fn bytes_of(&self, written: Written) -> &[u8] {
        let end = written.from.saturating_add(written.count);
        self.written.get(written.from..end).unwrap_or(b"")
    }

    /// Notes a write.
    fn write(&mut self, at: usize, bytes: &[u8]) -> Result<(), AllocError> {
        let written = Written {
            at,
            from: self.written.len(),
            count: bytes.len(),
        };
        self.written.extend_from_slice(bytes)?;
        self.steps.push(Step::Write(written))?;
        put(&mut self.file, at, bytes)
    }

    /// Notes a change of the length.
    fn cut(&mut self, len: usize) -> Result<(), AllocError> {
        self.steps.push(Step::Cut(len))?;
        self.file.resize(len, 0)
    }

    /// Notes a flush.
    fn flush(&mut self) -> Result<(), AllocError> {
        self.flushed.clear();
        self.flushed.extend_from_slice(&self.file)?;
        self.steps.clear();
        self.written.clear();
        Ok(())
    }
}

/// A call of a disk.
#[derive(Clone, Copy)]
pub(crate) enum Call<'b> {
    /// A read, or a question for the length.
    Look,
    /// A write of bytes at an offset.
    Write(usize, &'b [u8]),
    /// A change of the length.
    Cut(usize),
    /// A flush.
    Flush,
}

/// A record that a disk writes while others hold it.
#[derive(Drop)]
pub(crate) struct Notebook {
    record: RefCell<Record>,
}

impl Notebook {
    /// No call was made yet.
    pub(crate) fn new(alloc: Global) -> Notebook {
        Notebook {
            record: RefCell::new(Record::new(alloc)),
        }
    }

    /// Notes a call that is made.
    pub(crate) fn note(&self, call: Call<'_>) {
        if let Ok(mut record) = self.record.try_borrow_mut() {
            record.calls = record.calls.saturating_add(1);
            let noted = match call {
                Call::Look => Ok(()),
                Call::Write(at, bytes) => record.write(at, bytes),
                Call::Cut(len) => record.cut(len),
                Call::Flush => record.flush(),
            };
            if noted.is_err() {
                record.has_gap = true;
            }
        }
    }

    /// Gives the record.
    pub(crate) fn into_record(self) -> Record {
        self.record.into_inner()
    }
}
