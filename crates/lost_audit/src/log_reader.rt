//! Reads the lines of a log.
use crate::auditor::Auditor;
use memchr::memchr;
use sqlite_disk::Disk;
use std::alloc::{AllocError, Global};
use std::sync::Wait;

/// The most bytes of a line that is kept. A request of 1 MiB may take six times as many, and a reply has no limit of its
/// own.
const MOST: usize = 67_108_864;

/// Cuts what is read of a log into lines.
#[derive(Drop)]
pub(crate) struct LogReader {
    /// What was read of the line that has not ended.
    line: Vec<u8>,
    /// Whether that is too long. Then it is not kept.
    is_long: bool,
}

impl LogReader {
    pub(crate) fn new(alloc: Global) -> LogReader {
        LogReader {
            line: Vec::new(alloc),
            is_long: false,
        }
    }

    /// Reads on, and hands each line over that ends.
    pub(crate) fn read<R: Wait, D: Disk + Drop>(
        &mut self,
        bytes: &[u8],
        auditor: &mut Auditor<'_, R, D>,
    ) -> Result<(), AllocError> {
        let mut rest = bytes;
        for _line in 0..bytes.len() {
            let Some(end) = memchr(b'\n', rest) else {
                break;
            };
            let (run, behind) = rest.split_at(end);
            self.push(run)?;
            self.hand_over(auditor)?;
            rest = behind.strip_prefix(b"\n".as_slice()).unwrap_or(behind);
        }
        self.push(rest)
    }

    /// Hands a last line over that was not ended.
    pub(crate) fn finish<R: Wait, D: Disk + Drop>(
        &mut self,
        auditor: &mut Auditor<'_, R, D>,
    ) -> Result<(), AllocError> {
        if self.is_long || !self.line.is_empty() {
            self.hand_over(auditor)?;
        }
        Ok(())
    }

    /// Adds bytes to the line.
    fn push(&mut self, run: &[u8]) -> Result<(), AllocError> {
        if self.line.len().saturating_add(run.len()) > MOST {
            self.is_long = true;
        }
        if self.is_long {
            self.line.clear();
            return Ok(());
        }
        self.line.extend_from_slice(run)
    }

    /// Hands the line over, and goes on to the next one.
    fn hand_over<R: Wait, D: Disk + Drop>(
        &mut self,
        auditor: &mut Auditor<'_, R, D>,
    ) -> Result<(), AllocError> {
        if self.is_long {
            auditor.take_long_line()?;
        } else {
            auditor.take_line(self.line.as_slice())?;
        }
        self.line.clear();
        self.is_long = false;
        Ok(())
    }
}
