//! The lines of a row.
use lost_book::Limits;
use lost_json::read_desk;
use std::alloc::{AllocError, Global};

/// The line of a commit, with its byte 10.
pub(crate) const COMMIT: &[u8] = b"{\"commit\":{}}\n";

/// The reply to a line that could not be kept.
pub(crate) const REFUSED: &[u8] = b"{\"refused\":{\"code\":23,\"name\":\"NotKept\"}}";

/// The reply to a line for which memory was refused.
pub(crate) const NO_MEMORY: &[u8] = b"{\"refused\":{\"code\":20,\"name\":\"Memory\"}}";

/// Lines of a desk, and the limits of its book.
#[derive(Drop)]
pub(crate) struct Row {
    pub(crate) name: String,
    pub(crate) limits: Limits,
    /// The lines, each with its byte 10.
    pub(crate) lines: Vec<u8>,
}

impl Row {
    /// A row with no lines.
    pub(crate) fn new(alloc: Global, name: String, limits: Limits) -> Row {
        Row {
            name,
            limits,
            lines: Vec::new(alloc),
        }
    }

    /// Adds a line. One that a desk would take for a question is left out.
    pub(crate) fn add(&mut self, alloc: Global, line: &[u8]) -> Result<(), AllocError> {
        if matches!(read_desk(alloc, line), Ok(None)) {
            return Ok(());
        }
        self.lines.extend_from_slice(line)?;
        self.lines.push(b'\n')?;
        Ok(())
    }

    /// Adds the lines of a text.
    pub(crate) fn add_all(&mut self, alloc: Global, text: &[u8]) -> Result<(), AllocError> {
        for line in text.split(|byte| *byte == b'\n') {
            if !line.is_empty() {
                self.add(alloc, line)?;
            }
        }
        Ok(())
    }

    /// Adds a commit.
    pub(crate) fn add_commit(&mut self) -> Result<(), AllocError> {
        self.lines.extend_from_slice(COMMIT)
    }
}
