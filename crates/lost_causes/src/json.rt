//! Lines that are no JSON.
use crate::hints::is_laid_out;
use crate::stop::{Stop, found};
use serde_json::{Error, Value};
use std::alloc::Global;

/// The tree of a line, or why it has none.
pub(crate) fn tree(alloc: Global, line: &[u8]) -> Result<Value, Stop> {
    match Value::from_slice(alloc, line) {
        Ok(tree) => Ok(tree),
        Err(error) if error.is_memory() => Err(Stop::Memory),
        Err(error) => Err(no_json(alloc, line, &error)),
    }
}

/// Why a line is no JSON.
fn no_json(alloc: Global, line: &[u8], error: &Error) -> Stop {
    if line.trim_ascii().is_empty() {
        return found(String::from_str(alloc, "the line is empty"));
    }
    if line.starts_with(b"\xEF\xBB\xBF") {
        return found(String::from_str(
            alloc,
            "no JSON: the file begins with a byte order mark: save it without one",
        ));
    }
    if let Err(fault) = std::str::from_utf8(line) {
        let place = fault.valid_up_to().saturating_add(1);
        return found(format!(in alloc; "no UTF-8: byte {place} of the line"));
    }
    syntax(alloc, line, error)
}

/// The look of a line that is no JSON, or the place where the JSON reader stopped.
fn syntax(alloc: Global, line: &[u8], error: &Error) -> Stop {
    let row = error.line();
    let column = error.column();
    if error.is_eof() {
        return found(format!(in alloc;
            "no JSON: line {row} column {column}: the line ends in the middle of a value, and each object must stand on one line"
        ));
    }
    if is_laid_out(line) {
        return found(String::from_str(
            alloc,
            "no JSON: it looks like JSON laid out over several lines, and each object must stand on one line",
        ));
    }
    found(format!(in alloc; "no JSON: line {row} column {column}"))
}
