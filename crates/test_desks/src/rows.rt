//! The rows of a folder.
use std::alloc::{AllocError, Global};
use std::rt::Files;
use std::{fs, io};

/// The ending of the name of a row's file of lines.
const LINES: &str = ".jsonl";

/// The ending of the name of a row's file of expected text.
const EXPECTED: &str = ".expected";

/// A row.
#[derive(Drop)]
pub(crate) struct Row {
    /// The lines, from the file `NAME.jsonl`.
    pub(crate) lines: Vec<u8>,
    /// The expected text, from the file `NAME.expected`.
    pub(crate) expected: Vec<u8>,
}

impl Row {
    /// The row of a name in a folder.
    pub(crate) fn read<R: Files + AllocGlobal>(
        rt: &R,
        folder: &str,
        name: &str,
    ) -> io::Result<Row> {
        Ok(Row {
            lines: read(rt, folder, name, LINES)?,
            expected: read(rt, folder, name, EXPECTED)?,
        })
    }
}

/// The bytes of a file of a row.
fn read<R: Files + AllocGlobal>(
    rt: &R,
    folder: &str,
    name: &str,
    ending: &str,
) -> io::Result<Vec<u8>> {
    let file = format!(in rt.alloc(); "{folder}/{name}{ending}")?;
    fs::read(rt, file.as_str())
}

/// The names of the rows of a folder, in order: each file of lines without its ending.
pub(crate) fn names<R: Files + AllocGlobal + Clone + Drop>(
    rt: &R,
    folder: &str,
) -> io::Result<Vec<String>> {
    let mut names = Vec::new(rt.alloc());
    for entry in fs::read_dir(rt, folder)? {
        let entry = entry?;
        add_name(rt.alloc(), &mut names, entry.file_name())?;
    }
    names.sort()?;
    Ok(names)
}

/// Adds the name of a row, if a file is its file of lines.
fn add_name(alloc: Global, names: &mut Vec<String>, file: &str) -> Result<(), AllocError> {
    if let Some(name) = file.strip_suffix(LINES) {
        names.push(String::from_str(alloc, name)?)?;
    }
    Ok(())
}
