//! Codes 2, 3, 6, 8 and 12: sources, sourceIds and keys, services and numbers. A token is a text as a sourceId is.
use crate::quoting::quoted;
use crate::stop::{Stop, found};
use lost_mapping::{MAX_ID_BYTES, MAX_NUMBER_BYTES, MAX_SOURCE_BYTES};
use lost_urn::{ServiceUrn, check_label};
use std::alloc::Global;

/// Why a text is no source.
pub(crate) fn source(alloc: Global, text: &str) -> Result<(), Stop> {
    length(alloc, "source", text, MAX_SOURCE_BYTES)?;
    for label in text.as_bytes().split(|byte| *byte == b'.') {
        if let Err(fault) = check_label(label) {
            let shown = quoted(alloc, text)?;
            return Err(found(format!(in alloc; "source: {shown}: {fault}")));
        }
    }
    Ok(())
}

/// Why a text is no sourceId, key or token. `name` is the name of the member, or of the item of a list.
pub(crate) fn id(alloc: Global, name: &str, text: &str) -> Result<(), Stop> {
    length(alloc, name, text, MAX_ID_BYTES)?;
    for byte in text.as_bytes() {
        if *byte < 32 || *byte == 127 {
            let shown = quoted(alloc, text)?;
            return Err(found(format!(in alloc;
                "{name}: {shown} has a control character, byte {byte}"
            )));
        }
    }
    Ok(())
}

/// Why a text is no service URN. `name` is the name of the member.
pub(crate) fn service(alloc: Global, name: &str, text: &str) -> Result<(), Stop> {
    match ServiceUrn::check(text.as_bytes()) {
        Ok(()) => Ok(()),
        Err(fault) => {
            let shown = quoted(alloc, text)?;
            Err(found(format!(in alloc; "{name}: {shown}: {fault}")))
        }
    }
}

/// Why a text is no service number.
pub(crate) fn number(alloc: Global, text: &str) -> Result<(), Stop> {
    length(alloc, "serviceNumber", text, MAX_NUMBER_BYTES)?;
    if text.as_bytes().iter().all(|byte| is_dial_byte(*byte)) {
        return Ok(());
    }
    let shown = quoted(alloc, text)?;
    Err(found(format!(in alloc;
        "serviceNumber: {shown} has a character other than 0 to 9, * and #"
    )))
}

fn is_dial_byte(byte: u8) -> bool {
    byte.is_ascii_digit() || byte == b'*' || byte == b'#'
}

/// Why the length of a text is not from 1 to `most` bytes.
fn length(alloc: Global, name: &str, text: &str, most: usize) -> Result<(), Stop> {
    let bytes = text.len();
    if bytes == 0 {
        return Err(found(format!(in alloc; "{name}: it is empty")));
    }
    if bytes > most {
        return Err(found(format!(in alloc;
            "{name}: it has {bytes} bytes, and at most {most} are allowed"
        )));
    }
    Ok(())
}
