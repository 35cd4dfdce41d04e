//! The text of a line of the log (own format).
use crate::batch::{LeftOut, Noted};
use crate::day::day_text;
use itoa::Buffer;
use lost_mapping::Moment;
use std::alloc::{AllocError, Global};
use std::hash::{DefaultHasher, Hasher};
use std::str;

/// What the log keeps of a reply.
#[derive(Clone, Copy, PartialEq, Eq, Debug)]
pub enum KeptReply {
    /// Its text, without its byte 10.
    Whole,
    /// The digest of that text.
    Digest,
    Nothing,
}

/// The nanoseconds of a second.
const NANOSECONDS: u64 = 1_000_000_000;

/// The digits of a number in base 16.
const DIGITS: &[u8; 16] = b"0123456789abcdef";

/// The first byte that is no ASCII.
const NO_ASCII: u8 = 128;

/// The first byte that is no control code.
const SPACE: u8 = 32;

/// Writes lines of the log.
#[derive(Drop)]
pub struct LineWriter {
    alloc: Global,
    kept: KeptReply,
    /// The day of the last line, and its text: most lines have the same one.
    day: i32,
    day_text: String,
}

impl LineWriter {
    /// A writer of lines that keep this of their replies.
    ///
    /// # Errors
    ///
    /// If memory is refused.
    pub fn new(alloc: Global, kept: KeptReply) -> Result<LineWriter, AllocError> {
        Ok(LineWriter {
            alloc,
            kept,
            day: 0,
            day_text: String::from_str(alloc, "1970-01-01")?,
        })
    }

    /// Adds the line of a request that was answered, with its byte 10. The reply has its own.
    ///
    /// # Errors
    ///
    /// If memory is refused; then a part may have been added.
    pub fn push_line(
        &mut self,
        text: &mut Vec<u8>,
        line: &Noted,
        request: &[u8],
        reply: &[u8],
    ) -> Result<(), AllocError> {
        text.extend_from_slice(b"{\"time\":\"")?;
        self.push_time(text, &line.moment)?;
        text.extend_from_slice(b"\",\"edition\":")?;
        push_number(text, line.edition)?;
        text.extend_from_slice(b",\"connection\":")?;
        push_number(text, line.connection)?;
        text.extend_from_slice(b",\"request\":\"")?;
        push_escaped(text, request)?;
        self.push_reply(text, without_end(reply))?;
        text.extend_from_slice(b"\"}\n")
    }

    /// Adds what is kept of a reply, behind the text of the request.
    fn push_reply(&self, text: &mut Vec<u8>, reply: &[u8]) -> Result<(), AllocError> {
        match self.kept {
            KeptReply::Whole => {
                text.extend_from_slice(b"\",\"reply\":\"")?;
                push_escaped(text, reply)
            }
            KeptReply::Digest => {
                text.extend_from_slice(b"\",\"digest\":\"")?;
                push_digest(text, reply_digest(reply))
            }
            KeptReply::Nothing => Ok(()),
        }
    }

    /// Adds the line that says which lines were left out, with its byte 10.
    ///
    /// # Errors
    ///
    /// If memory is refused; then a part may have been added.
    pub fn push_left_out(
        &mut self,
        text: &mut Vec<u8>,
        left_out: &LeftOut,
    ) -> Result<(), AllocError> {
        text.extend_from_slice(b"{\"leftOut\":{\"lines\":")?;
        push_number(text, left_out.lines)?;
        text.extend_from_slice(b",\"from\":\"")?;
        self.push_time(text, &left_out.from)?;
        text.extend_from_slice(b"\",\"to\":\"")?;
        self.push_time(text, &left_out.to)?;
        text.extend_from_slice(b"\"}}\n")
    }

    /// Adds a moment in UTC, with nine decimals of a second.
    fn push_time(&mut self, text: &mut Vec<u8>, moment: &Moment) -> Result<(), AllocError> {
        if moment.day() != self.day {
            self.day_text = day_text(self.alloc, moment)?;
            self.day = moment.day();
        }
        let second = moment.nanosecond() / NANOSECONDS;
        text.extend_from_slice(self.day_text.as_bytes())?;
        text.push(b'T')?;
        push_two_digits(text, second / 3_600)?;
        text.push(b':')?;
        push_two_digits(text, second / 60 % 60)?;
        text.push(b':')?;
        push_two_digits(text, second % 60)?;
        text.push(b'.')?;
        push_nanoseconds(text, moment.nanosecond() % NANOSECONDS)?;
        text.push(b'Z')?;
        Ok(())
    }
}

/// Adds a number.
fn push_number(text: &mut Vec<u8>, number: u64) -> Result<(), AllocError> {
    let mut digits = Buffer::new();
    text.extend_from_slice(digits.format(number).as_bytes())
}

/// Adds a number below 100 with two digits.
fn push_two_digits(text: &mut Vec<u8>, number: u64) -> Result<(), AllocError> {
    text.push(b'0' + (number / 10 % 10) as u8)?;
    text.push(b'0' + (number % 10) as u8)?;
    Ok(())
}

/// Adds nanoseconds of a second with nine digits.
fn push_nanoseconds(text: &mut Vec<u8>, nanoseconds: u64) -> Result<(), AllocError> {
    let mut digits = Buffer::new();
    // The 1 before them keeps their zeros.
    let ten_digits = digits
        .format(nanoseconds.saturating_add(NANOSECONDS))
        .as_bytes();
    text.extend_from_slice(ten_digits.get(1..).unwrap_or(ten_digits))
}

/// Adds a digest with sixteen digits of base 16.
fn push_digest(text: &mut Vec<u8>, digest: u64) -> Result<(), AllocError> {
    for byte in digest.to_be_bytes() {
        push_hexadecimal(text, byte)?;
    }
    Ok(())
}

/// Adds a byte as two digits of base 16.
fn push_hexadecimal(text: &mut Vec<u8>, byte: u8) -> Result<(), AllocError> {
    text.push(DIGITS[usize::from(byte / 16)])?;
    text.push(DIGITS[usize::from(byte % 16)])?;
    Ok(())
}

/// The digest of a reply's text, without its byte 10: its SipHash-1-3 under the key 0 (own rule).
pub fn reply_digest(reply: &[u8]) -> u64 {
    let mut hasher = DefaultHasher::new();
    hasher.write(reply);
    hasher.finish()
}

/// A line without the byte 10 at its end.
pub fn without_end(line: &[u8]) -> &[u8] {
    match line.split_last() {
        Some((&b'\n', text)) => text,
        _ => line,
    }
}

/// Adds bytes as the inside of a text of JSON. Where they are no UTF-8, each byte from 128 on becomes the code unit
/// `dc80` to `dcff`, as Python's `surrogateescape` has it.
fn push_escaped(text: &mut Vec<u8>, bytes: &[u8]) -> Result<(), AllocError> {
    // A mark in eight, as JSON has them, and room for what stands behind.
    text.reserve(bytes.len() + bytes.len() / 8 + 64)?;
    let is_utf8 = str::from_utf8(bytes).is_ok();
    for byte in bytes {
        push_byte(text, *byte, is_utf8)?;
    }
    Ok(())
}

/// Adds a byte, as its escape if it needs one.
fn push_byte(text: &mut Vec<u8>, byte: u8, is_utf8: bool) -> Result<(), AllocError> {
    if byte == b'"' || byte == b'\\' {
        text.push(b'\\')?;
        text.push(byte)?;
        return Ok(());
    }
    if byte < SPACE {
        return push_code(text, b"\\u00", byte);
    }
    if byte >= NO_ASCII && !is_utf8 {
        return push_code(text, b"\\udc", byte);
    }
    text.push(byte)?;
    Ok(())
}

/// Adds an escape whose last two digits are a byte.
fn push_code(text: &mut Vec<u8>, front: &[u8], byte: u8) -> Result<(), AllocError> {
    text.extend_from_slice(front)?;
    push_hexadecimal(text, byte)
}
