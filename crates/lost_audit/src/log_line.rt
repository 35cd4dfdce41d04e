//! Reads a line of the log of answers.
use lost_mapping::{Moment, Stamp, StampError};
use memchr::memchr;
use std::alloc::{AllocError, Global};
use std::str;

/// What the log kept of a reply.
#[derive(Drop)]
pub enum Kept {
    /// Its line, with its byte 10.
    Whole(Vec<u8>),
    /// The digest of its text.
    Digest(u64),
    Nothing,
}

/// A question that was answered.
#[derive(Drop)]
pub struct Question {
    /// The moment that the answer used.
    pub moment: Moment,
    /// How many edits the list has that it was answered from.
    pub edition: u64,
    /// The number of its connection.
    pub connection: u64,
    /// The line as it came, without its byte 10.
    pub request: Vec<u8>,
    /// What was kept of its reply.
    pub kept: Kept,
}

/// A line of the log.
#[derive(Drop)]
pub enum LogLine {
    /// An answer.
    Answer(Question),
    /// So many answers were left out.
    LeftOut(u64),
    /// It is no line of the log.
    Other,
}

/// How many bytes the text of a day has, as of 2026-12-01.
const DAY: usize = 10;

/// How many digits a digest has.
const DIGITS: usize = 16;

/// How many bytes most requests and replies have at most.
const USUAL: usize = 1_024;

/// The nanoseconds of a second.
const NANOSECONDS: u64 = 1_000_000_000;

/// The day of the line that was read last: most lines have the same one.
#[derive(Clone, Copy, Debug)]
pub struct LastDay {
    text: [u8; DAY],
    number: Option<i32>,
}

impl LastDay {
    /// No day.
    pub fn none() -> LastDay {
        LastDay {
            text: [0; DAY],
            number: None,
        }
    }

    /// The moment of a time of this day, if it is one that is written as the log has it.
    fn moment(&self, time: &[u8]) -> Option<Moment> {
        let (day, rest) = time.split_at_checked(DAY)?;
        if day != self.text.as_slice() {
            return None;
        }
        Moment::new(self.number?, nanosecond_of(rest)?)
    }

    /// Keeps the day of a time.
    fn keep(&mut self, time: &[u8], moment: &Moment) {
        if let Some(day) = time.first_chunk::<DAY>() {
            self.text = *day;
            self.number = Some(moment.day());
        }
    }
}

/// The nanosecond of the day of a time such as T12:30:00.000000001Z.
fn nanosecond_of(time: &[u8]) -> Option<u64> {
    let [
        b'T',
        h1,
        h2,
        b':',
        m1,
        m2,
        b':',
        s1,
        s2,
        b'.',
        decimals @ ..,
        b'Z',
    ] = time
    else {
        return None;
    };
    if decimals.len() != 9 {
        return None;
    }
    let hours = number_of(&[*h1, *h2], 24)?;
    let minutes = number_of(&[*m1, *m2], 60)?;
    let seconds = number_of(&[*s1, *s2], 60)?;
    let nanoseconds = number_of(decimals, NANOSECONDS)?;
    let whole_minutes = hours.saturating_mul(60).saturating_add(minutes);
    let whole_seconds = whole_minutes.saturating_mul(60).saturating_add(seconds);
    Some(
        whole_seconds
            .saturating_mul(NANOSECONDS)
            .saturating_add(nanoseconds),
    )
}

/// The number of these digits, which is below a limit; none if they are no digits.
fn number_of(digits: &[u8], limit: u64) -> Option<u64> {
    let mut number = 0u64;
    for digit in digits {
        if !digit.is_ascii_digit() {
            return None;
        }
        number = number
            .saturating_mul(10)
            .saturating_add(u64::from(*digit - b'0'));
    }
    if number < limit { Some(number) } else { None }
}

/// Reads a line of the log, without its byte 10.
///
/// # Errors
///
/// If memory is refused.
pub fn read_log_line(
    alloc: Global,
    line: &[u8],
    last_day: &mut LastDay,
) -> Result<LogLine, AllocError> {
    let mut parts = Parts { alloc, rest: line };
    if parts.pass(b"{\"leftOut\":{\"lines\":") {
        return Ok(match parts.number() {
            Some(lines) => LogLine::LeftOut(lines),
            None => LogLine::Other,
        });
    }
    match parts.answer(last_day)? {
        Some(question) => Ok(LogLine::Answer(question)),
        None => Ok(LogLine::Other),
    }
}

/// The parts of a line that are not read yet.
#[derive(Drop)]
struct Parts<'l> {
    alloc: Global,
    rest: &'l [u8],
}

impl Parts<'_> {
    /// Reads the line of an answer; none if it is no such line.
    fn answer(&mut self, last_day: &mut LastDay) -> Result<Option<Question>, AllocError> {
        let Some(moment) = self.moment(last_day)? else {
            return Ok(None);
        };
        let (Some(edition), Some(connection)) = (
            self.number_behind(b",\"edition\":"),
            self.number_behind(b",\"connection\":"),
        ) else {
            return Ok(None);
        };
        let Some(request) = self.text_behind(b",\"request\":\"")? else {
            return Ok(None);
        };
        let Some(kept) = self.kept()? else {
            return Ok(None);
        };
        Ok(Some(Question {
            moment,
            edition,
            connection,
            request,
            kept,
        }))
    }

    /// What is kept of the reply, up to the end of the line; none if that is not the end of a line.
    fn kept(&mut self) -> Result<Option<Kept>, AllocError> {
        let mut kept = Kept::Nothing;
        if let Some(mut reply) = self.text_behind(b",\"reply\":\"")? {
            reply.push(b'\n')?;
            kept = Kept::Whole(reply);
        } else if self.pass(b",\"digest\":\"") {
            let Some(digest) = self.digest() else {
                return Ok(None);
            };
            kept = Kept::Digest(digest);
        }
        if self.rest == b"}".as_slice() {
            return Ok(Some(kept));
        }
        Ok(None)
    }

    /// Reads the moment at the beginning of a line.
    fn moment(&mut self, last_day: &mut LastDay) -> Result<Option<Moment>, AllocError> {
        if !self.pass(b"{\"time\":\"") {
            return Ok(None);
        }
        let Some(end) = memchr(b'"', self.rest) else {
            return Ok(None);
        };
        let (time, rest) = self.rest.split_at(end);
        self.rest = rest;
        if !self.pass(b"\"") {
            return Ok(None);
        }
        if let Some(moment) = last_day.moment(time) {
            return Ok(Some(moment));
        }
        match Stamp::parse(self.alloc, time) {
            Ok(stamp) => {
                last_day.keep(time, &stamp.moment());
                Ok(Some(stamp.moment()))
            }
            Err(StampError::Bad) => Ok(None),
            Err(StampError::Memory) => Err(AllocError),
        }
    }

    /// Reads a digest and the quotation mark behind it.
    fn digest(&mut self) -> Option<u64> {
        let (digits, rest) = self.rest.split_at_checked(DIGITS)?;
        self.rest = rest;
        if !self.pass(b"\"") {
            return None;
        }
        let mut digest = 0u64;
        for digit in digits {
            digest = digest.wrapping_mul(16) | u64::from(hexadecimal_of(*digit)?);
        }
        Some(digest)
    }

    /// Goes past these bytes. Says whether they were there.
    fn pass(&mut self, front: &[u8]) -> bool {
        match self.rest.strip_prefix(front) {
            Some(rest) => {
                self.rest = rest;
                true
            }
            None => false,
        }
    }

    /// Reads the number behind these bytes.
    fn number_behind(&mut self, front: &[u8]) -> Option<u64> {
        if self.pass(front) {
            self.number()
        } else {
            None
        }
    }

    /// Reads a number.
    fn number(&mut self) -> Option<u64> {
        let mut number = 0u64;
        let mut has_digit = false;
        for _digit in 0..self.rest.len() {
            let Some((byte, rest)) = self.rest.split_first() else {
                break;
            };
            if !byte.is_ascii_digit() {
                break;
            }
            number = number.checked_mul(10)?.checked_add(u64::from(byte - b'0'))?;
            has_digit = true;
            self.rest = rest;
        }
        if has_digit { Some(number) } else { None }
    }

    /// Reads the text behind these bytes, up to the quotation mark that ends it. None if they are not there.
    fn text_behind(&mut self, front: &[u8]) -> Result<Option<Vec<u8>>, AllocError> {
        if !self.pass(front) {
            return Ok(None);
        }
        let most = self.rest.len();
        let mut text = Vec::with_capacity(self.alloc, most.min(USUAL))?;
        for _part in 0..most {
            let count = copy_plain(&mut text, self.rest)?;
            let (_copied, rest) = self.rest.split_at(count.min(self.rest.len()));
            self.rest = rest;
            match self.byte() {
                Some(b'"') => return Ok(Some(text)),
                Some(_) => match self.escaped() {
                    Some(byte) => text.push(byte)?,
                    None => return Ok(None),
                },
                None => return Ok(None),
            }
        }
        Ok(None)
    }

    /// Reads a byte.
    fn byte(&mut self) -> Option<u8> {
        let (byte, rest) = self.rest.split_first()?;
        self.rest = rest;
        Some(*byte)
    }

    /// Reads what stands behind the mark of an escape, and gives the byte that it stands for: that of a code unit of
    /// `0000` to `001f` or `dc80` to `dcff` is its last one.
    fn escaped(&mut self) -> Option<u8> {
        match self.byte()? {
            b'"' => Some(b'"'),
            b'\\' => Some(b'\\'),
            b'u' => {
                let front = self.two_digits()?;
                let byte = self.two_digits()?;
                let is_control = front == 0 && byte < 32;
                let is_byte = front == 0xdc && byte >= 128;
                if is_control || is_byte {
                    Some(byte)
                } else {
                    None
                }
            }
            _ => None,
        }
    }

    /// Reads two digits of base 16.
    fn two_digits(&mut self) -> Option<u8> {
        let (digits, rest) = self.rest.split_at_checked(2)?;
        self.rest = rest;
        u8::from_str_radix(str::from_utf8(digits).ok()?, 16).ok()
    }
}

/// Copies a text up to the quotation mark that ends it, or to the mark of an escape other than of a quotation mark or of
/// such a mark. Gives how many bytes stand before that.
fn copy_plain(text: &mut Vec<u8>, bytes: &[u8]) -> Result<usize, AllocError> {
    let mut is_escaped = false;
    for (place, byte) in bytes.iter().enumerate() {
        let is_mark = *byte == b'"' || *byte == b'\\';
        if is_escaped && !is_mark {
            return Ok(place.saturating_sub(1));
        }
        if *byte == b'"' && !is_escaped {
            return Ok(place);
        }
        is_escaped = is_mark && !is_escaped;
        if !is_escaped {
            text.push(*byte)?;
        }
    }
    Ok(bytes.len())
}

/// The number of a digit of base 16, as a digest has it.
fn hexadecimal_of(digit: u8) -> Option<u8> {
    match digit {
        b'0'..=b'9' => Some(digit.wrapping_sub(b'0')),
        b'a'..=b'f' => Some(digit.wrapping_sub(b'a').wrapping_add(10)),
        _ => None,
    }
}
