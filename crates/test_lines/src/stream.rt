//! A stream that a script prepares.
use crate::spelled::add_spelled;
use lost_worker::Turns;
use std::alloc::{AllocError, Global};
use std::io;
use std::io::Write;

/// The bytes of a stream, how long it is served, and which line the gate refuses.
#[derive(Drop)]
pub(crate) struct Stream {
    pub(crate) bytes: Vec<u8>,
    pub(crate) turns: Turns,
    pub(crate) refused: Option<u64>,
}

impl Stream {
    /// A stream with no bytes.
    pub(crate) fn new(alloc: Global) -> Stream {
        Stream {
            bytes: Vec::new(alloc),
            turns: Turns::USUAL,
            refused: None,
        }
    }

    /// Prepares the stream as a line of a script says; false where the line does not prepare it.
    pub(crate) fn is_prepared(&mut self, line: &str) -> io::Result<bool> {
        let Some((word, rest)) = line.split_once(' ') else {
            return Ok(false);
        };
        match word {
            "turns" => self.turns.lines = number(rest),
            "refuse" => self.refused = Some(number(rest)),
            "filled" | "each" => return is_done(self.add_counted(word, rest)),
            _ => return self.is_added(word, rest),
        }
        Ok(true)
    }

    /// Adds bytes as a line of a script says; false where its word is unknown.
    fn is_added(&mut self, word: &str, rest: &str) -> io::Result<bool> {
        is_done(match word {
            "line" => self.add_filled(rest, 0),
            "last" => self.bytes.extend_from_slice(rest.as_bytes()),
            "long" => self.add_long(number(rest)),
            "byte" => self
                .bytes
                .extend_from_slice(&[rest.parse::<u8>().unwrap_or(0)]),
            _ => return Ok(false),
        })
    }

    /// Adds a text with spaces after it or as often as the number before it says.
    fn add_counted(&mut self, word: &str, rest: &str) -> Result<(), AllocError> {
        let (count, text) = rest.split_once(' ').unwrap_or(("", rest));
        if word == "filled" {
            self.add_filled(text, number(count))
        } else {
            self.add_each(number(count), text)
        }
    }

    /// Adds a line of a text and spaces after it, of at least so many bytes in all.
    fn add_filled(&mut self, text: &str, least: u64) -> Result<(), AllocError> {
        self.bytes.extend_from_slice(text.as_bytes())?;
        self.add_repeated(b' ', least.saturating_sub(text.len() as u64))?;
        self.bytes.extend_from_slice(b"\n")
    }

    /// Adds a byte so many times.
    fn add_repeated(&mut self, byte: u8, count: u64) -> Result<(), AllocError> {
        for _ in 0..count {
            self.bytes.push(byte)?;
        }
        Ok(())
    }

    /// Adds a text and byte 10 so many times. In the text, `#` stands for the number of the time, from 1, and `\n` and
    /// `\r` are spelled.
    fn add_each(&mut self, count: u64, text: &str) -> Result<(), AllocError> {
        for number in 1..=count {
            self.add_numbered(number, text)?;
        }
        Ok(())
    }

    /// Adds a text and byte 10, where `#` in the text stands for a number.
    fn add_numbered(&mut self, number: u64, text: &str) -> Result<(), AllocError> {
        for (place, part) in text.split('#').enumerate() {
            if place > 0 {
                self.add_number(number)?;
            }
            add_spelled(&mut self.bytes, part)?;
        }
        self.bytes.extend_from_slice(b"\n")
    }

    /// Adds a number.
    fn add_number(&mut self, number: u64) -> Result<(), AllocError> {
        match write!(self.bytes, "{number}") {
            Ok(()) => Ok(()),
            Err(_) => Err(AllocError),
        }
    }

    /// Adds a line of so many bytes.
    fn add_long(&mut self, count: u64) -> Result<(), AllocError> {
        self.add_repeated(b'x', count)?;
        self.bytes.extend_from_slice(b"\n")
    }
}

/// True, unless memory was refused.
fn is_done(done: Result<(), AllocError>) -> io::Result<bool> {
    match done {
        Ok(()) => Ok(true),
        Err(error) => Err(error.into()),
    }
}

/// The number that a text spells, or 0.
fn number(text: &str) -> u64 {
    text.parse::<u64>().unwrap_or(0)
}

/// Says that a line is no command.
pub(crate) fn no_command<R: Print>(rt: &R) -> io::Result<()> {
    println!(rt; "no command")
}
