//! Short texts that take no memory: the lines of the map desk's replies, which are written even where memory is short.
ghost use Rattle.std.specs.Prelude.{◌≡◌, ◌<◌, ◌≤◌, ◌+◌, [], ◌++◌, length, decimal};

use itoa::Buffer;
use std::marker::Model;

/// The most bytes of a text.
const MAX_BYTES: usize = 64;

/// A text of at most 64 bytes, which takes no memory. Contracts see it as its bytes.
#[derive(Drop)]
pub struct DeskText {
    bytes: [u8; MAX_BYTES],
    len: usize,
}

impl Model for DeskText {
    ghost use Rattle.std.specs.Prelude.{List, ℕ, ◌≤◌, take};

    ghost Value = { List ℕ };

    ghost view = { λ text. take text.len text.bytes };

    ghost invariant = { λ text. text.len ≤ 64 };
}

impl DeskText {
    /// The empty text.
    pub fn new() -> DeskText
        ensures { result ≡ [] }
    {
        DeskText {
            bytes: [0; MAX_BYTES],
            len: 0,
        }
    }

    /// Appends a part. The caller makes sure that there is room.
    pub fn push(&mut self, part: &[u8])
        requires { length self.old + length part.now ≤ 64 }
        ensures text { self.new ≡ self.old ++ part.now }
        ensures len { length self.new ≡ length self.old + length part.now }
    {
        let end = self.len + part.len();
        self.bytes[self.len..end].copy_from_slice(part);
        self.len = end;
    }

    /// Appends the decimal digits of a number: at most 20, and at most two of a number below 100. The caller makes sure
    /// that there is room for 20.
    pub fn push_number(&mut self, number: u64)
        requires { length self.old ≤ 44 }
        ensures digits { self.new ≡ self.old ++ decimal number }
        ensures short { length self.new ≤ length self.old + 20 }
        ensures two { number < 100 → length self.new ≤ length self.old + 2 }
    {
        let mut buffer = Buffer::new();
        self.push(buffer.format(number).as_bytes());
    }

    /// Its bytes, at most 64.
    pub fn bytes(&self) -> &[u8]
        ensures bytes { result.now ≡ self.now }
        ensures short { length result.now ≤ 64 }
    {
        &self.bytes[..self.len]
    }
}
