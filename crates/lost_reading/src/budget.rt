//! How much memory the tree of a line may take.
ghost use Rattle.std.specs.Prelude.{◌≡◌, IfErr};

use crate::request::ReadError;
use serde_json::{Map, Value};

/// The most bytes that the tree of a desk line may take, and that of a request.
const MAX_DESK_TREE: usize = 11_000_000;

const MAX_REQUEST_TREE: usize = 1_200_000;

/// A list in a tree has at most so many items, so that no one piece of memory is large.
const MAX_ITEMS: usize = 65_536;

/// A list begins with room for so many items. With fewer, glibc would keep its memory.
pub(crate) const FIRST_ROOM: usize = 4;

/// What a value takes in a list, what a list and a text take beside their contents, and what the first member of an object
/// and each further one take at most, in bytes.
const VALUE: usize = 32;

const BESIDE: usize = 32;

const FIRST_MEMBER: usize = 960;

const FURTHER_MEMBER: usize = 144;

/// What is left of the bytes that a tree may take.
#[derive(Drop)]
pub(crate) struct Budget {
    left: usize,
}

impl Budget {
    /// That of a desk line.
    pub(crate) fn of_desk_line() -> Budget {
        Budget {
            left: MAX_DESK_TREE,
        }
    }

    /// Leaves no more than what a request may take.
    pub(crate) fn narrow_to_request(&mut self) {
        if self.left > MAX_REQUEST_TREE {
            self.left = MAX_REQUEST_TREE;
        }
    }

    /// Takes bytes away, where so many are left.
    fn spend(&mut self, bytes: usize) -> Result<(), ReadError>
        ensures { IfErr result (λ fault. fault ≡ ReadError.Memory) }
    {
        if bytes > self.left {
            return Err(ReadError::Memory);
        }
        self.left -= bytes;
        Ok(())
    }

    /// Takes away what a copy of a text takes.
    pub(crate) fn spend_text(&mut self, text: &str) -> Result<(), ReadError>
        ensures { IfErr result (λ fault. fault ≡ ReadError.Memory) }
    {
        self.spend(text.len().saturating_add(BESIDE))
    }

    /// Takes away what a list takes that has no item yet.
    pub(crate) fn spend_list(&mut self) -> Result<(), ReadError>
        ensures { IfErr result (λ fault. fault ≡ ReadError.Memory) }
    {
        self.spend(FIRST_ROOM * VALUE + BESIDE)
    }

    /// Takes away what a list takes for one item more: where its room is full, it is doubled.
    pub(crate) fn spend_item(&mut self, items: &Vec<Value>) -> Result<(), ReadError>
        ensures { IfErr result (λ fault. fault ≡ ReadError.Memory) }
    {
        let room = items.capacity();
        if items.len() < room {
            return Ok(());
        }
        if room >= MAX_ITEMS {
            return Err(ReadError::Memory);
        }
        self.spend(room.saturating_mul(VALUE))
    }

    /// Takes away what an object takes for one member more.
    pub(crate) fn spend_member(&mut self, members: &Map<String, Value>) -> Result<(), ReadError>
        ensures { IfErr result (λ fault. fault ≡ ReadError.Memory) }
    {
        if members.is_empty() {
            self.spend(FIRST_MEMBER)
        } else {
            self.spend(FURTHER_MEMBER)
        }
    }
}
