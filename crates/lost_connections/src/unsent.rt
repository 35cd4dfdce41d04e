//! The replies that a connection's output did not take yet.
ghost use Rattle.std.specs.Prelude.{◌≡◌, ◌==◌, true, [], Some, length};
ghost use Rattle.std.specs.Io.{WritesAtMost};
ghost use Rattle.std.specs.Io.KnownBytes.{Keeps, WriteAppends};
ghost use Rattle.lost_connections.specs.Noted.{inner_of, has_failed};
ghost use Rattle.lost_connections.specs.Sent.{Sent};

use crate::noted::Noted;
use std::alloc::Global;
use std::io;
use std::io::Write;
use std::marker::Model;

/// The most bytes of room that stay once all are taken.
const KEPT_ROOM: usize = 65_536;

/// Replies that an output did not take yet, in order. Contracts see them as the bytes that are left.
#[derive(Drop)]
pub(crate) struct Unsent {
    bytes: Vec<u8>,
    taken: usize,
}

impl Model for Unsent {
    ghost use Rattle.std.specs.Prelude.{◌≤◌, drop, length};
    ghost use Rattle.lost_spec.specs.Text.{Text};

    ghost Value = { Text };

    ghost view = { λ u. drop u.taken u.bytes.items };

    ghost invariant = { λ u. u.taken ≤ length u.bytes.items };
}

impl Unsent {
    /// Nothing is left.
    pub(crate) fn new(alloc: Global) -> Unsent
        ensures { result ≡ [] }
    {
        Unsent {
            bytes: Vec::new(alloc),
            taken: 0,
        }
    }

    /// How many bytes are left.
    pub(crate) fn len(&self) -> usize
        ensures { result ≡ length self.now }
    {
        self.bytes.len() - self.taken
    }

    /// Whether nothing is left.
    pub(crate) fn is_empty(&self) -> bool
        ensures { result ≡ (length self.now == 0) }
    {
        self.len() == 0
    }

    /// Writes as much of what is left as the output takes at once. A write that fails sets the output's flag; what was
    /// taken before is taken.
    pub(crate) fn send<O: Write>(&mut self, alloc: Global, output: &mut Noted<O>)
        ensures sent { Sent (O.contents (inner_of output.old)) (O.contents (inner_of output.new)) self.old self.new }
        ensures flag { has_failed output.old ≡ true → has_failed output.new ≡ true }
    {
        let rest = write_some(output, &self.bytes[self.taken..]);
        self.taken = self.bytes.len() - rest.len();
        self.close_up(alloc);
    }

    /// Frees the room of the taken bytes, if they are at least as many as those left.
    fn close_up(&mut self, alloc: Global)
        ensures { self.new ≡ self.old }
    {
        if self.taken < self.len() {
            return;
        }
        if self.is_empty() && self.bytes.len() <= KEPT_ROOM {
            self.bytes.clear();
            self.taken = 0;
            return;
        }
        let mut bytes = Vec::new(alloc);
        if bytes.extend_from_slice(&self.bytes[self.taken..]).is_ok() {
            self.bytes = bytes;
            self.taken = 0;
        }
    }
}

/// Writes as many of the bytes as the output takes at once, and gives the others.
fn write_some<'b, O: Write>(output: &mut Noted<O>, bytes: &'b [u8]) -> &'b [u8]
    ensures sent { Sent (O.contents (inner_of output.old)) (O.contents (inner_of output.new)) bytes.now result.now }
    ensures flag { has_failed output.old ≡ true → has_failed output.new ≡ true }
{
    let mut rest = bytes;
    while !rest.is_empty() {
        match output.write(rest) {
            Ok(count) if count > 0 => rest = &rest[count..],
            _ => return rest,
        }
    }
    rest
}

impl Write for Unsent {
    ghost contents = { λ u. Some u };

    fn write(&mut self, buf: &[u8]) -> io::Result<usize>
        ensures bound { WritesAtMost result buf.now }
        ensures bytes { WriteAppends (Some self.old) (Some self.new) result buf.now }
    {
        self.bytes.write(buf)
    }

    fn flush(&mut self) -> io::Result<()>
        ensures bytes { Keeps (Some self.old) (Some self.new) }
    {
        Ok(())
    }
}
