//! A replier of many connections.
ghost use Rattle.std.specs.Prelude.{◌≡◌};

use crate::cached::CachedReader;
use crate::replier::Replier;
use lost_desk::Reader;
use std::hash::BuildHasher;

/// A replier that answers the lines of many connections, and is told whose come next. That changes no reply.
pub trait SharedReplier: Replier {
    /// The next lines come from the connection with this number.
    fn turn_to(&mut self, connection: u64)
        ensures { Self.reader self.new ≡ Self.reader self.old };

    /// No line comes for now.
    fn rest(&mut self)
        ensures { Self.reader self.new ≡ Self.reader self.old };
}

impl SharedReplier for Reader {
    fn turn_to(&mut self, _connection: u64) {}

    fn rest(&mut self) {}
}

impl<S: BuildHasher + Drop> SharedReplier for CachedReader<S> {
    fn turn_to(&mut self, _connection: u64) {}

    fn rest(&mut self) {}
}
