//! Where a worker's connections come from.
ghost use Rattle.lost_worker.specs.Sources.{HandsOver};

use crate::connection::Connection;
use crossbeam_channel::Receiver;
use std::sync::Wait;

/// Hands over connections, one after another.
pub trait ConnectionSource<I, O> {
    ghost use Rattle.std.specs.Prelude.{Option, List};
    ghost use Rattle.lost_worker.specs.declared.connection.Connection.{Connection};

    /// The connections that it will hand over, in order, if it tells them.
    ghost coming: { Self → Option (List (Connection I O)) };

    /// The next connection; `None` if no more will come.
    fn next<R: Wait>(&mut self, rt: &R) -> Option<Connection<I, O>>
        ensures { HandsOver (coming self.old) result (coming self.new) };
}

/// The connections that come by a channel, until it is closed. It tells none of them before it hands it over.
#[derive(Drop)]
pub(crate) struct ChannelSource<'r, I, O> {
    pub(crate) receiver: &'r Receiver<Connection<I, O>>,
}

impl<I: Drop, O: Drop> ConnectionSource<I, O> for ChannelSource<'_, I, O> {
    ghost use Rattle.std.specs.Prelude.{None};

    ghost coming = { λ source. None };

    fn next<R: Wait>(&mut self, rt: &R) -> Option<Connection<I, O>> {
        self.receiver.recv(rt).ok()
    }
}
