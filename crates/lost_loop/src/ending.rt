//! Closes a connection of a worker, and counts how it ended.
ghost use Rattle.std.specs.Prelude.{◌≡◌, false, is_some};
ghost use Rattle.lost_status.specs.Figures.{connections_counted};
ghost use Rattle.lost_connections.specs.Clients.{connected_at};
ghost use Rattle.lost_loop.specs.Counting.{end_counted};
ghost use Rattle.lost_loop.specs.Keys.{flag_at};
ghost use Rattle.lost_loop.specs.Loop.{IsPlus, Leaves, one_fault};

use crate::connection_state::ConnectionState;
use crate::event_loop::EventLoop;
use crate::service::Service;
use crate::shared_stream::SharedStream;
use lost_lines::Counts;
use lost_status::ConnectionEvent;
use std::io::{Eprint, Read, Write};
use std::sync::Wait;
use std::time::Clock;

impl EventLoop<'_> {
    /// Closes a connection, and adds its counts, or a fault if there is a cause, which is reported.
    pub(crate) fn end<R: Wait + Clock + Eprint, G>(
        &mut self,
        service: &Service<'_, R, G>,
        key: usize,
        cause: Option<&'static str>,
    )
        ensures leaves { Leaves ⟦<SharedStream as Read>⟧.remaining ⟦<SharedStream as Write>⟧.contents (is_some cause.entry) self.old.clients self.new.clients self.old.counts self.new.counts key }
        ensures forgotten { flag_at self.new.spent.flags.items key ≡ false }
        ensures now { self.new.now ≡ self.old.now }
        ensures counted { self.new.counter
            ≡ end_counted self.old.counter (connected_at self.old.clients key) cause.entry }
    {
        self.spent.forget(key);
        let Some(connected) = self.clients.remove(key) else {
            return;
        };
        let peer = connected.state.peer;
        service.admission.leave(service.rt, peer.address());
        match cause {
            Some(cause) => self.count_fault(service, connected.state, cause),
            None => {
                self.counts = self.counts.plus(connected.client.counts());
                self.counter.count(ConnectionEvent::Ended);
            }
        }
    }

    /// Counts a connection that ended in a fault, and reports the cause.
    pub(crate) fn count_fault<R: Wait + Clock + Eprint, G>(
        &mut self,
        service: &Service<'_, R, G>,
        state: ConnectionState,
        cause: &'static str,
    )
        ensures clients { self.new.clients ≡ self.old.clients }
        ensures counted { IsPlus self.old.counts one_fault self.new.counts }
        ensures others { (self.new.now ≡ self.old.now) × (self.new.spent ≡ self.old.spent) }
        ensures counter { self.new.counter ≡ connections_counted self.old.counter ConnectionEvent.Failed }
    {
        self.counts = self.counts.plus(Counts::of_fault());
        self.counter.count(ConnectionEvent::Failed);
        service.log.report_query(state.number, &state.peer, cause);
    }
}
