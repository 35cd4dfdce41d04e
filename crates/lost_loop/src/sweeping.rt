//! Closes the connections that keep a worker waiting for too long.
ghost use Rattle.std.specs.Prelude.{◌≡◌, true, false, None, MatchOption};
ghost use Rattle.lost_connections.specs.Clients.{IsFirstLate};
ghost use Rattle.lost_loop.specs.Next.{is_due as is_due_since};
ghost use Rattle.lost_loop.specs.Swept.{ClosesFirst, IsSwept};

use crate::deciding::is_due;
use crate::event_loop::EventLoop;
use crate::service::Service;
use std::io::Eprint;
use std::sync::Wait;
use std::time::Clock;

impl EventLoop<'_> {
    /// Closes all connections that have passed a limit, and no other, if a check is due.
    pub(crate) fn sweep<R: Wait + Clock + Eprint, G>(&mut self, service: &Service<'_, R, G>)
        ensures due { is_due_since self.old.swept self.old.now ≡ true → IsSwept service.now.limits self.old.now self.old.clients self.new.clients }
        ensures early { is_due_since self.old.swept self.old.now ≡ false → self.new.clients ≡ self.old.clients }
    {
        if is_due(self.swept, self.now) {
            self.swept = self.now;
            self.close_late(service);
        }
    }

    /// Closes all connections that have passed a limit.
    fn close_late<R: Wait + Clock + Eprint, G>(&mut self, service: &Service<'_, R, G>)
        ensures { IsSwept service.now.limits self.old.now self.old.clients self.new.clients }
    {
        let bound = self.clients.bound();
        let mut from = 0;
        while from < bound {
            let Some(key) = self.close_first_late(service, from) else {
                return;
            };
            from = key + 1;
        }
    }

    /// Closes the first connection from a key on that has passed a limit, and gives its key.
    fn close_first_late<R: Wait + Clock + Eprint, G>(
        &mut self,
        service: &Service<'_, R, G>,
        from: usize,
    ) -> Option<usize>
        ensures closed { MatchOption result
            (IsFirstLate self.old.clients from service.now.limits self.old.now None × (self.new.clients ≡ self.old.clients))
            (λ key. ClosesFirst service.now.limits self.old.now self.old.clients self.new.clients from key) }
        ensures now { self.new.now ≡ self.old.now }
    {
        let (key, passed) = self.clients.next_late(from, &service.limits, self.now)?;
        self.end(service, key, Some(passed.text()));
        Some(key)
    }
}
