//! Desks that come one after another.
use lost_sockets::{Listener, Peer, Stream, accept_until};
use std::sync::atomic::AtomicBool;
use std::sync::{Mutex, Wait};
use std::time::Clock;

/// Gives desks one after another, and holds the next one if it has come. The listener does not wait.
#[derive(Drop)]
pub(crate) struct DeskQueue<'l> {
    listener: &'l Listener,
    next: Mutex<Option<(Stream, Peer)>>,
}

impl<'l> DeskQueue<'l> {
    /// The queue of a listener at which nobody waits yet.
    pub(crate) fn new(listener: &'l Listener) -> DeskQueue<'l> {
        DeskQueue {
            listener,
            next: Mutex::new(None),
        }
    }

    /// Whether a desk waits.
    pub(crate) fn has_waiting<R: Wait>(&self, rt: &R) -> bool {
        let mut next = self.next.lock(rt);
        if next.is_none()
            && let Ok(accepted) = self.listener.accept_once()
        {
            *next = Some(accepted);
        }
        next.is_some()
    }

    /// Waits for the next desk, or until `is_over` is set.
    pub(crate) fn next<R: Wait + Clock>(
        &self,
        rt: &R,
        is_over: &AtomicBool,
    ) -> Option<(Stream, Peer)> {
        if let Some(waiting) = self.waiting(rt) {
            return Some(waiting);
        }
        accept_until(rt, self.listener, is_over)
    }

    /// The waiting desk, if it was seen.
    fn waiting<R: Wait>(&self, rt: &R) -> Option<(Stream, Peer)> {
        self.next.lock(rt).take()
    }
}
