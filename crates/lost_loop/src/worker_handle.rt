//! Connections on their way to a worker.
use crossbeam_channel::{Receiver, Sender, unbounded};
use lost_sockets::{Peer, Stream};
use mio::{Poll, Token, Waker};
use std::alloc::{AllocError, Global};
use std::net::Net;
use std::sync::Wait;

/// The token that tells a worker that connections have come.
pub(crate) const ARRIVALS: Token = Token(usize::MAX);

/// An admitted connection, on its way to a worker.
#[derive(Drop)]
pub struct Arrival {
    pub(crate) stream: Stream,
    /// Its number, from 1.
    pub(crate) number: u64,
    pub(crate) peer: Peer,
}

/// Gives connections to one worker, until it is closed.
#[derive(Drop)]
pub struct WorkerHandle {
    sender: Option<Sender<Arrival>>,
    waker: Waker,
}

/// Where a worker takes connections from, and the poll by which it waits.
#[derive(Drop)]
pub struct Arrivals {
    pub(crate) receiver: Receiver<Arrival>,
    pub(crate) poll: Poll,
}

/// The handle of a worker, and what the worker takes.
///
/// # Errors
///
/// If memory or a file of the system is refused.
pub fn open_worker<R: Net>(rt: &R, alloc: Global) -> Result<(WorkerHandle, Arrivals), AllocError> {
    let (sender, receiver) = unbounded(alloc)?;
    let Ok(poll) = Poll::new(rt) else {
        return Err(AllocError);
    };
    let Ok(waker) = Waker::new(poll.registry(), ARRIVALS) else {
        return Err(AllocError);
    };
    let handle = WorkerHandle {
        sender: Some(sender),
        waker,
    };
    Ok((handle, Arrivals { receiver, poll }))
}

impl WorkerHandle {
    /// Gives the worker a connection. Says whether that succeeded; if not, the connection is closed.
    pub(crate) fn give<R: Wait>(&self, rt: &R, arrival: Arrival) -> bool {
        let Some(sender) = &self.sender else {
            return false;
        };
        sender.send(rt, arrival).is_ok() && self.waker.wake().is_ok()
    }

    /// Tells the worker that no further connections come.
    pub fn close(&mut self) {
        self.sender = None;
        // There is no other way to tell it.
        let _woken = self.waker.wake();
    }
}
