//! The connections to serve at once.
use std::alloc::{AllocError, Global};
use std::collections::VecDeque;

/// The keys of the connections to serve at once, in order, each at most once.
#[derive(Drop)]
pub(crate) struct ReadyQueue {
    keys: VecDeque<usize>,
    /// By key: whether it is among them.
    is_queued: Vec<bool>,
}

impl ReadyQueue {
    /// No connection.
    pub(crate) fn new(alloc: Global) -> ReadyQueue {
        ReadyQueue {
            keys: VecDeque::new(alloc),
            is_queued: Vec::new(alloc),
        }
    }

    /// How many connections are queued.
    pub(crate) fn len(&self) -> usize {
        self.keys.len()
    }

    /// Whether no connection is queued.
    pub(crate) fn is_empty(&self) -> bool {
        self.keys.is_empty()
    }

    /// Makes room for the connection under a key, which is one of `count`.
    pub(crate) fn make_room(&mut self, key: usize, count: usize) -> Result<(), AllocError> {
        if self.keys.reserve(count).is_err() {
            return Err(AllocError);
        }
        if self.is_queued.len() <= key
            && self.is_queued.resize(key.saturating_add(1), false).is_err()
        {
            return Err(AllocError);
        }
        Ok(())
    }

    /// Queues the connection under a key behind the others, unless it is queued already.
    pub(crate) fn push(&mut self, key: usize) {
        let Some(is_queued) = self.is_queued.get_mut(key) else {
            return;
        };
        if !*is_queued && self.keys.push_back(key).is_ok() {
            *is_queued = true;
        }
    }

    /// The key of the connection that is next.
    pub(crate) fn pop(&mut self) -> Option<usize> {
        let key = self.keys.pop_front()?;
        if let Some(is_queued) = self.is_queued.get_mut(key) {
            *is_queued = false;
        }
        Some(key)
    }
}
