//! The connections of one worker.
ghost use Rattle.std.specs.Prelude.{◌≡◌, ◌<◌, ◌==◌, ℕ, None, IsSome, OnErr, IfOk, length, option_copied};
ghost use Rattle.std.specs.Option.{option_copied_mut};
ghost use Rattle.std.specs.Borrow.{sem};
ghost use Rattle.slab.specs.Slab.{get, slab_len};
ghost use Rattle.lost_worker.specs.Lines.{HasSeenMore};
ghost use Rattle.lost_connections.specs.Worker.{worker};
ghost use Rattle.lost_connections.specs.Deadlines.{times_at};
ghost use Rattle.lost_connections.specs.Lends.{lends_connected};
ghost use Rattle.lost_connections.specs.Clients.{slab_of, connected_at, KeepsAll, KeepsOthers, TakesUnder, GivesUp, IsServed, IsServedAt, IsSent, IsSentAt, late_at, IsFirstLate};

use crate::burst::Progress;
use crate::client::Client;
use crate::deadlines::{Passed, Times};
use crate::faults::ClientFault;
use crate::limits::TimeLimits;
use lost_mapping::Source;
use lost_worker::{Gate, Moments, Replier};
use slab::Slab;
use std::alloc::{AllocError, Global};
use std::io::{Read, Write};
use std::time::Duration;

/// A connection, since when it has kept its worker waiting, and what the worker keeps of it.
#[derive(Drop)]
pub struct Connected<I, O, T> {
    /// The connection.
    pub client: Client<I, O>,
    /// Since when it has kept its worker waiting.
    pub times: Times,
    /// What the worker keeps of it.
    pub state: T,
}

/// The connections of one worker, each under a key, with what the worker keeps of it.
#[derive(Drop)]
pub struct Clients<I, O, T> {
    connected: Slab<Connected<I, O, T>>,
}

impl<I: Read + Drop, O: Write + Drop, T: Drop> Clients<I, O, T> {
    /// No connection.
    pub fn new(alloc: Global) -> Clients<I, O, T>
        ensures none { (key : ℕ) → connected_at result key ≡ None }
        ensures len { slab_len (slab_of result) ≡ 0 }
    {
        Clients {
            connected: Slab::new(alloc),
        }
    }

    /// How many connections there are.
    pub fn len(&self) -> usize
        ensures { result ≡ slab_len (slab_of self.now) }
    {
        self.connected.len()
    }

    /// Whether there is no connection.
    pub fn is_empty(&self) -> bool
        ensures { result ≡ (slab_len (slab_of self.now) == 0) }
    {
        self.connected.is_empty()
    }

    /// Greater than each key in use.
    pub fn bound(&self) -> usize
        ensures { (key : ℕ) → IsSome (connected_at self.now key) → key < result }
    {
        self.connected.capacity()
    }

    /// The connection under a key, with its state.
    pub fn get(&self, key: usize) -> Option<&Connected<I, O, T>>
        ensures { option_copied result ≡ connected_at self.now key }
    {
        self.connected.get(key)
    }

    /// The connection under a key, with its state, to be changed.
    pub fn get_mut(&mut self, key: usize) -> Option<&mut Connected<I, O, T>>
        ensures* lends { sem 𝓛 (lends_connected I.row O.row T.row self.entry key result) }
        ensures value { option_copied_mut result ≡ connected_at self.old key }
    {
        self.connected.get_mut(key)
    }

    /// Takes a connection that begins now, and gives its key. If memory is refused, the connection is closed.
    pub fn insert(
        &mut self,
        client: Client<I, O>,
        now: Duration,
        state: T,
    ) -> Result<usize, AllocError>
        ensures taken { IfOk result (λ key. TakesUnder self.old self.new key (record { client = client; times = times_at now; state = state })) }
        ensures err { OnErr result (KeepsAll self.old self.new) }
    {
        let connected = Connected {
            client,
            times: Times::at(now),
            state,
        };
        match self.connected.insert(connected) {
            Ok(key) => Ok(key),
            Err(_) => Err(AllocError),
        }
    }

    /// Takes out the connection under a key.
    pub fn remove(&mut self, key: usize) -> Option<Connected<I, O, T>>
        ensures removed { GivesUp self.old self.new key result }
    {
        self.connected.try_remove(key)
    }

    /// Serves a burst of the connection under a key by [`Client::serve_burst`], notes in its times what it showed, and
    /// leaves all others unchanged.
    ///
    /// # Errors
    ///
    /// Those of [`Client::serve_burst`].
    pub fn serve<P: Replier, M: Moments, G: Gate>(
        &mut self,
        key: usize,
        alloc: Global,
        chunk: &mut [u8],
        now: Duration,
        replier: &mut P,
        name: &Source,
        moments: &mut M,
        gate: &G,
    ) -> Option<Result<Progress, ClientFault>>
        requires room { 0 < length chunk.old }
        ensures others { KeepsOthers self.old self.new key }
        ensures served { IsServedAt I.remaining O.contents (G.says gate.now) name.now
            (worker (P.reader replier.old) (M.coming moments.old)) (worker (P.reader replier.new) (M.coming moments.new))
            now (connected_at self.old key) (connected_at self.new key) result }
        ensures seen { HasSeenMore (P.reader replier.old) (P.reader replier.new) }
    {
        let mut connected = self.connected.try_remove(key)?;
        let result = connected.serve_burst(alloc, chunk, now, replier, name, moments, gate);
        self.connected.insert_reserved(connected);
        Some(result)
    }

    /// Writes the rest of the replies of the connection under a key by [`Client::send_rest`], notes in its times what
    /// this showed, and leaves all others unchanged.
    ///
    /// # Errors
    ///
    /// Those of [`Client::send_rest`].
    pub fn send_rest(
        &mut self,
        key: usize,
        alloc: Global,
        now: Duration,
    ) -> Option<Result<Progress, ClientFault>>
        ensures others { KeepsOthers self.old self.new key }
        ensures sent { IsSentAt I.remaining O.contents now (connected_at self.old key) (connected_at self.new key) result }
    {
        let mut spent = self.connected.try_remove(key)?;
        let result = spent.send_rest(alloc, now);
        self.connected.insert_reserved(spent);
        Some(result)
    }

    /// The first connection, at a key of `from` or more, that has passed a limit at `now`, and which.
    pub fn next_late(
        &self,
        from: usize,
        limits: &TimeLimits,
        now: Duration,
    ) -> Option<(usize, Passed)>
        ensures { IsFirstLate self.now from limits.now now result }
    {
        for key in from..self.bound() {
            if let Some(passed) = self.passed_at(key, limits, now) {
                return Some((key, passed));
            }
        }
        None
    }

    /// The limit that the connection under a key has passed at `now`, if any.
    fn passed_at(&self, key: usize, limits: &TimeLimits, now: Duration) -> Option<Passed>
        ensures { result ≡ late_at self.now limits.now now key }
    {
        let connected = self.connected.get(key)?;
        connected.times.passed(limits, now)
    }
}

impl<I: Read, O: Write, T> Connected<I, O, T> {
    /// Serves a burst, and notes what it showed.
    fn serve_burst<P: Replier, M: Moments, G: Gate>(
        &mut self,
        alloc: Global,
        chunk: &mut [u8],
        now: Duration,
        replier: &mut P,
        name: &Source,
        moments: &mut M,
        gate: &G,
    ) -> Result<Progress, ClientFault>
        requires room { 0 < length chunk.old }
        ensures served { IsServed I.remaining O.contents (G.says gate.now) name.now
            (worker (P.reader replier.old) (M.coming moments.old)) (worker (P.reader replier.new) (M.coming moments.new))
            now self.old self.new result }
        ensures seen { HasSeenMore (P.reader replier.old) (P.reader replier.new) }
    {
        let burst = self
            .client
            .serve_burst(alloc, chunk, replier, name, moments, gate)?;
        self.times = self.times.after(&burst.shown, now);
        Ok(burst.progress)
    }

    /// Writes the rest of the replies, and notes what this showed.
    fn send_rest(&mut self, alloc: Global, now: Duration) -> Result<Progress, ClientFault>
        ensures { IsSent I.remaining O.contents now self.old self.new result }
    {
        let burst = self.client.send_rest(alloc)?;
        self.times = self.times.after(&burst.shown, now);
        Ok(burst.progress)
    }
}
