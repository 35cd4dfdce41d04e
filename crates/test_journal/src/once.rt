//! A disk of which one call fails.
ghost use Rattle.std.specs.Prelude.{◌≡◌, ◌+◌, ◌&&◌, not, false};
ghost use Rattle.sqlite_disk.specs.Disk.{CountsFault};
ghost use Rattle.sqlite_disk.specs.Refusal.{finds_no_room};

use crate::filling::FILLING;
use crate::flaw::{Effect, Flaw};
use sqlite_disk::{Disk, Tally};
use std::io;

/// Fails one call, and passes on those before it and behind it.
#[derive(Drop)]
pub(crate) struct Once<D: Disk> {
    inner: D,
    /// How many calls come before the one that fails; none once that has failed.
    left: Option<u64>,
    effect: Effect,
    refused: u64,
    sync_refused: bool,
}

impl<D: Disk> Once<D> {
    /// Fails the call that a flaw names, behind those that fill the disk.
    pub(crate) fn new(inner: D, flaw: Option<Flaw>) -> Once<D> {
        let (left, effect) = match flaw {
            Some(flaw) => (Some(flaw.before.saturating_add(FILLING)), flaw.effect),
            None => (None, Effect::Nothing),
        };
        Once {
            inner,
            left,
            effect,
            refused: 0,
            sync_refused: false,
        }
    }
}

/// Counts a call, and fails if it is the one that fails.
fn count(left: &mut Option<u64>, refused: &mut u64) -> io::Result<()>
    ensures faults { CountsFault result refused.old refused.new }
    ensures kind { finds_no_room result ≡ false }
{
    match *left {
        Some(0) => {
            *left = None;
            *refused = refused.saturating_add(1);
            Err(io::Error::other("one call fails"))
        }
        Some(before) => {
            *left = Some(before.saturating_sub(1));
            Ok(())
        }
        None => Ok(()),
    }
}

impl<D: Disk> Disk for Once<D> {
    ghost seen = { λ o. D.Disk.seen o.inner };

    ghost may_leave = { λ o. D.Disk.may_leave o.inner };

    ghost is_usable = { λ o. D.Disk.is_usable o.inner && not o.sync_refused };

    ghost faults = { λ o. D.Disk.faults o.inner + o.refused };

    ghost tally_of = { λ o. D.Disk.tally_of o.inner };

    ghost is_rotten = { λ o. D.Disk.is_rotten o.inner };

    ghost key_of = { λ o. D.Disk.key_of o.inner };

    ghost is_clean = { λ o. D.Disk.is_clean o.inner };

    ghost is_fair = { λ o. D.Disk.is_fair o.inner };

    ghost fair_if_clean = { λ o. D.Disk.fair_if_clean o.inner };

    ghost seen_may_stay = { λ o. D.Disk.seen_may_stay o.inner };

    ghost is_mixing = { λ o. D.Disk.is_mixing o.inner };

    fn mixes(&self) -> bool {
        self.inner.mixes()
    }

    fn key(&self) -> u64 {
        self.inner.key()
    }

    fn tally(&self) -> Tally {
        self.inner.tally()
    }

    fn may_be_used(&self) -> bool {
        self.inner.may_be_used() && !self.sync_refused
    }

    fn len(&mut self) -> io::Result<usize> {
        count(&mut self.left, &mut self.refused)?;
        self.inner.len()
    }

    fn read_at(&mut self, at: usize, buf: &mut [u8]) -> io::Result<()> {
        count(&mut self.left, &mut self.refused)?;
        self.inner.read_at(at, buf)
    }

    fn read_checked(&mut self, key: u64, want: u64, at: usize, buf: &mut [u8]) -> io::Result<()> {
        count(&mut self.left, &mut self.refused)?;
        self.inner.read_checked(key, want, at, buf)
    }

    fn write_at(&mut self, at: usize, bytes: &[u8]) -> io::Result<()> {
        if let Err(error) = count(&mut self.left, &mut self.refused) {
            if self.effect == Effect::Nothing {
                return Err(error);
            }
            self.inner.write_at(at, bytes)?;
            return Err(error);
        }
        self.inner.write_at(at, bytes)
    }

    fn set_len(&mut self, len: usize) -> io::Result<()> {
        if let Err(error) = count(&mut self.left, &mut self.refused) {
            if self.effect == Effect::Nothing {
                return Err(error);
            }
            self.inner.set_len(len)?;
            return Err(error);
        }
        self.inner.set_len(len)
    }

    fn sync(&mut self) -> io::Result<()> {
        if let Err(error) = count(&mut self.left, &mut self.refused) {
            self.sync_refused = true;
            if self.effect == Effect::Nothing {
                return Err(error);
            }
            self.inner.sync()?;
            return Err(error);
        }
        self.inner.sync()
    }
}
