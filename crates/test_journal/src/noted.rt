//! A disk whose calls are noted, but for changes that fail.
use crate::record::{Call, Notebook};
use sqlite_disk::{Disk, Tally};
use std::io;

/// Notes the calls of a disk. A write, a cut and a flush are noted where they succeed.
#[derive(Drop)]
pub(crate) struct Noted<'n, D: Disk> {
    inner: D,
    notebook: &'n Notebook,
}

impl<'n, D: Disk> Noted<'n, D> {
    /// Notes the calls from here on.
    pub(crate) fn new(inner: D, notebook: &'n Notebook) -> Noted<'n, D> {
        Noted { inner, notebook }
    }
}

impl<D: Disk> Disk for Noted<'_, D> {
    ghost seen = { λ n. D.Disk.seen n.inner };

    ghost may_leave = { λ n. D.Disk.may_leave n.inner };

    ghost is_usable = { λ n. D.Disk.is_usable n.inner };

    ghost faults = { λ n. D.Disk.faults n.inner };

    ghost tally_of = { λ n. D.Disk.tally_of n.inner };

    ghost is_rotten = { λ n. D.Disk.is_rotten n.inner };

    ghost key_of = { λ n. D.Disk.key_of n.inner };

    ghost is_clean = { λ n. D.Disk.is_clean n.inner };

    ghost is_fair = { λ n. D.Disk.is_fair n.inner };

    ghost fair_if_clean = { λ n. D.Disk.fair_if_clean n.inner };

    ghost seen_may_stay = { λ n. D.Disk.seen_may_stay n.inner };

    ghost is_mixing = { λ n. D.Disk.is_mixing n.inner };

    fn mixes(&self) -> bool {
        self.inner.mixes()
    }

    fn key(&self) -> u64 {
        self.inner.key()
    }

    fn tally(&self) -> Tally {
        self.inner.tally()
    }

    fn may_be_used(&self) -> bool {
        self.inner.may_be_used()
    }

    fn len(&mut self) -> io::Result<usize> {
        self.notebook.note(Call::Look);
        self.inner.len()
    }

    fn read_at(&mut self, at: usize, buf: &mut [u8]) -> io::Result<()> {
        self.notebook.note(Call::Look);
        self.inner.read_at(at, buf)
    }

    fn read_checked(&mut self, key: u64, want: u64, at: usize, buf: &mut [u8]) -> io::Result<()> {
        self.notebook.note(Call::Look);
        self.inner.read_checked(key, want, at, buf)
    }

    fn write_at(&mut self, at: usize, bytes: &[u8]) -> io::Result<()> {
        self.inner.write_at(at, bytes)?;
        self.notebook.note(Call::Write(at, bytes));
        Ok(())
    }

    fn set_len(&mut self, len: usize) -> io::Result<()> {
        self.inner.set_len(len)?;
        self.notebook.note(Call::Cut(len));
        Ok(())
    }

    fn sync(&mut self) -> io::Result<()> {
        self.inner.sync()?;
        self.notebook.note(Call::Flush);
        Ok(())
    }
}
