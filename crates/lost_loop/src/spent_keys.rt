//! Which connections have no line left.
ghost use Rattle.std.specs.Prelude.{◌≡◌, ◌<◌, false, true, IsTrue, OnOk, OnErr, length};
ghost use Rattle.lost_loop.specs.Keys.{SetsFlag, flag_at};

use std::alloc::{AllocError, Global};

/// Which connections have no line left, by their keys.
#[derive(Drop)]
pub(crate) struct SpentKeys {
    pub(crate) flags: Vec<bool>,
}

impl SpentKeys {
    /// None.
    pub(crate) fn new(alloc: Global) -> SpentKeys {
        SpentKeys {
            flags: Vec::new(alloc),
        }
    }

    /// Whether the connection under a key has no line left.
    pub(crate) fn has(&self, key: usize) -> bool
        ensures { result ≡ flag_at self.now.flags.items key }
    {
        match self.flags.get(key) {
            Some(flag) => *flag,
            None => false,
        }
    }

    /// Makes room for the connection under a key.
    pub(crate) fn make_room(&mut self, key: usize) -> Result<(), AllocError> {
        if self.flags.len() <= key && self.flags.resize(key.saturating_add(1), false).is_err() {
            return Err(AllocError);
        }
        Ok(())
    }

    /// Notes whether the connection under a key has no line left. Says whether there was room for that.
    pub(crate) fn note(&mut self, key: usize, is_spent: bool) -> bool
        ensures noted { IsTrue result → SetsFlag self.old.flags.items self.new.flags.items key is_spent }
        ensures unchanged { result ≡ false → (self.new ≡ self.old) × (flag_at self.old.flags.items key ≡ false) }
    {
        let Some(flag) = self.flags.get_mut(key) else {
            return false;
        };
        *flag = is_spent;
        true
    }

    /// Forgets a key.
    pub(crate) fn forget(&mut self, key: usize)
        ensures { flag_at self.new.flags.items key ≡ false }
    {
        // Without room, nothing was noted of it.
        let _had_room = self.note(key, false);
    }
}
