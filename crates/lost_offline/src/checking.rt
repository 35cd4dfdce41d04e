//! Checks a journal.
ghost use Rattle.std.specs.Prelude.{◌≡◌, length};
ghost use Rattle.lost_digest.specs.Digest.{map_digest};
ghost use Rattle.lost_desk.specs.Seen.{published_book};

use crate::fault::JournalFault;
use crate::opening::read_journal;
use lost_book::Limits;
use lost_desk::{Desk, open_desk};
use lost_digest::MapDigest;
use lost_keeping::Recovered;
use std::fs::{File, Files};
use std::sync::Wait;

/// What a journal keeps.
#[derive(Clone, Copy, PartialEq, Eq, Debug)]
pub struct JournalFound {
    /// How many edits are published.
    pub edition: u64,
    /// How many mappings are held.
    pub mappings: usize,
    /// The digest of the map that is held.
    pub digest: MapDigest,
    /// What was read.
    pub recovered: Recovered,
}

/// Reads the journal at a path as a server does that starts, and says what it keeps. The file stays as it is, and a
/// server may use it meanwhile.
///
/// # Errors
///
/// [`JournalFault`].
pub fn check_journal<R: Wait + Files<File = File> + AllocGlobal>(
    rt: &R,
    path: &str,
) -> Result<JournalFound, JournalFault> {
    match open_desk(rt, rt.alloc(), Limits::widest(), 1) {
        Ok((mut desk, _readers)) => {
            let read = read_journal(rt, path, &mut desk);
            let found = match read {
                Ok(recovered) => Ok(found_in(&desk, recovered)),
                Err(fault) => Err(fault),
            };
            desk.close(rt);
            found
        }
        Err(_) => Err(JournalFault::Memory),
    }
}

/// What a desk has of a journal that was read.
fn found_in(desk: &Desk, recovered: Recovered) -> JournalFound
    ensures edition { result.edition ≡ length desk.now.published }
    ensures mappings { result.mappings ≡ length (published_book desk.now).mappings }
    ensures digest { result.digest ≡ map_digest (published_book desk.now).mappings }
    ensures recovered { result.recovered ≡ recovered }
{
    JournalFound {
        edition: desk.edition(),
        mappings: desk.published().len(),
        digest: desk.digest(),
        recovered,
    }
}
