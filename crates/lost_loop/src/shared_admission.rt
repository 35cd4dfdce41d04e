//! The admission of connections, which threads share.
ghost use Rattle.std.specs.Prelude.{◌≤◌};

use lost_connections::{Admission, ConnectionLimits, Refusal};
use lost_sockets::most_files;
use std::alloc::{AllocError, Global};
use std::hash::RandomState;
use std::net::IpAddr;
use std::random::RandomSource;
use std::sync::{Mutex, Wait};

/// The most files that a server has open beside those of its connections and workers.
const OTHER_FILES: u64 = 32;

/// How many files each worker has open.
const FILES_OF_A_WORKER: u64 = 2;

/// The open connections of a server, which its threads share.
#[derive(Drop)]
pub struct SharedAdmission {
    admission: Mutex<Admission>,
}

impl SharedAdmission {
    /// No connections, with these limits, watched by this many workers. If the program may not have that many files
    /// open, the limit on connections is lowered, so that one too many waits for no file. Addresses are hashed with
    /// random keys, which no client knows.
    ///
    /// # Errors
    ///
    /// If random keys are refused.
    pub fn new<R: RandomSource>(
        rt: &R,
        alloc: Global,
        limits: &ConnectionLimits,
        workers: usize,
    ) -> Result<SharedAdmission, AllocError> {
        let Ok(keys) = RandomState::new(rt) else {
            return Err(AllocError);
        };
        let most = most_open(limits.most_connections, workers as u64, most_files());
        Ok(SharedAdmission {
            admission: Mutex::new(Admission::new(alloc, most, limits.per_address, keys)),
        })
    }

    /// Admits a connection from an address, or from none.
    ///
    /// # Errors
    ///
    /// [`Refusal`]: it must be closed.
    pub fn enter<R: Wait>(&self, rt: &R, address: Option<IpAddr>) -> Result<(), Refusal> {
        self.admission.lock(rt).enter(address)
    }

    /// Counts that an admitted connection has ended.
    pub fn leave<R: Wait>(&self, rt: &R, address: Option<IpAddr>) {
        self.admission.lock(rt).leave(address);
    }
}

/// How many connections may be open, if `wished` are wished, there are this many workers, and the program may have
/// `files` files open.
fn most_open(wished: u32, workers: u64, files: Option<u64>) -> u32
    ensures { result ≤ wished }
{
    let Some(files) = files else {
        return wished;
    };
    let others = workers
        .saturating_mul(FILES_OF_A_WORKER)
        .saturating_add(OTHER_FILES);
    match u32::try_from(files.saturating_sub(others)) {
        Ok(room) => wished.min(room),
        Err(_) => wished,
    }
}
