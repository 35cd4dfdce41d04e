//! Why a server stopped before all its connections had ended.
ghost use Rattle.std.specs.Prelude.{◌≡◌};
ghost use Rattle.lost_server.specs.RunFault.{fault_of};

use lost_desk::OpenError;
use std::alloc::AllocError;
use thiserror::Error;

/// Why a server stopped before all its connections had ended.
#[derive(Clone, Copy, PartialEq, Eq, Debug, Error)]
pub enum RunFault {
    /// There are fewer than 1 or more than 64 workers.
    #[error("the number of workers is not from 1 to 64")]
    Workers,
    /// A listener failed again and again.
    #[error("no connection could be accepted")]
    Accept,
    /// Memory, a reader's place or a thread was refused.
    #[error("memory ran out")]
    Memory,
}

impl From<AllocError> for RunFault {
    ghost use Rattle.std.specs.Prelude.{◌≡◌};
    ghost use Rattle.lost_server.specs.declared.run_fault.RunFault.TheVariants.{Memory};

    ghost from_gives = { λ _ fault. fault ≡ Memory };

    fn from(_: AllocError) -> RunFault {
        RunFault::Memory
    }
}

/// The fault of the run when no desk could be opened.
pub(crate) fn fault_of_opening(error: OpenError) -> RunFault
    ensures { result ≡ fault_of error }
{
    match error {
        OpenError::Workers => RunFault::Workers,
        OpenError::Memory => RunFault::Memory,
    }
}
