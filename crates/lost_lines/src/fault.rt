//! Why a stream was not served to its end.
use lost_spec::Coded;
use thiserror::Error;

/// Why a stream was not served to its end.
#[derive(Clone, Copy, PartialEq, Eq, Debug, Error)]
pub enum ServeError {
    /// A read of the input failed.
    #[error("the input could not be read")]
    Read,
    /// A write or a flush of the output failed, or a write took no byte.
    #[error("the output could not be written")]
    Write,
    /// As many lines were answered, or as many reads were made, as the turns allow, and the input had not ended; or the
    /// gate refused a line.
    #[error("the input has more than the turns allow")]
    TurnsSpent,
    /// Memory ran out before anything was read.
    #[error("memory ran out")]
    Memory,
}

/// The number of the fault, from 1 to 4 in the order of the variants.
impl Coded for ServeError {
    ghost use Rattle.lost_lines.specs.Fault.{serve_code};

    ghost code_of = { serve_code };

    fn code(self) -> u8 {
        match self {
            ServeError::Read => 1,
            ServeError::Write => 2,
            ServeError::TurnsSpent => 3,
            ServeError::Memory => 4,
        }
    }
}
