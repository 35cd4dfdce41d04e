//! Why a desk cannot be opened, or cannot commit.
use lost_spec::Coded;
use thiserror::Error;

/// Why a desk cannot be opened.
#[derive(Clone, Copy, PartialEq, Eq, Debug, Error)]
pub enum OpenError {
    #[error("the number of workers is not from 1 to 64")]
    Workers,
    #[error("memory ran out")]
    Memory,
}

/// Why a desk cannot commit.
#[derive(Clone, Copy, PartialEq, Eq, Debug, Error)]
pub enum CommitError {
    #[error("memory ran out")]
    Memory,
}

/// The number of the refusal, 1 or 2.
impl Coded for OpenError {
    ghost use Rattle.lost_desk.specs.Codes.{open_code};

    ghost code_of = { open_code };

    fn code(self) -> u8 {
        match self {
            OpenError::Workers => 1,
            OpenError::Memory => 2,
        }
    }
}

/// The number of the refusal, 1.
impl Coded for CommitError {
    ghost use Rattle.lost_desk.specs.Codes.{commit_code};

    ghost code_of = { commit_code };

    fn code(self) -> u8 {
        match self {
            CommitError::Memory => 1,
        }
    }
}
