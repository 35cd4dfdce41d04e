//! Why a reader gets no cache.
use lost_spec::Coded;
use thiserror::Error;

/// Why a reader gets no cache.
#[derive(Clone, Copy, PartialEq, Eq, Debug, Error)]
pub enum CacheError {
    #[error("the capacity is not from 1 to 65,536")]
    Capacity,
    #[error("memory ran out")]
    Memory,
}

/// The number of the refusal, 1 or 2.
impl Coded for CacheError {
    ghost use Rattle.lost_worker.specs.Codes.{cache_code};

    ghost code_of = { cache_code };

    fn code(self) -> u8 {
        match self {
            CacheError::Capacity => 1,
            CacheError::Memory => 2,
        }
    }
}
