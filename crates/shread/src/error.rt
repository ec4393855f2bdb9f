//! Why a reader gives no answer.
ghost use Rattle.std.specs.Prelude.{◌≡◌};
ghost use Rattle.shread.specs.declared.error.ReadError.TheVariants.{Memory};

use std::alloc::AllocError;
use thiserror::Error;

/// Why a reader gives no answer. A fault of the script is an answer, and no error.
#[derive(Clone, Copy, Debug, PartialEq, Eq, Error)]
pub enum ReadError {
    /// Memory ran out; the reader can be used again.
    #[error("out of memory")]
    Memory = 3,
}

impl From<AllocError> for ReadError {
    ghost from_gives = { λ _ e. e ≡ Memory };

    fn from(_e: AllocError) -> ReadError {
        ReadError::Memory
    }
}
