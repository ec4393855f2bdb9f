//! Why a buffer refuses an edit.
ghost use Rattle.std.specs.Prelude.{◌≡◌};
ghost use Rattle.shtext.specs.declared.error.TextError.TheVariants.{Memory};

use std::alloc::AllocError;
use thiserror::Error;

/// Why a text was not taken. The numbers are fixed. An edit is tested in this order: range, order, size,
/// memory.
#[derive(Clone, Copy, Debug, PartialEq, Eq, Error)]
pub enum TextError {
    /// A splice begins after its end, or ends past the end of the text.
    #[error("out of range")]
    Range = 1,
    /// The edited text has more bytes than a text may have.
    #[error("too large")]
    TooLarge = 2,
    /// Memory ran out.
    #[error("out of memory")]
    Memory = 3,
    /// A splice begins before the end of the one before it.
    #[error("out of order")]
    Order = 5,
}

impl From<AllocError> for TextError {
    ghost from_gives = { λ _ e. e ≡ Memory };

    fn from(_e: AllocError) -> TextError {
        TextError::Memory
    }
}
