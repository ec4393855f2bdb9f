//! Why a session refuses a script or an edit.
ghost use Rattle.std.specs.Prelude.{◌≡◌};
ghost use Rattle.shlive.specs.Answers.{as_live};
ghost use Rattle.shlive.specs.declared.error.LiveError.TheVariants.{Memory};

use shtext::TextError;
use std::alloc::AllocError;
use thiserror::Error;

/// Why a session does not take a script or an edit. The numbers are fixed. An edit is tested in this order:
/// range, order, size, memory.
#[derive(Clone, Copy, Debug, PartialEq, Eq, Error)]
pub enum LiveError {
    /// A splice begins after its end, or ends past the end of the script.
    #[error("out of range")]
    Range = 1,
    /// The script would have more bytes than a script may have.
    #[error("too large")]
    TooLarge = 2,
    /// Memory ran out.
    #[error("out of memory")]
    Memory = 3,
    /// A splice begins before the end of the one before it.
    #[error("out of order")]
    Order = 5,
}

impl From<TextError> for LiveError {
    ghost from_gives = { λ old new. new ≡ as_live old };

    fn from(e: TextError) -> LiveError {
        match e {
            TextError::Range => LiveError::Range,
            TextError::TooLarge => LiveError::TooLarge,
            TextError::Memory => LiveError::Memory,
            TextError::Order => LiveError::Order,
        }
    }
}

impl From<AllocError> for LiveError {
    ghost from_gives = { λ _ e. e ≡ Memory };

    fn from(_e: AllocError) -> LiveError {
        LiveError::Memory
    }
}
