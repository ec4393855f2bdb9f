//! What ends a reading before its end: memory, or a fault of the script.
ghost use Rattle.std.specs.Prelude.{◌≡◌, IfErr, IfOk};
ghost use Rattle.shline.specs.declared.stop.Stop.TheVariants.{Memory};

use shgrammar::Fault;
use std::alloc::{AllocError, AllocFailed};

/// What ends a reading before its end.
#[derive(Clone, Copy, Debug)]
pub enum Stop {
    /// Memory ran out.
    Memory,
    /// The fault at which the reading stops.
    Wrong(Fault),
}

impl Stop {
    /// The fault at which the reading stops.
    ///
    /// # Errors
    ///
    /// [`AllocError`], where memory ran out.
    pub fn fault(self) -> Result<Fault, AllocError>
        ensures wrong { IfOk result (λ fault. self ≡ Stop.Wrong fault) }
        ensures memory { IfErr result (λ _. self ≡ Stop.Memory) }
    {
        match self {
            Stop::Wrong(fault) => Ok(fault),
            Stop::Memory => Err(AllocError),
        }
    }
}

impl From<AllocError> for Stop {
    ghost from_gives = { λ _ e. e ≡ Memory };

    fn from(_e: AllocError) -> Stop {
        Stop::Memory
    }
}

impl<T: Drop> From<AllocFailed<T>> for Stop {
    ghost from_gives = { λ _ e. e ≡ Memory };

    fn from(_e: AllocFailed<T>) -> Stop {
        Stop::Memory
    }
}
