//! Why an item isn't taken.

use crate::fault_kinds::FaultKind;
use std::alloc::{AllocError, AllocFailed};

/// Why an item isn't taken.
#[derive(Debug, Clone, Copy, PartialEq, Eq)]
pub(crate) enum Stop {
    /// It has a fault of this kind.
    Fault(FaultKind),
    /// Memory was refused.
    NoMemory,
}

impl From<AllocError> for Stop {
    ghost use Rattle.std.specs.Prelude.{◌≡◌};
    ghost use Rattle.fzn_model.specs.declared.stop.Stop.{Stop as Reason};

    ghost from_gives = { λ _ e. e ≡ Reason.NoMemory };

    fn from(_error: AllocError) -> Stop {
        Stop::NoMemory
    }
}

impl<T: Drop> From<AllocFailed<T>> for Stop {
    ghost use Rattle.std.specs.Prelude.{◌≡◌};
    ghost use Rattle.fzn_model.specs.declared.stop.Stop.{Stop as Reason};

    ghost from_gives = { λ _ e. e ≡ Reason.NoMemory };

    fn from(_error: AllocFailed<T>) -> Stop {
        Stop::NoMemory
    }
}
