//! Why a try of a question has no rows.
use crate::ask_fault::AskFault;
use std::alloc::{AllocError, AllocFailed};

/// Why a try of a question has no rows.
#[derive(Clone, Copy, Debug, PartialEq, Eq)]
pub(crate) enum TryEnd {
    /// A metric that it found was drained before it was read.
    Moved,
    /// The question has ended.
    Ended(AskFault),
}

impl From<AllocError> for TryEnd {
    ghost use Rattle.std.specs.Prelude.{◌≡◌};
    ghost use Rattle.shared_store.specs.declared.ask_fault.AskFault.TheVariants.{NoMemory};
    ghost use Rattle.shared_store.specs.declared.try_end.TryEnd.TheVariants.{Ended};

    ghost from_gives = { λ _ end. end ≡ Ended NoMemory };

    fn from(_refused: AllocError) -> TryEnd {
        TryEnd::Ended(AskFault::NoMemory)
    }
}

impl<T: Drop> From<AllocFailed<T>> for TryEnd {
    ghost use Rattle.std.specs.Prelude.{◌≡◌};
    ghost use Rattle.shared_store.specs.declared.ask_fault.AskFault.TheVariants.{NoMemory};
    ghost use Rattle.shared_store.specs.declared.try_end.TryEnd.TheVariants.{Ended};

    ghost from_gives = { λ _ end. end ≡ Ended NoMemory };

    fn from(_refused: AllocFailed<T>) -> TryEnd {
        TryEnd::Ended(AskFault::NoMemory)
    }
}
