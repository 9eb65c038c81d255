//! Why archives could not be read.
use outside_io::DiskFailed;
use std::alloc::{AllocError, AllocFailed};
use thiserror::Error;

/// Why archives could not be read.
#[derive(Clone, Copy, Debug, PartialEq, Eq, Error)]
pub enum RingFault {
    /// The disk failed.
    #[error("the disk failed")]
    DiskFault,
    /// There was no memory.
    #[error("there was no memory")]
    NoMemory,
}

impl From<DiskFailed> for RingFault {
    ghost use Rattle.std.specs.Prelude.{◌≡◌};
    ghost use Rattle.ring_archive.specs.declared.fault.RingFault.TheVariants.{DiskFault};

    ghost from_gives = { λ _ fault. fault ≡ DiskFault };

    fn from(_failed: DiskFailed) -> RingFault {
        RingFault::DiskFault
    }
}

impl From<AllocError> for RingFault {
    ghost use Rattle.std.specs.Prelude.{◌≡◌};
    ghost use Rattle.ring_archive.specs.declared.fault.RingFault.TheVariants.{NoMemory};

    ghost from_gives = { λ _ fault. fault ≡ NoMemory };

    fn from(_refused: AllocError) -> RingFault {
        RingFault::NoMemory
    }
}

impl<T: Drop> From<AllocFailed<T>> for RingFault {
    ghost use Rattle.std.specs.Prelude.{◌≡◌};
    ghost use Rattle.ring_archive.specs.declared.fault.RingFault.TheVariants.{NoMemory};

    ghost from_gives = { λ _ fault. fault ≡ NoMemory };

    fn from(_refused: AllocFailed<T>) -> RingFault {
        RingFault::NoMemory
    }
}
