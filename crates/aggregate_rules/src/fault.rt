//! Why aggregation rules are refused.

use std::alloc::{AllocError, AllocFailed};
use thiserror::Error;

/// Why a file of aggregation rules is refused.
#[derive(Clone, Copy, Debug, PartialEq, Eq)]
pub enum AggCause {
    /// The file has more than 1,048,576 bytes.
    TooLong,
    /// The line with this number, from 1, is neither empty nor a comment, and says no rule.
    Line(u32),
}

/// Why there are no aggregation rules.
#[derive(Clone, Copy, Debug, PartialEq, Eq, Error)]
pub enum AggFault {
    /// The file is refused.
    #[error("the aggregation rules are refused")]
    Fault(AggCause),
    /// Memory ran out.
    #[error("out of memory")]
    NoMemory,
}

impl From<AllocError> for AggFault {
    ghost use Rattle.std.specs.Prelude.{◌≡◌};
    ghost use Rattle.aggregate_rules.specs.declared.fault.AggFault.TheVariants.{NoMemory};

    ghost from_gives = { λ _ fault. fault ≡ NoMemory };

    fn from(_: AllocError) -> AggFault {
        AggFault::NoMemory
    }
}

impl<T: Drop> From<AllocFailed<T>> for AggFault {
    ghost use Rattle.std.specs.Prelude.{◌≡◌};
    ghost use Rattle.aggregate_rules.specs.declared.fault.AggFault.TheVariants.{NoMemory};

    ghost from_gives = { λ _ fault. fault ≡ NoMemory };

    fn from(_: AllocFailed<T>) -> AggFault {
        AggFault::NoMemory
    }
}
