//! Why a query is refused.
ghost use Rattle.std.specs.Prelude.{◌≡◌};

use std::alloc::AllocError;
use thiserror::Error;

/// Why a query is refused: the first that holds, in this order, the targets one after the other. Targets are numbered from 1, and those that
/// are empty do not count. `NoMemory` is free.
#[derive(Clone, Copy, Debug, PartialEq, Eq, Error)]
pub enum QueryFault {
    /// No parameter `target` has a text.
    #[error("no target")]
    NoTarget,
    /// More than 128 have one.
    #[error("too many targets")]
    TooManyTargets,
    /// This target is not in the grammar.
    #[error("target {0}: {1}")]
    Target(u32, TargetCause),
    /// This target calls a function that there is not.
    #[error("target {0}: unknown function")]
    UnknownFunction(u32),
    /// This target calls a function with arguments that it does not take.
    #[error("target {0}: bad argument")]
    BadArgument(u32),
    /// `from` or `until` is no time.
    #[error("bad time")]
    BadTime,
    /// `from` is later than `until`.
    #[error("from after until")]
    BadRange,
    /// `format` is none of `json`, `raw` and `csv`.
    #[error("bad format")]
    BadFormat,
    /// `maxDataPoints` is no number from 1 to 999,999,999, in at most nine digits.
    #[error("bad maxDataPoints")]
    BadPoints,
    /// Memory ran out.
    #[error("no memory")]
    NoMemory,
}

/// Why a target is not in the grammar.
#[derive(Clone, Copy, Debug, PartialEq, Eq, Error)]
pub enum TargetCause {
    /// No reading goes on at the byte at this place, from 0, or at the target's end.
    #[error("unreadable at {0}")]
    At(usize),
    /// A bracket opens a call within 32 others.
    #[error("too deep")]
    TooDeep,
    /// The target has more than 16,384 bytes.
    #[error("too long")]
    TooLong,
}

impl From<AllocError> for QueryFault {
    ghost use Rattle.std.specs.Prelude.{◌≡◌};
    ghost use Rattle.render_plan.specs.declared.fault.QueryFault.TheVariants.{NoMemory};

    ghost from_gives = { λ _ fault. fault ≡ NoMemory };

    fn from(_: AllocError) -> QueryFault {
        QueryFault::NoMemory
    }
}
