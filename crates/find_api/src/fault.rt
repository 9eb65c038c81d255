//! Why a request for names is refused.
use std::alloc::AllocError;

/// Why the queries of a request are refused: the first that holds, in this order. `NoMemory` is free.
#[derive(Clone, Copy, Debug, PartialEq, Eq)]
pub enum FindFault {
    /// No parameter `query` has a text.
    NoQuery,
    /// More than 128 have one.
    TooManyQueries,
    /// The query with this number, from 1, is the first that is no glob.
    BadQuery(u32),
    /// Memory ran out.
    NoMemory,
}

impl From<AllocError> for FindFault {
    ghost use Rattle.std.specs.Prelude.{◌≡◌};
    ghost use Rattle.find_api.specs.declared.fault.FindFault.TheVariants.{NoMemory};

    ghost from_gives = { λ _ fault. fault ≡ NoMemory };

    fn from(_: AllocError) -> FindFault {
        FindFault::NoMemory
    }
}
