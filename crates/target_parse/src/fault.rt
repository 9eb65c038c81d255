//! Why a text is no target.
ghost use Rattle.std.specs.Prelude.{◌≡◌};
ghost use Rattle.target_parse.specs.Reading.{fault_in, glob_stop};

use path_glob::GlobFault;
use std::alloc::AllocError;

/// Why a text is no target: the first fault, read from the left. `NoMemory` is free.
#[derive(Clone, Copy, Debug, PartialEq, Eq)]
pub enum TargetFault {
    /// No reading goes on at the byte at this place, from 0, or at the text's end. For a fault of a glob
    /// it is the fault's place, and the glob's first byte where the glob is too long.
    At(usize),
    /// A bracket opens a call within 32 others.
    TooDeep,
    /// The text has more than 16,384 bytes.
    TooLong,
    /// Memory ran out.
    NoMemory,
}

// Why a reader stops: where so many bytes are left, or for another cause.
#[derive(Clone, Copy)]
pub(crate) enum Stop {
    Left(usize),
    TooDeep,
    NoMemory,
}

impl From<AllocError> for Stop {
    ghost use Rattle.std.specs.Prelude.{◌≡◌};
    ghost use Rattle.target_parse.specs.declared.fault.Stop.TheVariants.{NoMemory};

    ghost from_gives = { λ _ stop. stop ≡ NoMemory };

    fn from(_: AllocError) -> Stop {
        Stop::NoMemory
    }
}

/// The fault of a target of so many bytes.
pub(crate) fn fault_in(bytes: usize, stop: Stop) -> TargetFault
    ensures { result ≡ fault_in bytes stop }
{
    match stop {
        Stop::Left(left) => TargetFault::At(bytes.saturating_sub(left)),
        Stop::TooDeep => TargetFault::TooDeep,
        Stop::NoMemory => TargetFault::NoMemory,
    }
}

/// The stop at a glob's fault, where the glob and what follows it have so many bytes.
pub(crate) fn glob_stop(bytes: usize, fault: GlobFault) -> Stop
    ensures { result ≡ glob_stop bytes fault }
{
    match fault {
        GlobFault::TooLong => Stop::Left(bytes),
        GlobFault::EmptyNode(at) => Stop::Left(bytes.saturating_sub(at)),
        GlobFault::BadByte(at) => Stop::Left(bytes.saturating_sub(at)),
        GlobFault::Unclosed(at) => Stop::Left(bytes.saturating_sub(at)),
        GlobFault::NoMemory => Stop::NoMemory,
    }
}
