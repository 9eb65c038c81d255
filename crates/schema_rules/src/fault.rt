//! Why rule files are refused.

use ring_format::LayoutFault;
use std::alloc::{AllocError, AllocFailed};
use thiserror::Error;

/// One of the two rule files.
#[derive(Clone, Copy, Debug, PartialEq, Eq)]
pub enum RuleFile {
    /// `storage-schemas.conf`.
    Schemas,
    /// `storage-aggregation.conf`.
    Aggregations,
}

/// Why a rule file is refused. Numbers are those of a line or of a section, from 1.
#[derive(Clone, Copy, Debug, PartialEq, Eq)]
pub enum RuleCause {
    /// The file has more than 1,048,576 bytes.
    TooLong,
    /// The line has no form of a line, or a key stands before the first section.
    Line(u32),
    /// The section's pattern is no regular expression, or one that nests too deeply.
    BadPattern(u32),
    /// The section's retentions are not a list of `step:history`.
    BadRetention(u32),
    /// The section's archives are no lawful layout.
    BadLayout(u32, LayoutFault),
    /// The section's `xFilesFactor` is no decimal from 0 to 1.
    BadFactor(u32),
    /// The section's `aggregationMethod` is no method.
    BadMethod(u32),
}

/// Why there are no rules.
#[derive(Clone, Copy, Debug, PartialEq, Eq, Error)]
pub enum RuleFault {
    /// A file is refused.
    #[error("a rule file is refused")]
    Fault(RuleFile, RuleCause),
    /// Memory ran out.
    #[error("out of memory")]
    NoMemory,
}

/// Why the reading of a file stops.
#[derive(Clone, Copy, Debug, PartialEq, Eq)]
pub(crate) enum Stop {
    /// The file is refused.
    Cause(RuleCause),
    /// Memory ran out.
    OutOfMemory,
}

impl From<AllocError> for Stop {
    ghost use Rattle.std.specs.Prelude.{◌≡◌};
    ghost use Rattle.schema_rules.specs.declared.fault.Stop.TheVariants.{OutOfMemory};

    ghost from_gives = { λ _ stop. stop ≡ OutOfMemory };

    fn from(_: AllocError) -> Stop {
        Stop::OutOfMemory
    }
}

impl<T: Drop> From<AllocFailed<T>> for Stop {
    ghost use Rattle.std.specs.Prelude.{◌≡◌};
    ghost use Rattle.schema_rules.specs.declared.fault.Stop.TheVariants.{OutOfMemory};

    ghost from_gives = { λ _ stop. stop ≡ OutOfMemory };

    fn from(_: AllocFailed<T>) -> Stop {
        Stop::OutOfMemory
    }
}
