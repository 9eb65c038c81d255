//! Why a metric line is refused.

use crate::StampFault;
use fixed_num::NumFault;
use metric_path::PathFault;

/// Why a line has no datum: the first that holds.
#[derive(Clone, Copy, Debug, PartialEq, Eq)]
pub enum LineFault {
    /// The line has this many fields, and not three; `u32::MAX` stands for all greater counts.
    Fields(u32),
    /// The first field is no legal path. It never holds `NoMemory`.
    Path(PathFault),
    /// The second field is no value.
    Value(NumFault),
    /// The third field is no time.
    Time(StampFault),
    /// Memory ran out for the datum of a line that has one.
    NoMemory,
}
