//! What a point changed.

use crate::interval::Interval;

/// What a point changed at an output, and what it takes to take that back.
#[derive(Drop)]
pub(crate) enum Change {
    /// It made the output.
    Made,
    /// It joined the open interval at this place.
    Joined(usize),
    /// It opened an interval, which stands at this place.
    Opened(usize),
    /// It opened a sixth interval, at this place of the six, of which the first was emitted;
    /// before, this was the greatest one emitted.
    Emitted {
        at: usize,
        interval: Interval,
        last: u32,
    },
}
