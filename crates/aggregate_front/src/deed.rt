//! What a point changed at its outputs.

use crate::change::Change;
use metric_line::Datum;

/// What a point changed at the output at a place.
#[derive(Drop)]
pub(crate) struct Deed {
    pub(crate) place: usize,
    pub(crate) change: Change,
}

/// What a point did at an output: a deed, and the point that was emitted, if one was.
#[derive(Drop)]
pub(crate) struct Done {
    pub(crate) deed: Deed,
    pub(crate) datum: Option<Datum>,
}
