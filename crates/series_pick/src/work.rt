//! How much work functions count as. One is a nanosecond or two, at worst.
use crate::kinds::Choose;
use name_pattern::{PatternText, Weight};
use series_set::SeriesSet;

/// What it is to measure a value.
const VALUE: u64 = 4;

/// What it is to look for a node by its number, or to write what a character of a replacement says.
const NODE: u64 = 8;

/// What it is to read a byte of a pattern's text, and more for each of its classes.
const TEXT: u64 = 400;

const CLASS: u64 = 10_000;

/// What it is to make a pattern ready, and more for each of its states.
const READY: u64 = 20_000;

const STATE: u64 = 100;

/// The states that fit what those of a pattern may take.
const MOST_STATES: u64 = 65_536;

/// What a search is, and more for each byte of the name.
const SEARCH: u64 = 128;

const READ: u64 = 4;

/// What it is to follow a set of places over a byte for the first time, and more for each of them.
const STEP: u64 = 64;

const PLACE: u64 = 8;

/// A pattern with more sets of places may forget them as it goes.
const MOST_SETS: u64 = 10_000;

/// Of how many kinds the bytes of names are.
const KINDS: u64 = 64;

/// How much it is to measure the series, where the function does.
pub(crate) fn of_measures(kind: &Choose, set: &SeriesSet) -> u64 {
    match kind {
        Choose::Alias { .. }
        | Choose::AliasByNode { .. }
        | Choose::AliasByMetric
        | Choose::Limit { .. }
        | Choose::SortByName
        | Choose::Grep { .. }
        | Choose::Exclude { .. }
        | Choose::AliasSub { .. } => 0,
        _ => of_values(set),
    }
}

fn of_values(set: &SeriesSet) -> u64 {
    let mut all: u64 = 0;
    for series in set.as_slice() {
        all = all.saturating_add(VALUE.saturating_mul(series.values().len() as u64));
    }
    all
}

/// How much it is to make a name of nodes with so many numbers.
pub(crate) fn of_nodes(numbers: usize) -> u64 {
    NODE.saturating_mul(numbers as u64)
}

/// How much it is to read a pattern's text.
pub(crate) fn of_text(pattern: &PatternText) -> u64 {
    TEXT.saturating_mul(pattern.len() as u64)
        .saturating_add(CLASS.saturating_mul(pattern.classes() as u64))
}

/// How much it is to make a pattern ready to be searched.
pub(crate) fn of_ready(weight: Weight) -> u64 {
    READY.saturating_add(STATE.saturating_mul(weight.states.min(MOST_STATES)))
}

/// How much it is to write a replacement of so many bytes.
pub(crate) fn of_replacement(bytes: usize) -> u64 {
    NODE.saturating_mul(bytes as u64)
}

/// Searches for a pattern, as far as they are work. A step that was taken once is known then, unless there are too many.
#[derive(Clone, Copy)]
pub(crate) struct Searches {
    /// What a step is that is not known.
    step: u64,
    /// How many steps may not be known yet.
    fresh: u64,
}

impl Searches {
    /// None yet, of a pattern of this weight.
    pub(crate) fn new(weight: Weight) -> Searches {
        let fresh = if weight.sets > MOST_SETS {
            u64::MAX
        } else {
            KINDS.saturating_mul(weight.sets)
        };
        Searches {
            step: STEP.saturating_add(PLACE.saturating_mul(weight.places)),
            fresh,
        }
    }

    /// How much it is to search a name of so many bytes for a match, at worst.
    pub(crate) fn of_name(&self, bytes: usize) -> u64 {
        let bytes = (bytes as u64).saturating_add(1);
        let fresh = self.step.saturating_mul(bytes.min(self.fresh));
        SEARCH
            .saturating_add(READ.saturating_mul(bytes))
            .saturating_add(fresh)
    }

    /// Such a name was searched so often.
    pub(crate) fn note(&mut self, bytes: usize, count: u64) {
        if self.fresh < u64::MAX {
            let steps = (bytes as u64).saturating_add(1).saturating_mul(count);
            self.fresh = self.fresh.saturating_sub(steps);
        }
    }
}
