//! What an output has open.
ghost use Rattle.std.specs.Prelude.{◌≡◌};

use crate::change::Change;
use crate::interval::{Interval, Points};
use crate::open_intervals::OpenIntervals;
use crate::timed_value::TimedValue;
use ring_format::Method;
use std::alloc::{AllocError, Global};

/// The most intervals of an output that are open.
const MOST_OPEN: usize = 5;

/// What an output has open, by which method its values become one, and the greatest interval that
/// it has emitted, 0 where none.
#[derive(Drop)]
pub(crate) struct Gathered {
    pub(crate) method: Method,
    pub(crate) intervals: OpenIntervals,
    pub(crate) last: u32,
}

impl Gathered {
    ghost use Rattle.std.specs.Prelude.{◌≡◌, ◌≤◌, IfOk, OnErr, length};
    ghost use Rattle.aggregate_front.specs.Gathering.{most_open, Changes, IsSound, IsWithin, Opens, is_late, new_gathered, opens_sixth, undone};

    /// Nothing open.
    pub(crate) fn new(alloc: Global, method: Method) -> Gathered
        ensures { result ≡ new_gathered method }
    {
        Gathered {
            method,
            intervals: OpenIntervals::new(alloc),
            last: 0,
        }
    }

    /// Whether an interval is emitted already, or lies before one that is.
    pub(crate) fn is_late(&self, start: u32) -> bool
        ensures { result ≡ is_late self.now start }
    {
        start <= self.last
    }

    /// Whether a point would open a sixth interval.
    pub(crate) fn opens_sixth(&self, start: u32) -> bool
        ensures { result ≡ opens_sixth self.now start }
    {
        !self.intervals.has(start) && self.intervals.len() >= MOST_OPEN
    }

    /// Takes a point into its interval, which is not late. Want of memory changes nothing.
    pub(crate) fn take(
        &mut self,
        alloc: Global,
        start: u32,
        point: TimedValue,
    ) -> Result<Change, AllocError>
        requires sound { IsSound self.old }
        ensures change { IfOk result (Changes self.old self.new start point) }
        ensures err { OnErr result (self.new ≡ self.old) }
    {
        let at = self.intervals.place_of(start);
        if self.intervals.is_at(at, start) {
            self.intervals.join(at, point)?;
            return Ok(Change::Joined(at));
        }
        let points = Points::of(alloc, point)?;
        self.open_interval(at, Interval { start, points })
    }

    // Opens an interval at its place, and emits the first where it is the sixth.
    fn open_interval(&mut self, at: usize, interval: Interval) -> Result<Change, AllocError>
        requires place { at ≤ length self.old.intervals }
        requires few { length self.old.intervals ≤ most_open }
        ensures opens { IfOk result (Opens self.old self.new at interval) }
        ensures err { OnErr result (self.new ≡ self.old) }
    {
        if self.intervals.len() < MOST_OPEN {
            self.intervals.insert(at, interval)?;
            return Ok(Change::Opened(at));
        }
        let interval = self.intervals.shift(at, interval);
        let last = self.last;
        self.last = interval.start;
        Ok(Change::Emitted { at, interval, last })
    }

    /// Takes back a change.
    #[tactic(auto, unfolding(crate::specs::Gathering::undone))]
    pub(crate) fn undo(&mut self, change: Change)
        requires { IsWithin self.old change }
        ensures { self.new ≡ undone self.old change }
    {
        match change {
            Change::Made => {}
            Change::Joined(at) => self.intervals.part(at),
            Change::Opened(at) => self.intervals.remove(at),
            Change::Emitted { at, interval, last } => {
                self.intervals.shift_back(at, interval);
                self.last = last;
            }
        }
    }
}
