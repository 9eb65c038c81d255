//! The open intervals of an output.
ghost use Rattle.std.specs.Prelude.{◌≡◌, ◌<◌, ◌≤◌, ◌∷◌, [], OnOk, OnErr, insert, length, nat_le, position, remove};
ghost use Rattle.aggregate_front.specs.Intervals.{is_open};

use crate::interval::Interval;
use crate::timed_value::TimedValue;
use std::alloc::{AllocError, Global};
use std::marker::Model;

/// Open intervals in rising order.
#[derive(Drop)]
pub(crate) struct OpenIntervals {
    items: Vec<Interval>,
}

impl Model for OpenIntervals {
    ghost use Rattle.std.specs.Prelude.{List};
    ghost use Rattle.aggregate_front.specs.declared.interval.Interval.{Interval as Open};

    ghost Value = { List Open };

    ghost view = { λ o. o.items.items };
}

impl OpenIntervals {
    ghost use Rattle.std.specs.List.{position_or_len};
    ghost use Rattle.aggregate_front.specs.Intervals.{is_open, is_start_at, joined, parted};

    /// No intervals.
    pub(crate) fn new(alloc: Global) -> OpenIntervals
        ensures { result ≡ [] }
    {
        OpenIntervals {
            items: Vec::new(alloc),
        }
    }

    /// How many are open.
    pub(crate) fn len(&self) -> usize
        ensures { result ≡ length self.now }
    {
        self.items.len()
    }

    /// The intervals as a slice.
    pub(crate) fn as_slice(&self) -> &[Interval]
        ensures { result.now ≡ self.now }
    {
        self.items.as_slice()
    }

    /// The place of the first interval that does not start before a moment, or the number of
    /// intervals where all do.
    pub(crate) fn place_of(&self, start: u32) -> usize
        ensures place { result ≡ position_or_len (λ i. nat_le start i.start) self.now }
        ensures within { result ≤ length self.now }
    {
        first_from(self.items.as_slice(), start).unwrap_or(self.items.len())
    }

    /// Whether an interval that starts then is open.
    pub(crate) fn has(&self, start: u32) -> bool
        ensures { result ≡ is_open self.now start }
    {
        has_start(self.items.as_slice(), start)
    }

    /// Whether an interval that starts then stands at a place.
    pub(crate) fn is_at(&self, at: usize, start: u32) -> bool
        ensures { result ≡ is_start_at self.now at start }
    {
        match self.items.get(at) {
            Some(interval) => return interval.start == start,
            None => return false,
        }
    }

    /// A point joins the interval at a place.
    pub(crate) fn join(&mut self, at: usize, point: TimedValue) -> Result<(), AllocError>
        requires { at < length self.old }
        ensures ok { OnOk result (self.new ≡ joined self.old at point) }
        ensures err { OnErr result (self.new ≡ self.old) }
    {
        self.items[at].points.push(point)
    }

    /// Takes back the last point of the interval at a place.
    pub(crate) fn part(&mut self, at: usize)
        requires { at < length self.old }
        ensures { self.new ≡ parted self.old at }
    {
        self.items[at].points.take_back();
    }

    /// Opens an interval at a place.
    pub(crate) fn insert(&mut self, at: usize, interval: Interval) -> Result<(), AllocError>
        requires { at ≤ length self.old }
        ensures ok { OnOk result (self.new ≡ insert self.old at interval) }
        ensures err { OnErr result (self.new ≡ self.old) }
    {
        self.items.insert(at, interval)?;
        Ok(())
    }

    /// Takes away the interval at a place.
    pub(crate) fn remove(&mut self, at: usize)
        requires { at < length self.old }
        ensures { self.new ≡ remove self.old at }
    {
        let _ = self.items.remove(at);
    }

    /// Opens an interval at a place, and takes away the first of all. That takes no memory.
    pub(crate) fn shift(&mut self, at: usize, interval: Interval) -> Interval
        requires { at ≤ length self.old }
        ensures { result ∷ self.new ≡ insert self.old at interval }
    {
        if at == 0 {
            return interval;
        }
        let first = self.items.remove(0);
        match self.items.insert(at - 1, interval) {
            Ok(()) => first,
            Err(_) => unreachable!(),
        }
    }

    /// Takes back what [`OpenIntervals::shift`] did at a place, with what it gave.
    pub(crate) fn shift_back(&mut self, at: usize, first: Interval)
        requires { at ≤ length self.old }
        ensures { self.new ≡ remove (first ∷ self.old) at }
    {
        if at == 0 {
            return;
        }
        let _ = self.items.remove(at - 1);
        match self.items.insert(0, first) {
            Ok(()) => {}
            Err(_) => unreachable!(),
        }
    }
}

fn has_start(intervals: &[Interval], start: u32) -> bool
    ensures { result ≡ is_open intervals.now start }
{
    intervals.iter().any(|interval| interval.start == start)
}

// The first interval that does not start before a moment.
fn first_from(intervals: &[Interval], start: u32) -> Option<usize>
    ensures { result ≡ position (λ i. nat_le start i.start) intervals.now }
{
    intervals
        .iter()
        .position(|interval| interval.start >= start)
}
