//! Open intervals.
ghost use Rattle.std.specs.Prelude.{◌≡◌, ◌≤◌, [], ◌∷◌, ◌++◌, IfOk, OnOk, OnErr, length, take, ◌-◌};
ghost use Rattle.rollup.specs.Rollup.{rolled};
ghost use Rattle.aggregate_front.specs.TimeOrder.{in_time_order, values_of};

use crate::timed_value::TimedValue;
use fixed_num::Milli;
use ring_format::Method;
use rollup::roll;
use std::alloc::{AllocError, Global};
use std::marker::Model;

/// The points of an interval in the order in which they came. Contracts see the list of them.
#[derive(Drop)]
pub(crate) struct Points {
    items: Vec<TimedValue>,
}

impl Model for Points {
    ghost use Rattle.std.specs.Prelude.{List};
    ghost use Rattle.aggregate_front.specs.declared.timed_value.TimedValue.{TimedValue as Timed};

    ghost Value = { List Timed };

    ghost view = { λ p. p.items.items };
}

impl Points {
    /// One point.
    pub(crate) fn of(alloc: Global, point: TimedValue) -> Result<Points, AllocError>
        ensures { IfOk result (λ points. points ≡ point ∷ []) }
    {
        let mut items = Vec::new(alloc);
        items.push(point)?;
        Ok(Points { items })
    }

    /// How many points there are.
    pub(crate) fn len(&self) -> usize
        ensures { result ≡ length self.now }
    {
        self.items.len()
    }

    /// Adds a point.
    pub(crate) fn push(&mut self, point: TimedValue) -> Result<(), AllocError>
        ensures ok { OnOk result (self.new ≡ self.old ++ point ∷ []) }
        ensures err { OnErr result (self.new ≡ self.old) }
    {
        self.items.push(point)?;
        Ok(())
    }

    /// Takes back the last point.
    pub(crate) fn take_back(&mut self)
        ensures { self.new ≡ take (length self.old - 1) self.old }
    {
        let _ = self.items.pop();
    }

    /// The value that the points have together: `None` where it is not that of any [`Milli`].
    pub(crate) fn value(&self, alloc: Global, method: Method) -> Result<Option<Milli>, AllocError>
        requires { length self.now ≤ 31_536_000 }
        ensures { IfOk result (λ value.
            value ≡ rolled method (values_of (in_time_order self.now)) (length self.now)) }
    {
        let mut ordered = Vec::from_slice(alloc, self.items.as_slice())?;
        ordered.sort()?;
        let known = values_of(alloc, ordered.as_slice())?;
        Ok(roll(method, known.as_slice(), known.len() as u32))
    }
}

// The values of points.
fn values_of(alloc: Global, points: &[TimedValue]) -> Result<Vec<Milli>, AllocError>
    ensures { IfOk result (λ values. values.items ≡ values_of points.now) }
{
    points.iter().map(|point| point.value).collect(alloc)
}

/// An open interval: its start in seconds since the Unix epoch, and the points that came in it.
#[derive(Drop)]
pub(crate) struct Interval {
    pub(crate) start: u32,
    pub(crate) points: Points,
}
