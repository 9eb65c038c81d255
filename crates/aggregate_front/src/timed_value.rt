//! Values with their times, in order of time.

use fixed_num::Milli;
use std::cmp::Ordering;

/// The value of a point, and its time in seconds since the Unix epoch. Two of the same time are
/// neither before nor behind each other, whatever their values.
#[derive(Clone, Copy, Debug)]
pub(crate) struct TimedValue {
    pub(crate) time: u32,
    pub(crate) value: Milli,
}

impl PartialEq for TimedValue {
    ghost use Rattle.std.specs.Prelude.{◌==◌};
    ghost use Rattle.std.proofs.Common.{rules};
    ghost use Rattle.std.specs.Cmp.Rules.{comparing};

    ghost eq = { λ p q. p.time == q.time };

    ghost laws = { Prim.search (comparing, rules) };

    fn eq(&self, other: &TimedValue) -> bool {
        self.time == other.time
    }
}

impl Eq for TimedValue {
    ghost use Rattle.std.proofs.Common.{rules};
    ghost use Rattle.std.specs.Cmp.Rules.{comparing};

    ghost laws = { Prim.search (comparing, rules) };
}

impl Ord for TimedValue {
    ghost use Rattle.std.proofs.Common.{rules};
    ghost use Rattle.std.specs.Cmp.Rules.{comparing};
    ghost use Rattle.std.specs.Ordering.{nat_cmp, on};

    ghost cmp = { on (λ p. p.time) nat_cmp };

    ghost total = { Prim.search (comparing, rules) };

    ghost matches_partial_cmp = { Prim.search (comparing, rules) };

    ghost matches_eq = { Prim.search (comparing, rules) };

    fn cmp(&self, other: &TimedValue) -> Ordering {
        self.time.cmp(&other.time)
    }
}

impl PartialOrd for TimedValue {
    ghost use Rattle.std.proofs.Common.{rules};
    ghost use Rattle.std.specs.Cmp.{partial_order_from_own_ties};
    ghost use Rattle.std.specs.Cmp.Rules.{comparing};
    ghost use Rattle.std.specs.Ordering.{as_partial_cmp, nat_cmp, on};

    ghost partial_cmp = { as_partial_cmp (on (λ p. p.time) nat_cmp) };

    ghost laws = { partial_order_from_own_ties (Prim.search (comparing, rules)) (Prim.search (comparing, rules)) };

    fn partial_cmp(&self, other: &TimedValue) -> Option<Ordering> {
        Some(self.cmp(other))
    }
}
