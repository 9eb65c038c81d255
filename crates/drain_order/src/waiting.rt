use metric_path::MetricPath;
use std::cmp::Ordering;

/// A metric as the queue sees it: its path, and how many points it had when the queue was made. Most points come first, and then the
/// lesser path.
#[derive(Drop)]
pub(crate) struct Waiting {
    pub(crate) count: usize,
    pub(crate) path: MetricPath,
}

impl PartialEq for Waiting {
    ghost use Rattle.std.specs.Prelude.{◌==◌};
    ghost use Rattle.std.specs.Str.{bytes_eq};
    ghost use Rattle.std.specs.Ordering.{eq_of_both, on};
    ghost use Rattle.std.proofs.Common.{rules};
    ghost use Rattle.std.specs.Cmp.Rules.{comparing};

    ghost eq = { eq_of_both (on (λ w. w.count) ◌==◌) (on (λ w. w.path) bytes_eq) };

    ghost laws = { Prim.search (comparing, rules) };

    fn eq(&self, other: &Waiting) -> bool {
        self.count == other.count && self.path == other.path
    }
}

impl Eq for Waiting {
    ghost use Rattle.std.proofs.Common.{rules};
    ghost use Rattle.std.specs.Cmp.Rules.{comparing};

    ghost laws = { Prim.search (comparing, rules) };
}

impl Ord for Waiting {
    ghost use Rattle.std.proofs.Common.{rules};
    ghost use Rattle.std.specs.Cmp.Rules.{comparing};
    ghost use Rattle.std.specs.Cmp.Lexicographic.{slice_cmp};
    ghost use Rattle.std.specs.Ordering.{flip_args, nat_cmp, on, then_cmp};

    ghost cmp = { then_cmp (flip_args (on (λ w. w.count) nat_cmp)) (on (λ w. w.path) (slice_cmp nat_cmp)) };

    ghost total = { Prim.search (comparing, rules) };

    ghost matches_partial_cmp = { Prim.search (comparing, rules) };

    ghost matches_eq = { Prim.search (comparing, rules) };

    fn cmp(&self, other: &Waiting) -> Ordering {
        other
            .count
            .cmp(&self.count)
            .then(self.path.cmp(&other.path))
    }
}

impl PartialOrd for Waiting {
    ghost use Rattle.std.proofs.Common.{rules};
    ghost use Rattle.std.specs.Cmp.{partial_order_from_own_ties};
    ghost use Rattle.std.specs.Cmp.Rules.{comparing};
    ghost use Rattle.std.specs.Cmp.Lexicographic.{slice_cmp};
    ghost use Rattle.std.specs.Ordering.{as_partial_cmp, flip_args, nat_cmp, on, then_cmp};

    ghost partial_cmp = { as_partial_cmp (then_cmp (flip_args (on (λ w. w.count) nat_cmp)) (on (λ w. w.path) (slice_cmp nat_cmp))) };

    ghost laws = { partial_order_from_own_ties (Prim.search (comparing, rules)) (Prim.search (comparing, rules)) };

    fn partial_cmp(&self, other: &Waiting) -> Option<Ordering> {
        Some(self.cmp(other))
    }
}
