//! Runs of names that begin with the same bytes.
ghost use Rattle.std.specs.Prelude.{◌≡◌, ◌≢◌, ◌≤◌, All, drop, length, take};
ghost use Rattle.std.specs.Cmp.Lexicographic.{slice_cmp};
ghost use Rattle.std.specs.List.Sorted.{IsStrictlySortedBy};
ghost use Rattle.std.specs.Ordering.{nat_cmp};
ghost use Rattle.std.specs.declared.cmp.Ordering.TheVariants.{Less};
ghost use Rattle.path_glob.specs.Laws.{BeginsWith};
ghost use Rattle.path_glob.specs.Fronts.{IsBehindRun, IsRun};

use crate::laws::texts_with_one_front_stand_together;
use metric_path::MetricPath;

/// The names that begin with these bytes, found by halves.
pub fn run_of<'a>(names: &'a [MetricPath], front: &[u8]) -> &'a [MetricPath]
    requires { IsStrictlySortedBy (slice_cmp nat_cmp) names.now }
    ensures { IsRun front.now names.now result.now }
{
    // No name below the bytes begins with them.
    texts_with_one_front_stand_together();
    let names = &names[count_below(names, front)..];
    &names[..count_run(names, front)]
}

/// The names behind those that begin with these bytes, found by halves, where none is below the bytes.
pub fn behind_run<'a>(names: &'a [MetricPath], front: &[u8]) -> &'a [MetricPath]
    requires rising { IsStrictlySortedBy (slice_cmp nat_cmp) names.now }
    requires from { All (λ name. slice_cmp nat_cmp name front.now ≢ Less) names.now }
    ensures { IsBehindRun front.now names.now result.now }
{
    &names[count_run(names, front)..]
}

// How many names are below these bytes.
fn count_below(names: &[MetricPath], front: &[u8]) -> usize
    requires { IsStrictlySortedBy (slice_cmp nat_cmp) names.now }
    ensures within { result ≤ length names.now }
    ensures below { All (λ name. slice_cmp nat_cmp name front.now ≡ Less) (take result names.now) }
    ensures from { All (λ name. slice_cmp nat_cmp name front.now ≢ Less) (drop result names.now) }
{
    names.partition_point(|name| name.text().cmp(front).is_lt())
}

// How many names begin with these bytes, where none is below them.
fn count_run(names: &[MetricPath], front: &[u8]) -> usize
    requires rising { IsStrictlySortedBy (slice_cmp nat_cmp) names.now }
    requires from { All (λ name. slice_cmp nat_cmp name front.now ≢ Less) names.now }
    ensures within { result ≤ length names.now }
    ensures run { All (BeginsWith front.now) (take result names.now) }
    ensures behind { All (λ name. BeginsWith front.now name → ⊥) (drop result names.now) }
{
    // None behind a name that does not begin with the bytes begins with them.
    texts_with_one_front_stand_together();
    names.partition_point(|name| name.text().starts_with(front))
}
