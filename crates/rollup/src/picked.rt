//! The methods that pick one of the known values.

ghost use Rattle.std.specs.Prelude.{◌≡◌, ◌-◌, length, slice_get, unsigned_abs};
ghost use Rattle.std.specs.Int.{int_max, int_min};
ghost use Rattle.std.specs.List.{reduce};
ghost use Rattle.rollup.specs.Rollup.{farther, nearer};

use fixed_num::{Milli, wide};

/// The value of the latest time.
pub(crate) fn latest(known: &[Milli]) -> Option<Milli>
    ensures { result ≡ slice_get known.now (length known.now - 1) }
{
    known.last().copied()
}

/// The greatest value.
pub(crate) fn greatest(known: &[Milli]) -> Option<Milli>
    ensures { result ≡ reduce int_max known.now }
{
    known.iter().copied().max()
}

/// The least value.
pub(crate) fn least(known: &[Milli]) -> Option<Milli>
    ensures { result ≡ reduce int_min known.now }
{
    known.iter().copied().min()
}

/// The first of the values farthest from zero.
pub(crate) fn farthest(known: &[Milli]) -> Option<Milli>
    ensures { result ≡ reduce farther known.now }
{
    known.iter().copied().reduce(farther)
}

/// The first of the values nearest to zero.
pub(crate) fn nearest(known: &[Milli]) -> Option<Milli>
    ensures { result ≡ reduce nearer known.now }
{
    known.iter().copied().reduce(nearer)
}

fn farther(earlier: Milli, later: Milli) -> Milli
    ensures { result ≡ farther earlier later }
{
    if magnitude(earlier) < magnitude(later) {
        return later;
    }
    earlier
}

fn nearer(earlier: Milli, later: Milli) -> Milli
    ensures { result ≡ nearer earlier later }
{
    if magnitude(later) < magnitude(earlier) {
        return later;
    }
    earlier
}

// How far a value is from zero.
fn magnitude(value: Milli) -> u128
    ensures { result ≡ unsigned_abs value }
{
    wide(value).unsigned_abs()
}
