//! Whether a run is the last one.
ghost use Rattle.std.specs.Prelude.{◌≡◌, ◌≢◌, ◌==◌, None, IfSome, length};
ghost use Rattle.std.specs.List.Sorted.{IsStrictlySortedBy};
ghost use Rattle.std.specs.Map.{keys_of};
ghost use Rattle.ring_format.specs.Patch.{place_cmp};
ghost use Rattle.write_shelf.specs.Shelf.{IsRunOf, OfNext};
ghost use Rattle.redo_log.specs.LastRun.{ends_in, ends_with};

use crate::calling::patch_of;
use ring_format::Patch;
use write_shelf::{Run, Shelf};

// Whether one run of a shelf is left.
pub(crate) fn is_last(shelf: &Shelf) -> bool
    requires { shelf.now ≢ None }
    ensures last { IfSome shelf.now (λ drain. result ≡ (length drain.left == 1)) }
    ensures sound { OfNext shelf.now IsRunOf }
{
    let Some(run) = shelf.next_run() else {
        unreachable!()
    };
    ends_with(patch_of(shelf), run)
}

// Whether a patch ends with a run.
fn ends_with(patch: &Patch, run: Run) -> bool
    ensures value { result ≡ ends_with patch.now run }
    ensures rise { IsStrictlySortedBy place_cmp (keys_of patch.now.cells) }
{
    let _ = patch.cells();
    match run {
        Run::Create { .. } => false,
        Run::Cells {
            archive,
            slot,
            count,
        } => !patch.fresh() && ends_in(patch, archive, slot, count),
        Run::Head => true,
    }
}

// Whether the last cell stands in the last of these slots.
fn ends_in(patch: &Patch, archive: u32, slot: u32, count: u32) -> bool
    ensures { result ≡ ends_in patch.now.cells archive slot count }
{
    match patch.cells().last() {
        Some(cell) => {
            cell.0.0 == archive && u64::from(cell.0.1) + 1 == u64::from(slot) + u64::from(count)
        }
        None => false,
    }
}
