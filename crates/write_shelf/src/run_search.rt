//! The search for the next run of a patch.
ghost use Rattle.std.specs.Prelude.{◌≡◌, ◌<◌, All, IsSome, length};
ghost use Rattle.std.specs.List.Sorted.{IsStrictlySortedBy};
ghost use Rattle.std.specs.Map.{keys_of};
ghost use Rattle.ring_format.specs.Patch.{IsPlace, cell_at, place_cmp};
ghost use Rattle.write_shelf.specs.Behind.{IsFirstOf, IsRunLength, runs_behind, runs_from};
ghost use Rattle.write_shelf.specs.Runs.{last_runs, runs_of};
ghost use Rattle.write_shelf.specs.Shelf.{IsRunOf};

use crate::run::Run;
use crate::run_cells::{cell_near, index_of};
use ring_format::{Patch, RUN_CELLS};

// The first run of a patch.
pub(crate) fn first_run(patch: &Patch) -> Option<Run>
    ensures { IsFirstOf (runs_of patch.now) patch.now result }
{
    if patch.fresh() {
        let length = patch.layout().file_size();
        return Some(Run::Create { length });
    }
    run_from(patch, 0, 0)
}

// The run behind another.
pub(crate) fn run_behind(patch: &Patch, run: Run) -> Option<Run>
    requires { IsRunOf patch.now run }
    ensures { IsFirstOf (runs_behind patch.now run) patch.now result }
{
    match run {
        Run::Create { .. } => run_from(patch, 0, 0),
        Run::Cells {
            archive,
            slot,
            count,
        } => run_from(patch, archive, slot + count),
        Run::Head => None,
    }
}

// The first run from a place on.
fn run_from(patch: &Patch, archive: u32, slot: u32) -> Option<Run>
    ensures { IsFirstOf (runs_from patch.now (archive, slot)) patch.now result }
{
    let Some(((archive, slot), _)) = patch.first_cell_from(archive, slot) else {
        return last_run(patch);
    };
    cells_in_order(patch);
    let count = run_length(patch, archive, slot);
    Some(Run::Cells {
        archive,
        slot,
        count,
    })
}

// The run behind all cells.
fn last_run(patch: &Patch) -> Option<Run>
    ensures { IsFirstOf (last_runs patch.now) patch.now result }
{
    if patch.fresh() {
        return Some(Run::Head);
    }
    None
}

// How many cells the run has that begins with a cell.
fn run_length(patch: &Patch, archive: u32, slot: u32) -> u32
    requires first { IsSome (cell_at patch.now.cells (archive, slot)) }
    requires low { All (λ place. place.1 < 4000000) (keys_of patch.now.cells) }
    ensures { IsRunLength patch.now.cells archive slot result }
{
    let first = index_of(patch, archive, slot);
    for count in 1..RUN_CELLS as u32 {
        let at = first.saturating_add(count as usize);
        if cell_near(patch, at, archive, slot + count).is_none() {
            return count;
        }
    }
    RUN_CELLS as u32
}

// The cells of a patch rise in archive and slot, and stand in its archives, which have at most 4,000,000
// points. The function does nothing: what it ensures is the law.
fn cells_in_order(patch: &Patch)
    ensures rise { IsStrictlySortedBy place_cmp (keys_of patch.now.cells) }
    ensures placed { All (IsPlace patch.now.layout) (keys_of patch.now.cells) }
    ensures low { All (λ place. place.1 < 4000000) (keys_of patch.now.cells) }
{
    let _ = patch.cells();
    let _ = patch.layout().archives();
}

// A patch has fewer than 5,000,000 runs. The function does nothing: what it ensures is the law.
pub(crate) fn runs_are_few(patch: &Patch)
    ensures { length (runs_of patch.now) < 5000000 }
{
    let _ = patch.cells();
    let _ = patch.layout().archives();
}
