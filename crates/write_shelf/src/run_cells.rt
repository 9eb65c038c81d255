//! The cells of a run, one behind the other.
ghost use Rattle.std.specs.Prelude.{◌≡◌, ◌↔◌, IsTrue};
ghost use Rattle.ring_format.specs.Patch.{cell_at};

use fixed_num::Milli;
use ring_format::Patch;

// Where the cell of a place stands among those of a patch. Nothing rests on it, since `cell_near` looks whether it is so.
pub(crate) fn index_of(patch: &Patch, archive: u32, slot: u32) -> usize {
    patch
        .cells()
        .partition_point(|cell| stands_before(cell.0, archive, slot))
}

// Whether a place is this one.
fn stands_at(place: (u32, u32), archive: u32, slot: u32) -> bool
    ensures { IsTrue result ↔ place ≡ (archive, slot) }
{
    place.0 == archive && place.1 == slot
}

// Whether a place comes before this one.
fn stands_before(place: (u32, u32), archive: u32, slot: u32) -> bool {
    place.0 < archive || place.0 == archive && place.1 < slot
}

// The bucket and the value of a place's cell, which is looked for at an index first.
pub(crate) fn cell_near(patch: &Patch, at: usize, archive: u32, slot: u32) -> Option<(u32, Milli)>
    ensures { result ≡ cell_at patch.now.cells (archive, slot) }
{
    let cells = patch.cells();
    if at < cells.len() && stands_at(cells[at].0, archive, slot) {
        return Some(cells[at].1);
    }
    patch.cell(archive, slot)
}
