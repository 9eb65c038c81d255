//! Cells of a patch that are looked for where they most likely stand among its others.
ghost use Rattle.std.specs.Prelude.{◌≡◌, ◌↔◌, IfSome, IsTrue, Some};
ghost use Rattle.ring_format.specs.Patch.{cell_at};

use fixed_num::Milli;
use ring_format::Patch;

/// The bucket and the value of the cell at an index, where it stands at this place.
pub(crate) fn laid_at(patch: &Patch, at: usize, archive: u32, slot: u32) -> Option<(u32, Milli)>
    ensures { IfSome result (λ held. cell_at patch.now.cells (archive, slot) ≡ Some held) }
{
    let cells = patch.cells();
    if at < cells.len() && stands_at(cells[at].0, archive, slot) {
        return Some(cells[at].1);
    }
    None
}

/// How many cells stand before a place. Nothing rests on it, since `laid_at` looks whether it is so.
pub(crate) fn index_of(patch: &Patch, archive: u32, slot: u32) -> usize {
    patch
        .cells()
        .partition_point(|cell| stands_before(cell.0, archive, slot))
}

// Whether a place is this one.
fn stands_at(place: (u32, u32), archive: u32, slot: u32) -> bool
    ensures { IsTrue result ↔ place ≡ (archive, slot) }
{
    place.0 == archive && place.1 == slot
}

// Whether a place comes before this one.
fn stands_before(place: (u32, u32), archive: u32, slot: u32) -> bool {
    place.0 < archive || place.0 == archive && place.1 < slot
}
