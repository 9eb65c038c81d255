//! The cells of a body.
ghost use Rattle.std.specs.Prelude.{◌≡◌, ◌*◌, ◌≤◌, ◌++◌, ◌∷◌, true, Err, None, [], Some, IsErrOf, OnErr, OnOk, length, option_map};
ghost use Rattle.std.specs.List.Sorted.{IsStrictlySortedBy};
ghost use Rattle.std.specs.Map.{keys_of};
ghost use Rattle.std.specs.Ordering.{is_lt};
ghost use Rattle.ring_format.specs.Patch.{IsPlace, place_cmp};
ghost use Rattle.redo_log.specs.Body.{entry_size};
ghost use Rattle.redo_log.specs.Told.{cell_told, cells_told, cells_with, comes_behind, entries_told};
ghost use Rattle.redo_log.specs.declared.reading.BodyFault.TheVariants.{Damaged, NoMemory};

use crate::body::ENTRY_BYTES;
use crate::reading::{BodyFault, number_at};
use ring_format::{CellWrite, Patch, VERSION, read_cell};

// Lays so many cells, which are all that the bytes tell.
#[tactic(auto, unfolding(crate::specs::Told::entries_told))]
pub(crate) fn tell_entries(patch: &mut Patch, count: u64, bytes: &[u8]) -> Result<(), BodyFault>
    requires { patch.old.cells ≡ [] }
    ensures ok { OnOk result
        (entries_told patch.old.layout count bytes.now ≡ Some patch.new.cells) }
    ensures same { OnOk result (patch.new ≡ record patch.old { cells = patch.new.cells }) }
    ensures damaged { IsErrOf result Damaged
        → entries_told patch.old.layout count bytes.now ≡ None }
{
    let whole = bytes.len() / ENTRY_BYTES;
    if whole as u64 == count && bytes.len() % ENTRY_BYTES == 0 {
        return tell_cells(patch, whole, bytes);
    }
    Err(BodyFault::Damaged)
}

// Lays so many cells behind those of the patch.
fn tell_cells(patch: &mut Patch, count: usize, bytes: &[u8]) -> Result<(), BodyFault>
    requires { entry_size * count ≤ length bytes.now }
    ensures ok { OnOk result
        (cells_told patch.old.layout patch.old.cells count bytes.now ≡ Some patch.new.cells) }
    ensures same { OnOk result (patch.new ≡ record patch.old { cells = patch.new.cells }) }
    ensures damaged { IsErrOf result Damaged
        → cells_told patch.old.layout patch.old.cells count bytes.now ≡ None }
{
    for k in 0..count {
        let at = ENTRY_BYTES * k;
        match tell_entry(patch, &bytes[at..at + ENTRY_BYTES]) {
            Ok(()) => {}
            Err(fault) => return Err(fault),
        }
    }
    Ok(())
}

// Lays the cell that the bytes tell behind those of the patch.
#[tactic(auto, unfolding(crate::specs::Told::cells_with))]
fn tell_entry(patch: &mut Patch, entry: &[u8]) -> Result<(), BodyFault>
    requires { length entry.now ≡ entry_size }
    ensures ok { OnOk result
        (cells_with patch.old.layout patch.old.cells entry.now ≡ Some patch.new.cells) }
    ensures same { OnOk result (patch.new ≡ record patch.old { cells = patch.new.cells }) }
    ensures damaged { IsErrOf result Damaged
        → cells_with patch.old.layout patch.old.cells entry.now ≡ None }
{
    let Some(cell) = tell_cell(entry) else {
        return Err(BodyFault::Damaged);
    };
    if patch.layout().has_slot(cell.archive, cell.slot)
        && comes_behind(patch, cell.archive, cell.slot)
    {
        return lay_last(patch, cell);
    }
    Err(BodyFault::Damaged)
}

// The cell that the bytes tell, or none where its value does not fit.
#[tactic(auto, unfolding(crate::specs::Told::cell_told, crate::specs::Told::place_told))]
fn tell_cell(entry: &[u8]) -> Option<CellWrite>
    requires { length entry.now ≡ entry_size }
    ensures { option_map (λ cell. ((cell.archive, cell.slot), (cell.bucket, cell.value))) result
        ≡ cell_told entry.now }
{
    let (bucket, value) = read_cell(VERSION, &entry[8..]);
    let value = value?;
    Some(CellWrite {
        archive: number_at(entry, 0),
        slot: number_at(entry, 4),
        bucket,
        value,
    })
}

// Whether a cell stands behind those of the patch.
fn comes_behind(patch: &Patch, archive: u32, slot: u32) -> bool
    ensures { result ≡ comes_behind patch.now.cells (archive, slot) }
{
    match patch.cells().last() {
        Some(last) => stands_before(last.0, archive, slot),
        None => true,
    }
}

// Whether a place comes before another.
fn stands_before(place: (u32, u32), archive: u32, slot: u32) -> bool
    ensures { result ≡ is_lt (place_cmp place (archive, slot)) }
{
    place.0 < archive || place.0 == archive && place.1 < slot
}

// Lays a cell behind all others.
fn lay_last(patch: &mut Patch, cell: CellWrite) -> Result<(), BodyFault>
    requires place { IsPlace patch.old.layout (cell.archive, cell.slot) }
    requires last { comes_behind patch.old.cells (cell.archive, cell.slot) ≡ true }
    ensures ok { OnOk result (patch.new ≡ record patch.old {
      cells = patch.old.cells
          ++ ((cell.archive, cell.slot), (cell.bucket, cell.value)) ∷ [];
    }) }
    ensures err { OnErr result (result ≡ Err NoMemory) }
{
    cells_rise(patch);
    match patch.lay(cell) {
        Ok(()) => Ok(()),
        Err(_) => Err(BodyFault::NoMemory),
    }
}

// The cells of a patch rise. The function does nothing: what it ensures is the law.
fn cells_rise(patch: &Patch)
    ensures { IsStrictlySortedBy place_cmp (keys_of patch.now.cells) }
{
    let _ = patch.cells();
}
