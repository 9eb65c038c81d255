//! The bytes of runs.
ghost use Rattle.std.specs.Prelude.{◌≡◌, ◌+◌, ◌*◌, ◌++◌, ◌<◌, ◌≤◌, ℕ, IsSome, length, take};
ghost use Rattle.ring_format.specs.Head.{head_bytes};
ghost use Rattle.ring_format.specs.Cell.{cell_size};
ghost use Rattle.write_shelf.specs.Shelf.{AreLaid, IsFilled, IsRunOf, ReadsBack, StandsAt, cells_bytes};
ghost use Rattle.write_shelf.specs.declared.run.Run.TheVariants.{Cells};

use crate::run::Run;
use crate::run_cells::{cell_near, index_of};
use ring_format::{CELL_BYTES, HEAD_BYTES, Layout, Patch, RUN_BYTES, write_cell, write_head};

// Writes the bytes of a run to the front of `out`, and answers their number.
pub(crate) fn put_run(patch: &Patch, run: Run, out: &mut [u8; RUN_BYTES]) -> usize
    requires { IsRunOf patch.now run }
    ensures { IsFilled result out.new patch.now run }
{
    match run {
        Run::Create { .. } => 0,
        Run::Cells {
            archive,
            slot,
            count,
        } => put_cells(patch, archive, slot, count, out),
        Run::Head => put_head(&patch.layout(), out),
    }
}

// Where in the file the bytes of a run stand.
pub(crate) fn place_of(patch: &Patch, run: Run) -> u64
    requires { IsRunOf patch.now run }
    ensures { StandsAt result patch.now run }
{
    match run {
        Run::Cells { archive, slot, .. } => {
            u64::from(patch.layout().offset(archive)) + CELL_BYTES as u64 * u64::from(slot)
        }
        Run::Create { .. } | Run::Head => 0,
    }
}

// Writes the cells in neighbouring slots, and answers how many bytes they take.
fn put_cells(patch: &Patch, archive: u32, slot: u32, count: u32, out: &mut [u8; RUN_BYTES]) -> usize
    requires { AreLaid patch.now archive slot count }
    ensures end { result ≡ cell_size * count }
    ensures written { take result out.new ≡ cells_bytes patch.now.cells archive slot count }
    ensures read { ReadsBack patch.now (Cells archive slot count) }
{
    let first = index_of(patch, archive, slot);
    for k in 0..count {
        let at = first.saturating_add(k as usize);
        let Some(held) = cell_near(patch, at, archive, slot + k) else {
            unreachable!()
        };
        let mut cell = [0; CELL_BYTES];
        write_cell(held.0, held.1, &mut cell);
        put_cell(&cell, CELL_BYTES * k as usize, out);
    }
    CELL_BYTES * count as usize
}

// Writes the bytes of a cell to a place.
fn put_cell(cell: &[u8; CELL_BYTES], at: usize, out: &mut [u8; RUN_BYTES])
    requires { at + cell_size ≤ RUN_BYTES }
    ensures { take (at + cell_size) out.new ≡ take at out.old ++ cell.now }
{
    out[at..at + CELL_BYTES].copy_from_slice(cell);
}

// Writes a head, and answers how many bytes it takes.
fn put_head(layout: &Layout, out: &mut [u8; RUN_BYTES]) -> usize
    ensures end { result ≡ length (head_bytes layout.now) }
    ensures written { take result out.new ≡ head_bytes layout.now }
{
    let mut head = [0; HEAD_BYTES];
    let end = write_head(layout, &mut head);
    out[..end].copy_from_slice(&head[..end]);
    end
}
