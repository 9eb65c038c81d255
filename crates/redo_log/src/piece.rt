//! The pieces in which a body is written.
ghost use Rattle.std.specs.Prelude.{◌≡◌, ◌+◌, ◌*◌, ◌≤◌, ℕ, ℤ, ◌++◌, length, take};
ghost use Rattle.redo_log.specs.Body.{Fits, entry_bytes, entry_size};
ghost use Rattle.redo_log.specs.Piece.{FillsWith, IsFirstPiece, IsNextPiece};

use crate::body::{ENTRY_BYTES, PIECE_BYTES, put_bytes, put_leading, put_number};
use fixed_num::Milli;
use ring_format::{CELL_BYTES, Patch, write_cell};

// How many bytes a piece has, and how many cells.
#[derive(Clone, Copy, Debug, PartialEq, Eq)]
pub(crate) struct Piece {
    pub(crate) len: usize,
    pub(crate) cells: usize,
}

// Writes the first piece of a body to the front of `out`.
pub(crate) fn put_first_piece(patch: &Patch, out: &mut [u8; PIECE_BYTES]) -> Piece
    ensures { IsFirstPiece patch.now result.len result.cells out.new }
{
    let end = put_leading(patch, out);
    let count = put_entries(patch.cells(), end, out);
    Piece {
        len: end + ENTRY_BYTES * count,
        cells: count,
    }
}

// Writes a later piece, behind so many cells that are written, to the front of `out`.
pub(crate) fn put_next_piece(patch: &Patch, written: usize, out: &mut [u8; PIECE_BYTES]) -> Piece
    requires { written ≤ length patch.now.cells }
    ensures { IsNextPiece patch.now written result.len result.cells out.new }
{
    let count = put_entries(&patch.cells()[written..], 0, out);
    Piece {
        len: ENTRY_BYTES * count,
        cells: count,
    }
}

// Writes the first of these cells, as many as there is room for behind a place, and answers their number.
fn put_entries(
    cells: &[((u32, u32), (u32, Milli))],
    at: usize,
    out: &mut [u8; PIECE_BYTES],
) -> usize
    requires { at ≤ PIECE_BYTES }
    ensures { FillsWith cells.now at result out.old out.new }
{
    let count = ((PIECE_BYTES - at) / ENTRY_BYTES).min(cells.len());
    for k in 0..count {
        put_entry(&cells[k], at + ENTRY_BYTES * k, out);
    }
    count
}

// Writes a cell.
#[tactic(auto, unfolding(crate::specs::Body::entry_bytes))]
fn put_entry(cell: &((u32, u32), (u32, Milli)), at: usize, out: &mut [u8; PIECE_BYTES])
    requires { at + entry_size ≤ PIECE_BYTES }
    ensures written { take (at + entry_size) out.new ≡ take at out.old ++ entry_bytes cell.now }
    ensures fits { Fits cell.now }
{
    let slot = put_number(cell.0.0, at, out);
    let held = put_number(cell.0.1, slot, out);
    let mut bytes = [0; CELL_BYTES];
    write_cell(cell.1.0, cell.1.1, &mut bytes);
    put_bytes(&bytes, held, out);
}
