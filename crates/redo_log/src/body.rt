//! The bytes of a body.
ghost use Rattle.std.specs.Prelude.{◌≡◌, ◌⊎◌, ◌+◌, ◌-◌, ◌*◌, ◌<◌, ◌≤◌, ◌^◌, ℕ, ℤ, All, [], ◌++◌, length, take, drop, if◌then◌else◌};
ghost use Rattle.std.specs.Int.{w64, to_be_bytes};
ghost use Rattle.ring_format.specs.Head.{head_bytes, number_bytes};
ghost use Rattle.redo_log.specs.Body.{body_bytes, count_bytes, leading_bytes, numbers_bytes};
ghost use Rattle.ring_format.specs.LayoutFile.{head_size};

use crate::numbers::NUMBERS_BYTES;
use ring_format::{HEAD_BYTES, Layout, Patch, write_head};

/// The most bytes of a body that are written at once.
pub const PIECE_BYTES: usize = 4096;

// The bytes of a cell in a body.
pub(crate) const ENTRY_BYTES: usize = 28;

/// How many bytes the body of a patch has.
pub fn body_len(patch: &Patch) -> u64
    ensures { result ≡ length (body_bytes patch.now) }
{
    cells_are_few(patch);
    (leading_len(patch) + ENTRY_BYTES * patch.cells().len()) as u64
}

/// How many bytes stand before the cells.
pub(crate) fn leading_len(patch: &Patch) -> usize
    ensures value { result ≡ length (leading_bytes patch.now) }
    ensures low { result ≤ 1356 }
{
    cells_are_few(patch);
    let head = head_len(&patch.layout());
    NUMBERS_BYTES + (patch.path().text().len() + head)
}

/// How many bytes a head has.
pub(crate) fn head_len(layout: &Layout) -> usize
    ensures value { result ≡ length (head_bytes layout.now) }
    ensures size { result ≡ head_size (length layout.now.archives) }
    ensures low { result ≤ 316 }
{
    16 + 12 * layout.archive_count() as usize
}

// A patch has fewer than 2^31 cells. The function does nothing: what it ensures is the law.
pub(crate) fn cells_are_few(patch: &Patch)
    ensures few { length patch.now.cells < 2 ^ 31 }
    ensures short { length patch.now.path ≤ 1024 }
{
    let _ = patch.cells();
    let _ = patch.layout().archives();
    let _ = patch.path().text();
}

// Writes what stands before the cells, and answers where it ends.
pub(crate) fn put_leading(patch: &Patch, out: &mut [u8; PIECE_BYTES]) -> usize
    ensures end { result ≡ length (leading_bytes patch.now) }
    ensures low { result ≤ 1356 }
    ensures written { take result out.new ≡ leading_bytes patch.now }
{
    cells_are_few(patch);
    let text = patch.path().text();
    put_numbers(
        text.len() as u32,
        patch.fresh(),
        patch.cell_count() as u64,
        out,
    );
    let end = put_bytes(text, NUMBERS_BYTES, out);
    put_head(&patch.layout(), end, out)
}

// Writes the numbers.
fn put_numbers(path_len: u32, is_fresh: bool, cell_count: u64, out: &mut [u8; PIECE_BYTES])
    ensures { take 16 out.new ≡ number_bytes path_len
        ++ (number_bytes (if is_fresh then 1 else 0) ++ count_bytes cell_count) }
{
    let second = put_number(path_len, 0, out);
    let third = put_number(u32::from(is_fresh), second, out);
    put_count(cell_count, third, out);
}

// Writes a number in four bytes, and answers where it ends.
#[tactic(auto, unfolding(ring_format::specs::Head::number_bytes))]
pub(crate) fn put_number(number: u32, at: usize, out: &mut [u8; PIECE_BYTES]) -> usize
    requires { at + 4 ≤ PIECE_BYTES }
    ensures end { result ≡ at + 4 }
    ensures written { take result out.new ≡ take at out.old ++ number_bytes number }
{
    let end = at + 4;
    out[at..end].copy_from_slice(&number.to_be_bytes());
    end
}

// Writes a number in eight bytes.
#[tactic(auto, unfolding(crate::specs::Body::count_bytes))]
fn put_count(number: u64, at: usize, out: &mut [u8; PIECE_BYTES])
    requires { at + 8 ≤ PIECE_BYTES }
    ensures { take (at + 8) out.new ≡ take at out.old ++ count_bytes number }
{
    out[at..at + 8].copy_from_slice(&number.to_be_bytes());
}

// Writes bytes, and answers where they end.
pub(crate) fn put_bytes(bytes: &[u8], at: usize, out: &mut [u8; PIECE_BYTES]) -> usize
    requires { at + length bytes.now ≤ PIECE_BYTES }
    ensures end { result ≡ at + length bytes.now }
    ensures written { take result out.new ≡ take at out.old ++ bytes.now }
{
    let end = at + bytes.len();
    out[at..end].copy_from_slice(bytes);
    end
}

// Writes a head, and answers where it ends.
fn put_head(layout: &Layout, at: usize, out: &mut [u8; PIECE_BYTES]) -> usize
    requires { at + 316 ≤ PIECE_BYTES }
    ensures end { result ≡ at + length (head_bytes layout.now) }
    ensures low { result ≤ at + 316 }
    ensures written { take result out.new ≡ take at out.old ++ head_bytes layout.now }
{
    let mut head = [0; HEAD_BYTES];
    let len = write_head(layout, &mut head);
    put_bytes(&head[..len], at, out)
}
