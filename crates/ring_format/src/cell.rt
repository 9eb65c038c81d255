//! The bytes of a cell.
ghost use Rattle.std.specs.Prelude.{◌≡◌, ◌<◌, ◌^◌, ℕ, ℤ, List, IfSome, Some, length, slice_index};
ghost use Rattle.fixed_num.specs.Milli.{IsMilli};
ghost use Rattle.ring_format.specs.Cell.{IsVersion, cell_bytes, cell_in, cell_size, cell_size_in};

use fixed_num::{MILLI_BYTES, Milli, milli_bytes, milli_of_bytes, old_milli_of_bytes};

/// The bytes of a cell that is written: its bucket in four bytes, and its value in sixteen.
pub const CELL_BYTES: usize = 20;

/// The bytes of a cell in a file of version 1: its bucket in four bytes, and its value in eight.
pub const OLD_CELL_BYTES: usize = 12;

/// The most cells that are written in one run.
pub const RUN_CELLS: usize = 341;

/// The most bytes that are written in one run, 6,820: those of [`RUN_CELLS`] cells.
pub const RUN_BYTES: usize = CELL_BYTES * RUN_CELLS;

/// The version of files that are written, and the one before it, which is read.
pub const VERSION: u32 = 2;

pub const OLD_VERSION: u32 = 1;

/// The bytes of a cell in a file of a version.
pub fn cell_bytes_in(version: u32) -> usize
    requires { IsVersion version }
    ensures { result ≡ cell_size_in version }
{
    if version == OLD_VERSION {
        return OLD_CELL_BYTES;
    }
    CELL_BYTES
}

/// Writes a cell's bytes: its bucket in four bytes, and its value in sixteen, both big-endian.
pub fn write_cell(bucket: u32, value: Milli, out: &mut [u8; CELL_BYTES])
    ensures bytes { out.new ≡ cell_bytes bucket value }
    ensures fits { IsMilli value }
{
    let [a, b, c, d] = bucket.to_be_bytes();
    let [e, f, g, h, i, j, k, l, m, n, o, p, q, r, s, t] = milli_bytes(value);
    *out = [a, b, c, d, e, f, g, h, i, j, k, l, m, n, o, p, q, r, s, t];
}

/// The bucket and the value that a cell's bytes hold in a file of a version. The value is
/// `None` exactly where it does not fit.
pub fn read_cell(version: u32, bytes: &[u8]) -> (u32, Option<Milli>)
    requires version { IsVersion version }
    requires size { length bytes.now ≡ cell_size_in version }
    ensures { result ≡ cell_in version bytes.now }
{
    if version == OLD_VERSION {
        let (bucket, value) = read_old_cell(bytes);
        return (bucket, Some(value));
    }
    let bucket = u32::from_be_bytes([bytes[0], bytes[1], bytes[2], bytes[3]]);
    let mut value = [0; MILLI_BYTES];
    value.copy_from_slice(&bytes[4..CELL_BYTES]);
    (bucket, milli_of_bytes(value))
}

/// The bucket and the value that a cell's bytes hold in a file of version 1, in which each
/// value fits.
pub fn read_old_cell(bytes: &[u8]) -> (u32, Milli)
    requires { length bytes.now ≡ OLD_CELL_BYTES }
    ensures { (result.0, Some result.1) ≡ cell_in 1 bytes.now }
{
    let bucket = u32::from_be_bytes([bytes[0], bytes[1], bytes[2], bytes[3]]);
    let value = old_milli_of_bytes([
        bytes[4], bytes[5], bytes[6], bytes[7], bytes[8], bytes[9], bytes[10], bytes[11],
    ]);
    (bucket, value)
}

/// A cell that was written is read back. The function does nothing: what it ensures is the law.
pub fn written_cell_is_read()
    ensures { (bucket : ℕ) (value : ℤ) → bucket < 2 ^ 32 → IsMilli value
        → cell_in 2 (cell_bytes bucket value) ≡ (bucket, Some value) }
{}

/// The bytes of a cell that was read, and whose value fits, are written again. The function
/// does nothing: what it ensures is the law.
#[tactic(auto, using(crate::proofs::CellLemmas::cell_is_written))]
pub fn read_cell_is_written()
    ensures { (bytes : List ℕ) → length bytes ≡ cell_size
        → ((i : ℕ) → slice_index bytes i < 256)
        → IfSome (cell_in 2 bytes).1 (λ value. cell_bytes (cell_in 2 bytes).0 value ≡ bytes) }
{}
