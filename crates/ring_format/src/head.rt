//! The bytes of a head.
ghost use Rattle.std.specs.Prelude.{◌≡◌, ◌≤◌, ◌+◌, ◌*◌, ◌++◌, length, take, drop};
ghost use Rattle.ring_format.specs.Layout.{point_count};
ghost use Rattle.ring_format.specs.Head.{head_bytes, number_bytes, row_bytes, rows_bytes, rows_of};
ghost use Rattle.ring_format.specs.LayoutFile.{row_size};

use crate::archive::Archive;
use crate::cell::CELL_BYTES;
use crate::layout::{Layout, head_size};
use crate::method::first_word;

/// The bytes of the four numbers before the rows of archives.
pub(crate) const FRONT_BYTES: usize = 16;

/// The bytes of the row of an archive.
pub(crate) const ROW_BYTES: usize = 12;

/// The most bytes of a head, 316: those of 25 archives.
pub const HEAD_BYTES: usize = 316;

/// Writes the head of a new file of a layout, which has version 2, to the front of `out`, and
/// answers its length; what stands behind it is left as it was.
#[tactic(auto, unfolding(crate::specs::Head::front_bytes), using(crate::proofs::RowLemmas::drop_later))]
pub fn write_head(layout: &Layout, out: &mut [u8; HEAD_BYTES]) -> usize
    ensures length { result ≡ length (head_bytes layout.now) }
    ensures written { take result out.new ≡ head_bytes layout.now }
    ensures behind { drop result out.new ≡ drop result out.old }
{
    let count = layout.archive_count();
    let word = first_word(layout.method());
    put_front(
        word,
        layout.retention(count - 1),
        layout.factor(),
        count,
        out,
    );
    put_rows(layout.archives(), out)
}

// Writes the four numbers before the rows.
#[tactic(auto, using(crate::proofs::RowLemmas::drop_later))]
fn put_front(word: u32, retention: u32, factor: u32, count: u32, out: &mut [u8; HEAD_BYTES])
    ensures written { take 16 out.new ≡ number_bytes word
        ++ (number_bytes retention ++ (number_bytes factor ++ number_bytes count)) }
    ensures behind { drop 16 out.new ≡ drop 16 out.old }
{
    let second = put_number(word, 0, out);
    let third = put_number(retention, second, out);
    let fourth = put_number(factor, third, out);
    put_number(count, fourth, out);
}

// Writes the rows of archives behind the front, and answers where they end.
fn put_rows(archives: &[Archive], out: &mut [u8; HEAD_BYTES]) -> usize
    requires few { length archives.now ≤ 25 }
    requires points { point_count archives.now ≤ 4000000 }
    ensures end { result ≡ 16 + row_size * length archives.now }
    ensures written { take result out.new ≡ take 16 out.old ++ rows_bytes (rows_of 2 archives.now) }
    ensures behind { drop result out.new ≡ drop result out.old }
{
    let mut at = FRONT_BYTES;
    let mut offset = head_size(archives.len());
    for archive in archives {
        at = put_row(offset as u32, archive, at, out);
        offset += CELL_BYTES as u64 * u64::from(archive.points);
    }
    at
}

// Writes the row of an archive, and answers where it ends.
#[tactic(auto, using(crate::proofs::RowLemmas::drop_later))]
fn put_row(offset: u32, archive: &Archive, at: usize, out: &mut [u8; HEAD_BYTES]) -> usize
    requires { at + row_size ≤ HEAD_BYTES }
    ensures end { result ≡ at + row_size }
    ensures written { take result out.new ≡ take at out.old ++ row_bytes (offset, archive.now) }
    ensures behind { drop result out.new ≡ drop result out.old }
{
    let step = put_number(offset, at, out);
    let points = put_number(archive.step, step, out);
    put_number(archive.points, points, out)
}

// Writes a number at a place, and answers where it ends.
#[tactic(auto, unfolding(crate::specs::Head::number_bytes))]
fn put_number(number: u32, at: usize, out: &mut [u8; HEAD_BYTES]) -> usize
    requires { at + 4 ≤ HEAD_BYTES }
    ensures end { result ≡ at + 4 }
    ensures written { take result out.new ≡ take at out.old ++ number_bytes number }
    ensures behind { drop result out.new ≡ drop result out.old }
{
    let end = at + 4;
    out[at..end].copy_from_slice(&number.to_be_bytes());
    end
}
