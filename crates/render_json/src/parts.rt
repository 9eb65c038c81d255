//! What the texts are made of.
ghost use Rattle.std.specs.Prelude.{◌≡◌, ◌+◌, ◌≤◌, ◌++◌, OnOk, decimal, drop, length};
ghost use Rattle.render_json.specs.Values.{separator, value_or};

use crate::backward::{few_bits, put, put_value};
use fixed_num::{Milli, wide};
use itoa::Buffer;
use series_set::Reading;
use std::alloc::AllocError;

// So many neighbouring values are counted at once.
const PIECE: usize = 16;

/// How many bytes the texts of values take at most, where that of a missing one takes so many.
pub(crate) fn values_room(values: &[Reading], missing: usize) -> usize {
    let mut room: usize = 0;
    for piece in values.chunks(PIECE) {
        room = room.saturating_add(piece_room(piece, missing));
    }
    room
}

// The same of neighbouring values, of which each that is known counts as the longest. A value has a digit before the point and three behind
// it at least, and beside the digits a point and a sign.
fn piece_room(piece: &[Reading], missing: usize) -> usize {
    let mut others: usize = 0;
    let mut bits: u64 = 0;
    let mut wide_bits: u128 = 0;
    for value in piece {
        match value.get() {
            Some(value) => match few_bits(wide(value)) {
                Some(few) => bits |= few,
                None => wide_bits |= wide(value).unsigned_abs(),
            },
            None => others = others.saturating_add(1),
        }
    }
    let longest = number_room(wide_bits | u128::from(bits)).max(4) + 2;
    let known = piece.len().saturating_sub(others);
    known
        .saturating_mul(longest)
        .saturating_add(others.saturating_mul(missing))
}

/// How many digits a number has at most: the logarithm of 2 to the base 10 is a little less than 1,233 / 4,096.
pub(crate) fn number_room(number: u128) -> usize
    ensures { result ≤ 39 }
{
    (bits_of(number) * 1_233 / 4_096 + 1) as usize
}

// How many bits a number has. Mostly they are 64 at most, which is the faster count.
fn bits_of(number: u128) -> u32
    ensures { result ≤ 128 }
{
    if number <= u128::from(u64::MAX) {
        return 64_u32.saturating_sub((number as u64).leading_zeros());
    }
    128_u32.saturating_sub(number.leading_zeros())
}

/// Writes a value, or the word for a missing one, so that it ends at `end`, and answers where it starts.
#[inline(always)]
pub(crate) fn put_value_or(text: &mut [u8], end: usize, word: &[u8], value: Option<Milli>) -> usize
    requires room { 33 ≤ end }
    requires within { end ≤ length text.old }
    requires word { length word.now ≤ 33 }
    ensures start { result + length (value_or word.now value) ≡ end }
    ensures short { length (value_or word.now value) ≤ 33 }
    ensures written { drop result text.new ≡ value_or word.now value ++ drop end text.old }
{
    let Some(value) = value else {
        return put(text, end, word);
    };
    put_value(text, end, value)
}

/// Appends a number.
pub(crate) fn push_number(out: &mut Vec<u8>, number: u64) -> Result<(), AllocError>
    ensures { OnOk result (out.new.items ≡ out.old.items ++ decimal number) }
{
    let mut buffer = Buffer::new();
    out.extend_from_slice(buffer.format(number).as_bytes())
}

/// Appends the separator, but not before the first text.
pub(crate) fn push_separator(
    out: &mut Vec<u8>,
    sep: &[u8],
    is_first: bool,
) -> Result<(), AllocError>
    ensures { OnOk result (out.new.items ≡ out.old.items ++ separator sep.now is_first) }
{
    if is_first {
        return Ok(());
    }
    out.extend_from_slice(sep)
}
