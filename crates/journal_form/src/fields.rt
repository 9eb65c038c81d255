//! The fields of a journal, read from the left. Each reader answers the field and the bytes behind
//! it, or `None` where the bytes do not begin with one.
ghost use Rattle.std.specs.Prelude.{◌≡◌, Some, length, option_map};
ghost use Rattle.std.specs.Int.{w16, w32, w64};
ghost use Rattle.journal_form.specs.Read.{byte_at, end_at, end_of, number_at, path_at, piece_at};
ghost use Rattle.journal_form.specs.Read.{text_at, value_at};

use carbon_history::PutEnd;
use fixed_num::{MILLI_BYTES, Milli, milli_of_bytes};
use metric_path::fault_of;

#[tactic(auto, unfolding(crate::specs::Read::piece_at))]
pub(crate) fn piece_in(count: usize, bytes: &[u8]) -> Option<(&[u8], &[u8])>
    ensures { option_map (λ x. (x.0.now, x.1.now)) result ≡ piece_at count bytes.now }
{
    if bytes.len() < count {
        return None;
    }
    Some(bytes.split_at(count))
}

#[tactic(auto, unfolding(crate::specs::Read::byte_at))]
pub(crate) fn byte_in(bytes: &[u8]) -> Option<(u8, &[u8])>
    ensures { option_map (λ x. (x.0, x.1.now)) result ≡ byte_at bytes.now }
{
    match bytes {
        [] => None,
        [byte, rest @ ..] => Some((*byte, rest)),
    }
}

pub(crate) fn u16_in(bytes: &[u8]) -> Option<(u16, &[u8])>
    ensures { option_map (λ x. (x.0, x.1.now)) result ≡ number_at w16 bytes.now }
{
    if bytes.len() < 2 {
        return None;
    }
    let (front, rest) = bytes.split_at(2);
    Some((u16::from_be_bytes([front[0], front[1]]), rest))
}

pub(crate) fn u32_in(bytes: &[u8]) -> Option<(u32, &[u8])>
    ensures { option_map (λ x. (x.0, x.1.now)) result ≡ number_at w32 bytes.now }
{
    if bytes.len() < 4 {
        return None;
    }
    let (front, rest) = bytes.split_at(4);
    let number = u32::from_be_bytes([front[0], front[1], front[2], front[3]]);
    Some((number, rest))
}

pub(crate) fn u64_in(bytes: &[u8]) -> Option<(u64, &[u8])>
    ensures { option_map (λ x. (x.0, x.1.now)) result ≡ number_at w64 bytes.now }
{
    if bytes.len() < 8 {
        return None;
    }
    let (front, rest) = bytes.split_at(8);
    let number = u64::from_be_bytes([
        front[0], front[1], front[2], front[3], front[4], front[5], front[6], front[7],
    ]);
    Some((number, rest))
}

#[tactic(auto, unfolding(crate::specs::Read::text_at))]
pub(crate) fn text_in(bytes: &[u8]) -> Option<(&[u8], &[u8])>
    ensures { option_map (λ x. (x.0.now, x.1.now)) result ≡ text_at bytes.now }
{
    let (count, rest) = u32_in(bytes)?;
    piece_in(count as usize, rest)
}

#[tactic(auto, unfolding(crate::specs::Read::path_at))]
pub(crate) fn path_in(bytes: &[u8]) -> Option<(&[u8], &[u8])>
    ensures { option_map (λ x. (x.0.now, x.1.now)) result ≡ path_at bytes.now }
{
    let (count, rest) = u16_in(bytes)?;
    let (path, rest) = piece_in(count as usize, rest)?;
    if fault_of(path).is_none() {
        return Some((path, rest));
    }
    None
}

#[tactic(auto, unfolding(crate::specs::Read::value_at))]
pub(crate) fn value_in(bytes: &[u8]) -> Option<(Milli, &[u8])>
    ensures { option_map (λ x. (x.0, x.1.now)) result ≡ value_at bytes.now }
{
    if bytes.len() < MILLI_BYTES {
        return None;
    }
    let (front, rest) = bytes.split_at(MILLI_BYTES);
    let mut number = [0; MILLI_BYTES];
    number.copy_from_slice(front);
    let value = milli_of_bytes(number)?;
    Some((value, rest))
}

#[tactic(auto, unfolding(crate::specs::Read::end_of))]
fn end_by(byte: u8) -> Option<PutEnd>
    ensures { result ≡ end_of byte }
{
    match byte {
        0 => Some(PutEnd::Stored),
        1 => Some(PutEnd::Replaced),
        2 => Some(PutEnd::Full),
        _ => None,
    }
}

#[tactic(auto, unfolding(crate::specs::Read::end_at))]
pub(crate) fn end_in(bytes: &[u8]) -> Option<(PutEnd, &[u8])>
    ensures { option_map (λ x. (x.0, x.1.now)) result ≡ end_at bytes.now }
{
    let (byte, rest) = byte_in(bytes)?;
    let end = end_by(byte)?;
    Some((end, rest))
}
