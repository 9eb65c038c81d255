//! The layout of a head within a body.
ghost use Rattle.std.specs.Prelude.{◌≡◌, ◌≤◌, IfSome, ◌++◌, length, take, drop, min};
ghost use Rattle.ring_format.specs.Head.{count_in, head_result};
ghost use Rattle.ring_format.specs.LayoutFile.{head_size};
ghost use Rattle.redo_log.specs.Told.{file_end, head_room, layout_told, new_layout};

use crate::body::head_len;
use crate::reading::number_at;
use ring_format::{CELL_BYTES, HEAD_BYTES, Layout, VERSION, read_head};

// The layout of the head of version 2 with which the bytes begin.
#[tactic(auto, unfolding(crate::specs::Told::layout_told))]
pub(crate) fn tell_layout(bytes: &[u8]) -> Option<Layout>
    ensures value { result ≡ layout_told bytes.now }
    ensures room { IfSome result
        (λ layout. head_size (length layout.archives) ≤ length bytes.now) }
{
    if bytes.len() < 16 {
        return None;
    }
    let count = number_at(bytes, 12) as usize;
    if count < 1 || count > 25 {
        return None;
    }
    if bytes.len() < 16 + 12 * count {
        return None;
    }
    layout_in(bytes)
}

// The layout, where all rows are there.
fn layout_in(bytes: &[u8]) -> Option<Layout>
    requires some { 1 ≤ count_in bytes.now }
    requires few { count_in bytes.now ≤ 25 }
    requires room { head_size (count_in bytes.now) ≤ length bytes.now }
    ensures value { result ≡ new_layout (length bytes.now) (head_result
        (take (min 316 (file_end bytes.now)) (head_room bytes.now)) (file_end bytes.now)) }
    ensures room { IfSome result
        (λ layout. head_size (length layout.archives) ≤ length bytes.now) }
{
    let end = file_end(bytes);
    let room = head_room(bytes);
    match read_head(&room[..end.min(HEAD_BYTES as u64) as usize], end) {
        Ok((layout, version)) => {
            if version == VERSION && head_len(&layout) <= bytes.len() {
                return Some(layout);
            }
            None
        }
        Err(_) => None,
    }
}

// Where the last archive of a file with this head ends.
#[tactic(auto, unfolding(crate::specs::Told::file_end))]
fn file_end(bytes: &[u8]) -> u64
    requires some { 1 ≤ count_in bytes.now }
    requires few { count_in bytes.now ≤ 25 }
    requires room { head_size (count_in bytes.now) ≤ length bytes.now }
    ensures { result ≡ file_end bytes.now }
{
    let last = 12 * (number_at(bytes, 12) as usize - 1);
    let offset = number_at(bytes, 16 + last);
    let points = number_at(bytes, 24 + last);
    u64::from(offset) + CELL_BYTES as u64 * u64::from(points)
}

// The first bytes, as many as a head may have, and zeros behind them.
#[tactic(auto, unfolding(crate::specs::Told::head_room))]
fn head_room(bytes: &[u8]) -> [u8; HEAD_BYTES]
    ensures { result ≡ head_room bytes.now }
{
    let mut room = [0; HEAD_BYTES];
    put_front(&bytes[..bytes.len().min(HEAD_BYTES)], &mut room);
    room
}

// Writes bytes to the front.
fn put_front(bytes: &[u8], room: &mut [u8; HEAD_BYTES])
    requires { length bytes.now ≤ HEAD_BYTES }
    ensures { room.new ≡ bytes.now ++ drop (length bytes.now) room.old }
{
    room[..bytes.len()].copy_from_slice(bytes);
}
