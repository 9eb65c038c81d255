//! The texts of samples.

use crate::telling::push_bytes;
use case_lines::{Case, Told};
use outside_io::{ReadEnd, Source};
use sample_text::{SampleSource, question};
use std::alloc::Global;

// The most bytes that are read at once.
const ROOM: usize = 64;

/// `sample SIZE START COUNT`: the text of so many metric lines from a start on, of which so many bytes are read at once.
pub fn tell_sample(alloc: Global, told: &mut Told, case: &Case) {
    let text = sample(alloc, case, told);
    push_bytes(told, &text);
}

/// `sample-end SIZE START COUNT LAST`: how many bytes that text has, and the last of them, so many.
pub fn tell_end(alloc: Global, told: &mut Told, case: &Case) {
    let last = case.number_at(3, told) as usize;
    let text = sample(alloc, case, told);
    push_end(told, &text, last);
}

/// `question SIZE`: the text of the question at the end, of which so many bytes are read at once.
pub fn tell_question(alloc: Global, told: &mut Told, case: &Case) {
    let most = case.number_at(0, told) as usize;
    let text = read_all(alloc, &mut question(), most, told);
    push_bytes(told, &text);
}

fn sample(alloc: Global, case: &Case, told: &mut Told) -> Vec<u8> {
    let most = case.number_at(0, told) as usize;
    let start = case.number_at(1, told);
    let count = case.small_at(2, told);
    let mut source = SampleSource::new(start, count);
    read_all(alloc, &mut source, most, told)
}

// All that a source gives, of which at most so many bytes are read at once.
fn read_all<S: Source>(alloc: Global, source: &mut S, most: usize, told: &mut Told) -> Vec<u8> {
    let mut text = Vec::new(alloc);
    let mut buffer = [0; ROOM];
    let room = &mut buffer[..most.clamp(1, ROOM)];
    for _ in 0..u64::MAX {
        match source.read(room) {
            ReadEnd::Got(count) => {
                told.keep(text.extend_from_slice(room.get(..count).unwrap_or(&[])));
            }
            _ => break,
        }
    }
    text
}

fn push_end(told: &mut Told, text: &[u8], last: usize) {
    write!(told, "{} bytes: ", text.len());
    let from = text.len().saturating_sub(last);
    push_bytes(told, text.get(from..).unwrap_or(&[]));
}
