// A source in memory.
ghost use Rattle.std.specs.Prelude.{◌≡◌, ◌↔◌, ℕ, ◌+◌, ◌<◌, ◌≤◌, [], length, slice_index, EachIndex, Some, IsTrue};
ghost use Rattle.outside_io.specs.Calls.{fails_next, after_call};
ghost use Rattle.outside_io.specs.Faults.{Rose};
ghost use Rattle.outside_io.specs.Memory.{ReadsPiece};
ghost use Rattle.outside_io.specs.Source.{ReadsSome, ReadTakes};

use crate::calls::FailingCalls;
use crate::faults::raised;
use crate::source::{ReadEnd, Source};
use std::alloc::Global;
use std::marker::Model;

/// A source over bytes in memory. It may be told into which pieces to cut them, and which reads fail.
#[derive(Debug, Drop)]
pub struct MemSource {
    bytes: Vec<u8>,
    at: usize,
    most: usize,
    cuts: Vec<usize>,
    calls: FailingCalls,
    faults: u64,
}

impl Model for MemSource {
    ghost use Rattle.std.specs.Prelude.{◌<◌, ◌≤◌, length, drop};
    ghost use Rattle.outside_io.specs.Memory.{SourceState};

    ghost Value = { SourceState };

    ghost view = { λ source. record {
      left = drop source.at source.bytes.items;
      taken = source.at;
      most = source.most;
      cuts = source.cuts.items;
      calls = source.calls;
      faults = source.faults;
    } };

    ghost invariant = { λ source. (source.at ≤ length source.bytes.items) × (0 < source.most) };
}

impl MemSource {
    /// All these bytes, of which a read gives as many as its buffer takes. No read fails.
    pub fn new(alloc: Global, bytes: Vec<u8>) -> Self
        ensures left { ⟦<MemSource as Source>⟧.left result ≡ Some bytes.items }
        ensures faults { ⟦<MemSource as Source>⟧.read_faults result ≡ 0 }
        ensures calls { result.calls ≡ record { failing = []; next = 1 } }
        ensures uncut { result.cuts ≡ [] }
        ensures taken { result.taken ≡ 0 }
        ensures most { result.most ≡ usize.MAX }
    {
        MemSource {
            bytes,
            at: 0,
            most: usize::MAX,
            cuts: Vec::new(alloc),
            calls: FailingCalls::none(alloc),
            faults: 0,
        }
    }

    /// The same source, of which a read gives at most so many bytes.
    pub fn at_most(mut self, most: usize) -> Self
        requires { 0 < most }
        ensures { result ≡ record self { most = most } }
    {
        self.most = most;
        self
    }

    /// The same source, of which no read goes across one of these places, counted from the first byte.
    pub fn cut_at(mut self, cuts: Vec<usize>) -> Self
        ensures { result ≡ record self { cuts = cuts.items } }
    {
        self.cuts = cuts;
        self
    }

    /// The same source, of which the reads with these numbers fail; the next read is number 1.
    pub fn failing(mut self, calls: Vec<u64>) -> Self
        ensures { result ≡ record self { calls = record { failing = calls.items; next = 1 } } }
    {
        self.calls = FailingCalls::new(calls);
        self
    }
}

impl Source for MemSource {
    ghost left = { λ source. Some source.left };

    ghost read_faults = { λ source. source.faults };

    fn read_faults(&self) -> u64 {
        self.faults
    }

    fn read(&mut self, buf: &mut [u8]) -> ReadEnd
        requires { 0 < length buf.old }
        ensures count { ReadsSome result buf.new }
        ensures bytes { ReadTakes (Some self.old.left) (Some self.new.left) result buf.new }
        ensures later { self.old.faults ≤ self.new.faults }
        ensures cause { result ≡ ReadEnd.Failed → Rose self.old.faults self.new.faults }
        ensures piece { ReadsPiece self.old self.new result }
        ensures counted { self.new.calls ≡ after_call self.old.calls }
        ensures listed { result ≡ ReadEnd.Failed ↔ IsTrue (fails_next self.old.calls) }
    {
        if self.calls.fails_now() {
            self.faults = raised(self.faults);
            return ReadEnd::Failed;
        }
        let rest = &self.bytes[self.at..];
        let piece = piece_len(&self.cuts, self.at, self.most);
        let count = piece.min(rest.len()).min(buf.len());
        if count == 0 {
            return ReadEnd::End;
        }
        buf[..count].copy_from_slice(&rest[..count]);
        self.at += count;
        ReadEnd::Got(count)
    }
}

// How many bytes a read may give at a place: at most so many, and up to the next cut.
fn piece_len(cuts: &[usize], at: usize, most: usize) -> usize
    requires { 0 < most }
    ensures some { 0 < result }
    ensures bound { result ≤ most }
    ensures uncut { EachIndex cuts.now
        (λ k. at < slice_index cuts.now k → at + result ≤ slice_index cuts.now k) }
{
    let mut piece = most;
    for cut in cuts {
        if at < *cut {
            piece = piece.min(*cut - at);
        }
    }
    piece
}
