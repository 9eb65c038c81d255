// A sink in memory.
ghost use Rattle.std.specs.Prelude.{◌≡◌, ℕ, ◌+◌, ◌<◌, ◌≤◌, [], length, Some, IfOk};
ghost use Rattle.outside_io.specs.Calls.{listed_calls};
ghost use Rattle.outside_io.specs.Frames.{CountsWrites};
ghost use Rattle.outside_io.specs.Memory.{FailsWhere, TakesPiece, after_write, new_sink, taken};
ghost use Rattle.outside_io.specs.Sink.{WritesSome, WriteGives};

use crate::calls::FailingCalls;
use crate::faults::raised;
use crate::sink::{Sink, WriteEnd};
use std::alloc::{AllocError, Global};
use std::marker::Model;

/// A sink that keeps its bytes in memory. It may be told how much it takes at once, and which writes fail. A
/// write that finds no memory fails too; within the room that was taken beforehand, none does.
#[derive(Debug, Drop)]
pub struct MemSink {
    bytes: Vec<u8>,
    most: usize,
    calls: FailingCalls,
    faults: u64,
}

impl Model for MemSink {
    ghost use Rattle.std.specs.Prelude.{◌-◌, ◌<◌};
    ghost use Rattle.std.specs.Vec.{vec_capacity, vec_len};
    ghost use Rattle.outside_io.specs.Memory.{SinkState};

    ghost Value = { SinkState };

    ghost view = { λ sink. record {
      bytes = sink.bytes.items;
      room = vec_capacity sink.bytes - vec_len sink.bytes;
      most = sink.most;
      calls = sink.calls;
      faults = sink.faults;
    } };

    ghost invariant = { λ sink. 0 < sink.most };
}

impl MemSink {
    /// A sink that holds nothing yet, and takes any piece whole. No write fails but for want of memory.
    pub fn new(alloc: Global) -> Self
        ensures { result ≡ new_sink result.room }
    {
        MemSink {
            bytes: Vec::new(alloc),
            most: usize::MAX,
            calls: FailingCalls::none(alloc),
            faults: 0,
        }
    }

    /// The same as a new one, with memory for so many bytes.
    pub fn with_room(alloc: Global, room: usize) -> Result<Self, AllocError>
        ensures { IfOk result (λ sink. sink ≡ new_sink room) }
    {
        Ok(MemSink {
            bytes: Vec::with_capacity(alloc, room)?,
            ..MemSink::new(alloc)
        })
    }

    /// The same sink, which takes at most so many bytes at once.
    pub fn at_most(mut self, most: usize) -> Self
        requires { 0 < most }
        ensures { result ≡ record self { most = most } }
    {
        self.most = most;
        self
    }

    /// The same sink, of which the writes with these numbers fail; the next write is number 1.
    pub fn failing(mut self, calls: Vec<u64>) -> Self
        ensures { result ≡ record self { calls = listed_calls calls.items } }
    {
        self.calls = FailingCalls::new(calls);
        self
    }

    /// The bytes that were written.
    pub fn bytes(&self) -> &[u8]
        ensures { result.now ≡ self.now.bytes }
    {
        &self.bytes
    }

    /// The bytes that were written, for keeps.
    pub fn into_bytes(self) -> Vec<u8>
        ensures { result.items ≡ self.bytes }
    {
        self.bytes
    }
}

impl Sink for MemSink {
    ghost written = { λ sink. Some sink.bytes };

    ghost write_faults = { λ sink. sink.faults };

    fn write_faults(&self) -> u64 {
        self.faults
    }

    fn write(&mut self, piece: &[u8]) -> WriteEnd
        requires { 0 < length piece.now }
        ensures count { WritesSome result piece.now }
        ensures bytes { WriteGives (Some self.old.bytes) (Some self.new.bytes) result piece.now }
        ensures frame { CountsWrites ⟦<MemSink as Sink>⟧ self.old self.new
            (result ≡ WriteEnd.Failed) }
        ensures state { self.new ≡ after_write self.old piece.now self.new.room result }
        ensures room { self.old.room ≤ self.new.room + taken result }
        ensures piece { TakesPiece self.old (length piece.now) result }
        ensures fails { FailsWhere self.old (length piece.now) result }
    {
        if self.calls.fails_now() {
            self.faults = raised(self.faults);
            return WriteEnd::Failed;
        }
        let count = piece.len().min(self.most);
        match self.bytes.extend_from_slice(&piece[..count]) {
            Ok(()) => WriteEnd::Took(count),
            Err(_) => {
                self.faults = raised(self.faults);
                WriteEnd::Failed
            }
        }
    }
}
