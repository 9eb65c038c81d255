// A link whose calls may wait.
ghost use Rattle.std.specs.Prelude.{None};

use crate::faults::raised;
use crate::flag::Flag;
use crate::gate::{Gate, pass};
use crate::sent::Sent;
use outside_io::{Link, MemSource, ReadEnd, Sink, Source, WriteEnd};
use std::sync::Wait;
use std::time::Clock;

// A flag that goes up once so many bytes were written.
#[derive(Drop)]
struct Mark {
    count: usize,
    flag: Flag,
}

/// A link over memory. Its first read, or its first write, may be made to wait at a gate, and fails where that does not open.
#[derive(Drop)]
pub struct GateLink<R: Wait + Clock> {
    rt: R,
    source: MemSource,
    sent: Sent,
    read_gate: Option<Gate<R>>,
    write_gate: Option<Gate<R>>,
    mark: Option<Mark>,
    read_faults: u64,
    write_faults: u64,
}

impl<R: Wait + Clock + Drop> GateLink<R> {
    /// A link that gives these bytes and keeps there what it is sent. No call waits.
    pub fn new(rt: R, source: MemSource, sent: Sent) -> GateLink<R> {
        GateLink {
            rt,
            source,
            sent,
            read_gate: None,
            write_gate: None,
            mark: None,
            read_faults: 0,
            write_faults: 0,
        }
    }

    /// The same link, whose first read waits.
    pub fn reading_at(mut self, gate: Gate<R>) -> GateLink<R> {
        self.read_gate = Some(gate);
        self
    }

    /// The same link, whose first write waits.
    pub fn writing_at(mut self, gate: Gate<R>) -> GateLink<R> {
        self.write_gate = Some(gate);
        self
    }

    /// The same link, which puts the flag up once it was sent so many bytes.
    pub fn marking(mut self, count: usize, flag: Flag) -> GateLink<R> {
        self.mark = Some(Mark { count, flag });
        self
    }

    // Puts the flag up that waits for so many bytes.
    fn mark(&self, count: usize) {
        if let Some(mark) = &self.mark {
            if mark.count <= count {
                mark.flag.raise();
            }
        }
    }
}

impl<R: Wait + Clock + Drop> Source for GateLink<R> {
    ghost left = { λ _. None };

    ghost read_faults = { λ link. link.read_faults };

    ghost beside_read = { λ link. (None, link.write_faults) };

    fn read_faults(&self) -> u64 {
        self.read_faults
    }

    fn read(&mut self, buf: &mut [u8]) -> ReadEnd {
        let is_open = pass(&self.read_gate);
        self.read_gate = None;
        if is_open {
            match self.source.read(buf) {
                ReadEnd::Failed => {}
                end => return end,
            }
        }
        self.read_faults = raised(self.read_faults);
        ReadEnd::Failed
    }
}

impl<R: Wait + Clock + Drop> Sink for GateLink<R> {
    ghost written = { λ _. None };

    ghost write_faults = { λ link. link.write_faults };

    ghost beside_write = { λ link. (None, link.read_faults) };

    fn write_faults(&self) -> u64 {
        self.write_faults
    }

    fn write(&mut self, piece: &[u8]) -> WriteEnd {
        let is_open = pass(&self.write_gate);
        self.write_gate = None;
        if is_open {
            if let Ok(count) = self.sent.add(&self.rt, piece) {
                self.mark(count);
                return WriteEnd::Took(piece.len());
            }
        }
        self.write_faults = raised(self.write_faults);
        WriteEnd::Failed
    }
}

impl<R: Wait + Clock + Drop> Link for GateLink<R> {
    ghost use Rattle.std.specs.Prelude.{refl};

    ghost reads_apart = { λ _. refl };

    ghost writes_apart = { λ _. refl };
}
