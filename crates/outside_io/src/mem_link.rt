// A link in memory.
ghost use Rattle.std.specs.Prelude.{Some};

use crate::link::Link;
use crate::mem_sink::MemSink;
use crate::mem_source::MemSource;
use crate::sink::{Sink, WriteEnd};
use crate::source::{ReadEnd, Source};

/// A link over memory.
#[derive(Debug, Drop)]
pub struct MemLink {
    /// What the other end sends.
    pub source: MemSource,
    /// What the other end is sent.
    pub sink: MemSink,
}

impl Source for MemLink {
    ghost left = { λ link. Some link.source.left };

    ghost read_faults = { λ link. link.source.faults };

    ghost beside_read = { λ link. (Some link.sink.bytes, link.sink.faults) };

    fn read_faults(&self) -> u64 {
        self.source.read_faults()
    }

    fn read(&mut self, buf: &mut [u8]) -> ReadEnd {
        self.source.read(buf)
    }
}

impl Sink for MemLink {
    ghost written = { λ link. Some link.sink.bytes };

    ghost write_faults = { λ link. link.sink.faults };

    ghost beside_write = { λ link. (Some link.source.left, link.source.faults) };

    fn write_faults(&self) -> u64 {
        self.sink.write_faults()
    }

    fn write(&mut self, piece: &[u8]) -> WriteEnd {
        self.sink.write(piece)
    }
}

impl Link for MemLink {
    ghost use Rattle.std.specs.Prelude.{refl};

    ghost reads_apart = { λ _. refl };

    ghost writes_apart = { λ _. refl };
}
