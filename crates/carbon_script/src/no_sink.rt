// A sink of which nothing is kept.
ghost use Rattle.std.specs.Prelude.{None};

use outside_io::{Sink, WriteEnd};

// Takes all that is written, and drops it. No write fails.
#[derive(Drop)]
pub(crate) struct NoSink;

impl Sink for NoSink {
    ghost written = { λ _. None };

    ghost write_faults = { λ _. 0 };

    fn write_faults(&self) -> u64 {
        0
    }

    fn write(&mut self, piece: &[u8]) -> WriteEnd {
        WriteEnd::Took(piece.len())
    }
}
