//! A sink for a service that writes nothing.
ghost use Rattle.std.specs.Prelude.{None};

use outside_io::{Sink, WriteEnd};

/// A sink that takes every piece, keeps none, and tells contracts nothing.
#[derive(Drop)]
pub(crate) struct NoSink;

impl Sink for NoSink {
    ghost written = { λ _. None };

    ghost write_faults = { λ _. 0 };

    fn write_faults(&self) -> u64 {
        0
    }

    fn write(&mut self, piece: &[u8]) -> WriteEnd {
        WriteEnd::Took(piece.len())
    }
}
