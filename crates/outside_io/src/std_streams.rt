// The standard streams of the process.
ghost use Rattle.std.specs.Prelude.{◌≡◌, None};

use crate::faults::raised;
use crate::sink::{Sink, WriteEnd};
use crate::source::{ReadEnd, Source};
use std::io::{Input, Print, Read};

/// The standard input. It tells nothing of its bytes.
#[derive(Drop)]
pub struct StdSource<R: Input> {
    reader: R::Reader,
    faults: u64,
}

impl<R: Input> StdSource<R> {
    /// The standard input of this runtime.
    pub fn new(rt: &R) -> Self
        ensures { ⟦<StdSource<R> as Source>⟧.read_faults result ≡ 0 }
    {
        StdSource {
            reader: rt.reader(),
            faults: 0,
        }
    }
}

impl<R: Input> Source for StdSource<R> {
    ghost left = { λ _. None };

    ghost read_faults = { λ source. source.faults };

    fn read_faults(&self) -> u64 {
        self.faults
    }

    fn read(&mut self, buf: &mut [u8]) -> ReadEnd {
        match self.reader.read(buf) {
            Ok(0) => ReadEnd::End,
            Ok(count) => ReadEnd::Got(count),
            Err(_) => {
                self.faults = raised(self.faults);
                ReadEnd::Failed
            }
        }
    }
}

/// The standard output. It tells nothing of its bytes.
#[derive(Drop)]
pub struct StdSink<R: Print> {
    rt: R,
    faults: u64,
}

impl<R: Print> StdSink<R> {
    /// The standard output of this runtime.
    pub fn new(rt: R) -> Self
        ensures { ⟦<StdSink<R> as Sink>⟧.write_faults result ≡ 0 }
    {
        StdSink { rt, faults: 0 }
    }
}

impl<R: Print> Sink for StdSink<R> {
    ghost written = { λ _. None };

    ghost write_faults = { λ sink. sink.faults };

    fn write_faults(&self) -> u64 {
        self.faults
    }

    // An output that takes nothing of a piece and says no error counts as failed.
    fn write(&mut self, piece: &[u8]) -> WriteEnd {
        match self.rt.write_some(piece) {
            Ok(count) if 0 < count => WriteEnd::Took(count),
            _ => {
                self.faults = raised(self.faults);
                WriteEnd::Failed
            }
        }
    }
}
