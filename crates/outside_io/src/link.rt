// Streams that go both ways.
ghost use Rattle.std.specs.Prelude.{◌≡◌};

use crate::sink::Sink;
use crate::source::Source;

/// A connection: bytes come from the other end, and bytes go to it.
///
/// A read changes nothing of what was written, and a write changes nothing of what is left.
pub trait Link: Source + Sink {
    ghost reads_apart: { (link : Self) → Self.beside_read link ≡ (Self.written link, Self.write_faults link) };

    ghost writes_apart: { (link : Self) → Self.beside_write link ≡ (Self.left link, Self.read_faults link) };
}
