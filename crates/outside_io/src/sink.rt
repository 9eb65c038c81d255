// Where bytes go to.
ghost use Rattle.std.specs.Prelude.{◌≡◌, ℕ, ◌<◌, ◌≤◌, List, length, Option, None, OnOk, OnErr};
ghost use Rattle.std.specs.Io.KnownBytes.{Appends};
ghost use Rattle.outside_io.specs.Faults.{Rose};
ghost use Rattle.outside_io.specs.Sink.{WritesSome, WriteGives, AppendsFront};

use thiserror::Error;

/// What one write came to.
#[derive(Clone, Copy, Debug, PartialEq, Eq)]
pub enum WriteEnd {
    /// So many bytes were taken, at least one, from the front of the piece.
    Took(usize),
    /// The write failed and appended nothing.
    Failed,
}

/// A write of a whole text failed on the way.
#[derive(Clone, Copy, Debug, PartialEq, Eq, Error)]
#[error("a write failed")]
pub struct WriteFault;

/// A stream of bytes that is written.
///
/// A sink may tell contracts what was written to it.
pub trait Sink {
    // The bytes that were written, where the sink tells them.
    ghost written: { Self → Option (List ℕ) };

    ghost write_faults: { Self → ℕ };

    // What a write leaves as it is beside the sink's own bytes: on a link, the bytes that are left and the
    // count of failed reads.
    ghost beside_write: { Self → Option (List ℕ) × ℕ } = { λ _. (None, 0) };

    /// How many writes have failed. The count never falls, and stays at 2^64 - 1.
    fn write_faults(&self) -> u64
        ensures { result ≡ Self.write_faults self.now };

    /// Writes from the front of a piece that is not empty.
    fn write(&mut self, piece: &[u8]) -> WriteEnd
        requires { 0 < length piece.now }
        ensures count { WritesSome result piece.now }
        ensures bytes { WriteGives (written self.old) (written self.new) result piece.now }
        ensures later { Self.write_faults self.old ≤ Self.write_faults self.new }
        ensures cause { result ≡ WriteEnd.Failed
            → Rose (Self.write_faults self.old) (Self.write_faults self.new) }
        ensures beside { beside_write self.new ≡ beside_write self.old };
}

/// Writes the whole text, in as few calls as the sink allows. At a fault a front of the text may have been
/// written, and nothing else.
pub fn write_all<K: Sink>(out: &mut K, text: &[u8]) -> Result<(), WriteFault>
    ensures written { OnOk result (Appends (K.written out.old) (K.written out.new) text.now) }
    ensures prefix { OnErr result (AppendsFront (K.written out.old) (K.written out.new) text.now) }
    ensures later { K.write_faults out.old ≤ K.write_faults out.new }
    ensures cause { OnErr result (Rose (K.write_faults out.old) (K.write_faults out.new)) }
    ensures beside { K.beside_write out.new ≡ K.beside_write out.old }
{
    let mut at = 0;
    while at < text.len() {
        match out.write(&text[at..]) {
            WriteEnd::Took(count) => at += count,
            WriteEnd::Failed => return Err(WriteFault),
        }
    }
    Ok(())
}
