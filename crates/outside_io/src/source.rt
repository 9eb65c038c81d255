// Where bytes come from.
ghost use Rattle.std.specs.Prelude.{◌≡◌, ℕ, ◌<◌, ◌≤◌, List, length, Option, None};
ghost use Rattle.outside_io.specs.Faults.{Rose};
ghost use Rattle.outside_io.specs.Source.{ReadsSome, ReadTakes};

/// What one read came to.
#[derive(Clone, Copy, Debug, PartialEq, Eq)]
pub enum ReadEnd {
    /// So many bytes came, at least one; they are the first ones of the buffer.
    Got(usize),
    /// Nothing is left.
    End,
    /// The read failed and took nothing.
    Failed,
}

/// A stream of bytes that is read to its end.
///
/// A source may tell contracts what is left in it. Bytes that it does not tell are open: then no clause speaks
/// of them.
pub trait Source {
    // The bytes that are left, where the source tells them.
    ghost left: { Self → Option (List ℕ) };

    ghost read_faults: { Self → ℕ };

    // What a read leaves as it is beside the source's own bytes: on a link, the bytes that were written and
    // the count of failed writes.
    ghost beside_read: { Self → Option (List ℕ) × ℕ } = { λ _. (None, 0) };

    /// How many reads have failed. The count never falls, and stays at 2^64 - 1.
    fn read_faults(&self) -> u64
        ensures { result ≡ Self.read_faults self.now };

    /// Reads into a buffer that is not empty. What stands behind the bytes that came is open.
    fn read(&mut self, buf: &mut [u8]) -> ReadEnd
        requires { 0 < length buf.old }
        ensures count { ReadsSome result buf.new }
        ensures bytes { ReadTakes (left self.old) (left self.new) result buf.new }
        ensures later { Self.read_faults self.old ≤ Self.read_faults self.new }
        ensures cause { result ≡ ReadEnd.Failed
            → Rose (Self.read_faults self.old) (Self.read_faults self.new) }
        ensures beside { beside_read self.new ≡ beside_read self.old };
}
