//! What a link is read by.
ghost use Rattle.std.specs.Prelude.{◌≡◌, ◌<◌, ◌≤◌, [], length};
ghost use Rattle.outside_io.specs.Faults.{Rose};
ghost use Rattle.outside_io.specs.Source.{ReadsSome, ReadTakes};
ghost use Rattle.read_trace.specs.Notes.{NotesRead};

use outside_io::{ReadEnd, Source};
use std::marker::Model;
use std::snapshot::Snapshot;
use trace::Trace;

/// A read, for contracts alone: the link as it was before, and as it was then.
#[derive(Drop)]
pub struct ReadNote<L> {
    pub before: Snapshot<L>,
    pub after: Snapshot<L>,
}

/// What a link is read by. Contracts see all reads that were made by it, in order, each by itself;
/// it takes no memory for them.
#[derive(Drop)]
pub struct Reads<L> {
    made: Trace<ReadNote<L>>,
}

impl<L> Model for Reads<L> {
    ghost use Rattle.std.specs.Prelude.{List};
    ghost use Rattle.read_trace.specs.declared.reads.ReadNote.{ReadNote};

    ghost Value = { List (ReadNote L) };

    ghost view = { λ r. r.made };
}

impl<L> Reads<L> {
    /// Nothing was read yet.
    pub fn new() -> Reads<L>
        ensures { result ≡ [] }
    {
        Reads { made: Trace::new() }
    }

    /// Reads a link once, into a buffer that is not empty. What stands behind the bytes that came is
    /// open.
    pub fn read(&mut self, link: &mut L, buf: &mut [u8]) -> ReadEnd
    where
        L: Source,
        requires { 0 < length buf.old }
        ensures count { ReadsSome result buf.new }
        ensures bytes { ReadTakes (L.left link.old) (L.left link.new) result buf.new }
        ensures later { L.read_faults link.old ≤ L.read_faults link.new }
        ensures cause { result ≡ ReadEnd.Failed
            → Rose (L.read_faults link.old) (L.read_faults link.new) }
        ensures beside { L.beside_read link.new ≡ L.beside_read link.old }
        ensures noted { NotesRead link.old link.new self.old self.new }
    {
        let before = Snapshot::of(&*link);
        let end = link.read(buf);
        let after = Snapshot::of(&*link);
        self.made.add(&ReadNote { before, after });
        end
    }
}
