//! A short list of archives that needs no memory.
ghost use Rattle.std.specs.Prelude.{◌≡◌, ◌≤◌, ◌<◌, Some, [], ◌∷◌, ◌++◌, length, slice_get};

use crate::archive::{Archive, MOST_ARCHIVES};
use std::marker::Model;

// What stands behind the last archive.
const BLANK: Archive = Archive { step: 0, points: 0 };

/// At most 25 archives. Contracts see the list of them.
#[derive(Clone, Copy, Debug, PartialEq, Eq)]
pub(crate) struct ArchiveList {
    items: [Archive; MOST_ARCHIVES],
    count: usize,
}

impl Model for ArchiveList {
    ghost use Rattle.std.specs.Prelude.{◌≡◌, ◌≤◌, ◌-◌, ◌++◌, List, length, take, drop};
    ghost use Rattle.std.proofs.Math.ListN.{replicate};
    ghost use Rattle.ring_format.specs.declared.archive.Archive.{Archive};

    ghost Value = { List Archive };

    ghost view = { λ a. take a.count a.items };

    ghost invariant = { λ a. (a.count ≤ 25) × (length a.items ≡ 25)
        × (drop a.count a.items ≡ replicate (25 - a.count) (record { step = 0; points = 0 })) };

    ghost use Rattle.ring_format.specs.Padded.{padded_back};

    ghost inverse = { λ archives. record {
      items = archives ++ replicate (25 - length archives) (record { step = 0; points = 0 });
      count = length archives;
    } };

    ghost inverse_ok = { λ a h. padded_back (λ items count. record { items = items; count = count })
        (record { step = 0; points = 0 }) a.items a.count h.0 h.1 h.2 };
}

impl ArchiveList {
    /// No archives.
    pub(crate) fn new() -> Self
        ensures { result ≡ [] }
    {
        ArchiveList {
            items: [BLANK; MOST_ARCHIVES],
            count: 0,
        }
    }

    /// The archives as a slice.
    pub(crate) fn as_slice(&self) -> &[Archive]
        ensures value { result.now ≡ self.now }
        ensures few { length self.now ≤ 25 }
    {
        &self.items[..self.count]
    }

    /// The list of these archives.
    pub(crate) fn of(archives: &[Archive]) -> Self
        requires { length archives.now ≤ 25 }
        ensures { result ≡ archives.now }
    {
        let mut list = ArchiveList::new();
        for archive in archives {
            list.push(*archive);
        }
        list
    }

    /// Adds an archive at the end.
    #[tactic(auto, using(crate::proofs::ArchiveListLemmas::padding_shrinks))]
    pub(crate) fn push(&mut self, archive: Archive)
        requires { length self.old < 25 }
        ensures { self.new ≡ self.old ++ archive ∷ [] }
    {
        self.items[self.count] = archive;
        self.count += 1;
    }
}
