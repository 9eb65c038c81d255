//! Records that borrow their texts: what is pushed without an entry of its own, and what is read
//! before memory is taken.
ghost use Rattle.std.specs.Prelude.{◌≡◌};
ghost use Rattle.journal_form.specs.Parts.{entry_of};

use carbon_history::{Entry, PutEnd};
use fixed_num::Milli;

/// The parts of an entry, with its path as bytes.
#[derive(Clone, Copy)]
pub enum EntryParts<'a> {
    /// A point was put: the pass, the path, the time, the value in thousandths and the outcome.
    Put(u32, &'a [u8], u32, Milli, PutEnd),
    /// A metric's pending points went to its rings: the pass, the path and the moment.
    Drain(u32, &'a [u8], u64),
    /// A question was answered: the pass, its number in the pass, the try and the moment.
    Ask(u32, u64, u32, u64),
    /// A disk failed: the pass and the class.
    Fault(u32, u32),
}

// The parts of a head.
#[derive(Clone, Copy)]
pub(crate) struct HeadParts<'a> {
    pub(crate) limit: u64,
    pub(crate) order: u8,
    pub(crate) schemas: &'a [u8],
    pub(crate) aggregations: &'a [u8],
}

// The parts of a reply.
#[derive(Clone, Copy)]
pub(crate) struct ReplyParts<'a> {
    pub(crate) pass: u32,
    pub(crate) number: u64,
    pub(crate) query: &'a [u8],
    pub(crate) body: &'a [u8],
    pub(crate) text: &'a [u8],
}

// The parts of a record.
#[derive(Clone, Copy)]
pub(crate) enum RecordParts<'a> {
    Entry(EntryParts<'a>),
    Reply(ReplyParts<'a>),
}

// The parts of an entry that stands somewhere.
pub(crate) fn parts_of(entry: &Entry) -> EntryParts<'_>
    ensures { entry_of result ≡ entry.now }
{
    match entry {
        Entry::Put(pass, path, time, value, end) => {
            EntryParts::Put(*pass, path.text(), *time, *value, *end)
        }
        Entry::Drain(pass, path, now) => EntryParts::Drain(*pass, path.text(), *now),
        Entry::Ask(pass, number, attempt, now) => EntryParts::Ask(*pass, *number, *attempt, *now),
        Entry::Fault(pass, class) => EntryParts::Fault(*pass, *class),
    }
}
