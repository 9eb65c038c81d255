//! A journal in a room that is taken at the start.
ghost use Rattle.std.specs.Prelude.{◌≡◌, ◌≤◌, IfOk, IsErr, length};

use crate::appending::{append_entry, append_head, append_reply};
use crate::parts::{EntryParts, ReplyParts, parts_of};
use crate::record::JournalHead;
use crate::sizes::{entry_size, head_size, reply_size};
use carbon_history::Entry;
use std::alloc::{AllocError, Global};
use std::marker::Model;

/// A journal: its head, and the entries and replies that were pushed behind it. It takes its memory
/// when it is made, and a push takes none.
///
/// Its entries are the first ones of those that were pushed, without a gap: one that finds no place
/// cuts the journal, and from then on nothing goes in. A reply that finds no place is left out, and
/// what follows it may still go in.
#[derive(Drop)]
pub struct Journal {
    room: usize,
    bytes: Vec<u8>,
    cut: bool,
}

impl Model for Journal {
    ghost use Rattle.std.specs.Prelude.{◌≤◌};
    ghost use Rattle.std.specs.Vec.{vec_capacity, vec_len};
    ghost use Rattle.journal_form.specs.Room.{JournalValue};

    ghost Value = { JournalValue };

    ghost view = { λ j. record { room = j.room; bytes = j.bytes.items; is_cut = j.cut } };

    ghost invariant = { λ j. (vec_len j.bytes ≤ j.room) × (j.room ≤ vec_capacity j.bytes)
        × (j.room ≤ 1000000000) };
}

impl Journal {
    ghost use Rattle.journal_form.specs.Form.{entry_bytes, head_bytes, head_value, reply_bytes};
    ghost use Rattle.journal_form.specs.Parts.{entry_of, reply_with};
    ghost use Rattle.journal_form.specs.Room.{has_place, new_journal, takes_in, with_entry};
    ghost use Rattle.journal_form.specs.Room.{with_reply};

    /// A journal of so many bytes at most that holds its head alone, or `None` exactly where the
    /// head is longer than that.
    #[tactic(auto, unfolding(crate::specs::Room::new_journal))]
    pub fn new(alloc: Global, room: u64, head: &JournalHead) -> Result<Option<Journal>, AllocError>
        requires { room ≤ 1000000000 }
        ensures made { IfOk result (λ j. j ≡ new_journal room (head_value head.now)) }
        ensures memory { IsErr result → length (head_bytes (head_value head.now)) ≤ room }
    {
        let room = room as usize;
        if head_size(head) > room {
            return Ok(None);
        }
        let mut bytes = Vec::with_capacity(alloc, room)?;
        append_head(&mut bytes, head);
        Ok(Some(Journal {
            room,
            bytes,
            cut: false,
        }))
    }

    /// Puts an entry behind the others. Where it answers `false` the bytes stay, and the journal is
    /// cut.
    pub fn push_entry(&mut self, entry: &Entry) -> bool
        ensures answer { result ≡ takes_in self.old (entry_bytes entry.now) }
        ensures journal { self.new ≡ with_entry self.old entry.now }
    {
        self.push_parts(&parts_of(entry))
    }

    /// The same of an entry that is at hand in parts.
    #[tactic(auto, unfolding(crate::specs::Room::with_entry))]
    pub fn push_parts(&mut self, entry: &EntryParts<'_>) -> bool
        ensures answer { result ≡ takes_in self.old (entry_bytes (entry_of entry.now)) }
        ensures journal { self.new ≡ with_entry self.old (entry_of entry.now) }
    {
        if !self.has_place(entry_size(entry)) {
            self.cut = true;
            return false;
        }
        append_entry(&mut self.bytes, entry);
        true
    }

    /// Puts the reply to a question of a pass behind the others: its query, its body and its text.
    /// Where it answers `false` all stays.
    #[tactic(auto, unfolding(crate::specs::Room::with_reply))]
    pub fn push_reply(
        &mut self,
        pass: u32,
        number: u64,
        query: &[u8],
        body: &[u8],
        text: &[u8],
    ) -> bool
        ensures answer { result ≡ takes_in self.old (reply_bytes
            (reply_with pass number query.now body.now text.now)) }
        ensures journal { self.new ≡ with_reply self.old
            (reply_with pass number query.now body.now text.now) }
    {
        let reply = ReplyParts {
            pass,
            number,
            query,
            body,
            text,
        };
        if !self.has_place(reply_size(&reply)) {
            return false;
        }
        append_reply(&mut self.bytes, &reply);
        true
    }

    // Whether a record of so many bytes still goes in.
    fn has_place(&self, count: usize) -> bool
        ensures { result ≡ has_place self.now count }
    {
        !self.cut && count <= self.room - self.bytes.len()
    }

    /// The bytes of the journal.
    pub fn bytes(&self) -> &[u8]
        ensures value { result.now ≡ self.now.bytes }
        ensures few { length result.now ≤ self.now.room }
    {
        &self.bytes
    }

    /// Whether an entry was left out.
    pub fn cut(&self) -> bool
        ensures { result ≡ self.now.is_cut }
    {
        self.cut
    }
}
