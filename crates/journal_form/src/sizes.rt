//! How many bytes a record or a head has.
ghost use Rattle.std.specs.Prelude.{◌≡◌, ◌-◌, ◌^◌, length, min};
ghost use Rattle.journal_form.specs.Form.{entry_bytes, head_bytes, head_value, reply_bytes};
ghost use Rattle.journal_form.specs.Parts.{entry_of, reply_of};

use crate::parts::{EntryParts, ReplyParts};
use crate::record::JournalHead;

// The bytes of a head and of a reply but for their texts: of a head 8 of its mark, 8, 1 and twice
// 4; of a reply 1, 4, 8 and three times 4.
const HEAD: usize = 25;

const REPLY: usize = 25;

/// The bytes of a head, or all that a number can say.
#[tactic(auto, unfolding(crate::specs::Form::head_bytes))]
pub(crate) fn head_size(head: &JournalHead) -> usize
    ensures { result ≡ min (length (head_bytes (head_value head.now))) (2 ^ 64 - 1) }
{
    HEAD.saturating_add(head.schemas.len())
        .saturating_add(head.aggregations.len())
}

/// The bytes of an entry: a kind and a pass are 5, a path has 2 of length, a value 16.
#[tactic(auto, unfolding(crate::specs::Form::put_bytes, crate::specs::Form::drain_bytes, crate::specs::Form::ask_bytes, crate::specs::Form::fault_bytes))]
pub(crate) fn entry_size(entry: &EntryParts<'_>) -> usize
    ensures { result ≡ length (entry_bytes (entry_of entry.now)) }
{
    match entry {
        EntryParts::Put(_, path, _, _, _) => 28 + path.len(),
        EntryParts::Drain(_, path, _) => 15 + path.len(),
        EntryParts::Ask(_, _, _, _) => 25,
        EntryParts::Fault(_, _) => 9,
    }
}

/// The bytes of a reply, or all that a number can say.
#[tactic(auto, unfolding(crate::specs::Form::reply_bytes))]
pub(crate) fn reply_size(reply: &ReplyParts<'_>) -> usize
    ensures { result ≡ min (length (reply_bytes (reply_of reply.now))) (2 ^ 64 - 1) }
{
    REPLY
        .saturating_add(reply.query.len())
        .saturating_add(reply.body.len())
        .saturating_add(reply.text.len())
}
