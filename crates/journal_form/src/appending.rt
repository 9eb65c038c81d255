//! Bytes at the end of a list that has room for them: no memory is taken, and nothing fails.
ghost use Rattle.std.specs.Prelude.{length};
ghost use Rattle.journal_form.specs.Form.{behind_path, entry_bytes, head_bytes, head_value};
ghost use Rattle.journal_form.specs.Form.{reply_bytes, text_bytes};
ghost use Rattle.journal_form.specs.Parts.{entry_of, reply_of};
ghost use Rattle.journal_form.specs.Room.{Appends, HasRoom};

use crate::arrays::{ask_array, fault_array, head_array, put_end_array, reply_array};
use crate::parts::{EntryParts, ReplyParts};
use crate::record::JournalHead;

fn append(out: &mut Vec<u8>, piece: &[u8])
    requires { HasRoom out.old (length piece.now) }
    ensures { Appends out.old out.new piece.now }
{
    match out.extend_from_slice(piece) {
        Ok(()) => {}
        Err(_) => unreachable!(),
    }
}

fn append_text(out: &mut Vec<u8>, text: &[u8])
    requires { HasRoom out.old (length (text_bytes text.now)) }
    ensures { Appends out.old out.new (text_bytes text.now) }
{
    // A text of more than 2^32 bytes has no place in any journal.
    let [_, _, _, _, a, b, c, d] = text.len().to_be_bytes();
    append(out, &[a, b, c, d]);
    append(out, text);
}

// What begins with a kind, a pass and a path, and what stands behind the path.
fn append_path(out: &mut Vec<u8>, kind: u8, pass: u32, path: &[u8], behind: &[u8])
    requires { HasRoom out.old (length (behind_path kind pass path.now behind.now)) }
    ensures { Appends out.old out.new (behind_path kind pass path.now behind.now) }
{
    let [a, b, c, d] = pass.to_be_bytes();
    // A legal path has at most 1,024 bytes.
    let [_, _, _, _, _, _, e, f] = path.len().to_be_bytes();
    append(out, &[kind, a, b, c, d, e, f]);
    append(out, path);
    append(out, behind);
}

/// The bytes of a head.
#[tactic(auto, unfolding(crate::specs::Form::head_bytes))]
pub(crate) fn append_head(out: &mut Vec<u8>, head: &JournalHead)
    requires { HasRoom out.old (length (head_bytes (head_value head.now))) }
    ensures { Appends out.old out.new (head_bytes (head_value head.now)) }
{
    append(out, &head_array(head.limit, head.order));
    append_text(out, head.schemas.as_slice());
    append_text(out, head.aggregations.as_slice());
}

/// The bytes of an entry.
#[tactic(auto, unfolding(crate::specs::Form::put_bytes, crate::specs::Form::drain_bytes))]
pub(crate) fn append_entry(out: &mut Vec<u8>, entry: &EntryParts<'_>)
    requires { HasRoom out.old (length (entry_bytes (entry_of entry.now))) }
    ensures { Appends out.old out.new (entry_bytes (entry_of entry.now)) }
{
    match *entry {
        EntryParts::Put(pass, path, time, value, end) => {
            append_path(out, 1, pass, path, &put_end_array(time, value, end));
        }
        EntryParts::Drain(pass, path, now) => {
            append_path(out, 2, pass, path, &now.to_be_bytes());
        }
        EntryParts::Ask(pass, number, attempt, now) => {
            append(out, &ask_array(pass, number, attempt, now));
        }
        EntryParts::Fault(pass, class) => append(out, &fault_array(pass, class)),
    }
}

/// The bytes of a reply.
#[tactic(auto, unfolding(crate::specs::Form::reply_bytes))]
pub(crate) fn append_reply(out: &mut Vec<u8>, reply: &ReplyParts<'_>)
    requires { HasRoom out.old (length (reply_bytes (reply_of reply.now))) }
    ensures { Appends out.old out.new (reply_bytes (reply_of reply.now)) }
{
    append(out, &reply_array(reply.pass, reply.number));
    append_text(out, reply.query);
    append_text(out, reply.body);
    append_text(out, reply.text);
}
