//! A head or a record, read from the front of bytes. All is read before memory is taken, so that
//! want of memory is told only of bytes that can be read.
ghost use Rattle.std.specs.Prelude.{◌≡◌, ◌-◌, IfOk, length, option_map};
ghost use Rattle.journal_form.specs.Form.{head_value, record_value, reply_value};
ghost use Rattle.journal_form.specs.Read.{Answers, ask_at, drain_at, fault_at, files_at};
ghost use Rattle.journal_form.specs.Read.{head_at, head_in, kind_at, limit_at, put_at, record_at};
ghost use Rattle.journal_form.specs.Read.{record_in, reply_at};
ghost use Rattle.journal_form.specs.Parts.{HasLegalPath, HasLegalRecord, entry_of, head_of};
ghost use Rattle.journal_form.specs.Parts.{record_of, reply_of};

use crate::fields::{byte_in, end_in, path_in, text_in, u32_in, u64_in, value_in};
use crate::parts::{EntryParts, HeadParts, RecordParts, ReplyParts};
use crate::record::{FormFault, JournalHead, Record, Reply};
use carbon_history::Entry;
use metric_path::MetricPath;
use std::alloc::{AllocError, Global};

// The first eight bytes, `carbonj1`.
const MARK: u64 = 0x6361_7262_6f6e_6a31;

/// The head that the bytes begin with, and how many bytes it has.
pub fn read_head(alloc: Global, bytes: &[u8]) -> Result<(JournalHead, usize), FormFault>
    ensures { Answers (λ x. (head_value x.0, x.1)) result (head_in bytes.now) }
{
    let Some((parts, rest)) = head_parts(bytes) else {
        return Err(FormFault::Unreadable);
    };
    let head = made_head(alloc, &parts)?;
    Ok((head, length_between(bytes, rest)))
}

/// The record that the bytes begin with, and how many bytes it has.
///
/// What is read has the form of a record: its kind, its lengths, a legal path, a value that fits
/// and one of three outcomes. Whether its moments are legal, its class is one of 16 and it follows
/// from the records before is not looked at.
pub fn read_record(alloc: Global, bytes: &[u8]) -> Result<(Record, usize), FormFault>
    ensures { Answers (λ x. (record_value x.0, x.1)) result (record_in bytes.now) }
{
    let Some((parts, rest)) = record_parts(bytes) else {
        return Err(FormFault::Unreadable);
    };
    let record = made_record(alloc, &parts)?;
    Ok((record, length_between(bytes, rest)))
}

// How many bytes were read, where these are left: never more than there were.
fn length_between(bytes: &[u8], rest: &[u8]) -> usize
    ensures { result ≡ length bytes.now - length rest.now }
{
    bytes.len().saturating_sub(rest.len())
}

#[tactic(auto, unfolding(crate::specs::Read::head_at))]
fn head_parts(bytes: &[u8]) -> Option<(HeadParts<'_>, &[u8])>
    ensures { option_map (λ x. (head_of x.0, x.1.now)) result ≡ head_at bytes.now }
{
    let (first, rest) = u64_in(bytes)?;
    if first == MARK {
        return limit_parts(rest);
    }
    None
}

#[tactic(auto, unfolding(crate::specs::Read::limit_at))]
fn limit_parts(bytes: &[u8]) -> Option<(HeadParts<'_>, &[u8])>
    ensures { option_map (λ x. (head_of x.0, x.1.now)) result ≡ limit_at bytes.now }
{
    let (limit, rest) = u64_in(bytes)?;
    let (order, rest) = byte_in(rest)?;
    files_parts(limit, order, rest)
}

#[tactic(auto, unfolding(crate::specs::Read::files_at))]
fn files_parts(limit: u64, order: u8, bytes: &[u8]) -> Option<(HeadParts<'_>, &[u8])>
    ensures { option_map (λ x. (head_of x.0, x.1.now)) result ≡ files_at limit order bytes.now }
{
    let (schemas, rest) = text_in(bytes)?;
    let (aggregations, rest) = text_in(rest)?;
    let parts = HeadParts {
        limit,
        order,
        schemas,
        aggregations,
    };
    Some((parts, rest))
}

#[tactic(auto, unfolding(crate::specs::Read::record_at))]
fn record_parts(bytes: &[u8]) -> Option<(RecordParts<'_>, &[u8])>
    ensures { option_map (λ x. (record_of x.0, x.1.now)) result ≡ record_at bytes.now }
{
    let (kind, rest) = byte_in(bytes)?;
    let (pass, rest) = u32_in(rest)?;
    kind_parts(kind, pass, rest)
}

#[tactic(auto, unfolding(crate::specs::Read::kind_at))]
fn kind_parts(kind: u8, pass: u32, bytes: &[u8]) -> Option<(RecordParts<'_>, &[u8])>
    ensures { option_map (λ x. (record_of x.0, x.1.now)) result ≡ kind_at kind pass bytes.now }
{
    match kind {
        1 => put_parts(pass, bytes),
        2 => drain_parts(pass, bytes),
        3 => ask_parts(pass, bytes),
        4 => fault_parts(pass, bytes),
        5 => reply_parts(pass, bytes),
        _ => None,
    }
}

#[tactic(auto, unfolding(crate::specs::Read::put_at))]
fn put_parts(pass: u32, bytes: &[u8]) -> Option<(RecordParts<'_>, &[u8])>
    ensures { option_map (λ x. (record_of x.0, x.1.now)) result ≡ put_at pass bytes.now }
{
    let (path, rest) = path_in(bytes)?;
    let (time, rest) = u32_in(rest)?;
    let Some(found) = value_in(rest) else {
        return None;
    };
    let (end, rest) = end_in(found.1)?;
    let parts = EntryParts::Put(pass, path, time, found.0, end);
    Some((RecordParts::Entry(parts), rest))
}

#[tactic(auto, unfolding(crate::specs::Read::drain_at))]
fn drain_parts(pass: u32, bytes: &[u8]) -> Option<(RecordParts<'_>, &[u8])>
    ensures { option_map (λ x. (record_of x.0, x.1.now)) result ≡ drain_at pass bytes.now }
{
    let (path, rest) = path_in(bytes)?;
    let (now, rest) = u64_in(rest)?;
    Some((RecordParts::Entry(EntryParts::Drain(pass, path, now)), rest))
}

#[tactic(auto, unfolding(crate::specs::Read::ask_at))]
fn ask_parts(pass: u32, bytes: &[u8]) -> Option<(RecordParts<'_>, &[u8])>
    ensures { option_map (λ x. (record_of x.0, x.1.now)) result ≡ ask_at pass bytes.now }
{
    let (number, rest) = u64_in(bytes)?;
    let (attempt, rest) = u32_in(rest)?;
    let (now, rest) = u64_in(rest)?;
    let parts = EntryParts::Ask(pass, number, attempt, now);
    Some((RecordParts::Entry(parts), rest))
}

#[tactic(auto, unfolding(crate::specs::Read::fault_at))]
fn fault_parts(pass: u32, bytes: &[u8]) -> Option<(RecordParts<'_>, &[u8])>
    ensures { option_map (λ x. (record_of x.0, x.1.now)) result ≡ fault_at pass bytes.now }
{
    let (class, rest) = u32_in(bytes)?;
    Some((RecordParts::Entry(EntryParts::Fault(pass, class)), rest))
}

#[tactic(auto, unfolding(crate::specs::Read::reply_at))]
fn reply_parts(pass: u32, bytes: &[u8]) -> Option<(RecordParts<'_>, &[u8])>
    ensures { option_map (λ x. (record_of x.0, x.1.now)) result ≡ reply_at pass bytes.now }
{
    let (number, rest) = u64_in(bytes)?;
    let (query, rest) = text_in(rest)?;
    let (body, rest) = text_in(rest)?;
    let (text, rest) = text_in(rest)?;
    let parts = ReplyParts {
        pass,
        number,
        query,
        body,
        text,
    };
    Some((RecordParts::Reply(parts), rest))
}

fn made_head(alloc: Global, parts: &HeadParts<'_>) -> Result<JournalHead, AllocError>
    ensures { IfOk result (λ head. head_value head ≡ head_of parts.now) }
{
    Ok(JournalHead {
        limit: parts.limit,
        order: parts.order,
        schemas: Vec::from_slice(alloc, parts.schemas)?,
        aggregations: Vec::from_slice(alloc, parts.aggregations)?,
    })
}

fn made_record(alloc: Global, parts: &RecordParts<'_>) -> Result<Record, AllocError>
    requires { HasLegalRecord (record_of parts.now) }
    ensures { IfOk result (λ found. record_value found ≡ record_of parts.now) }
{
    match parts {
        RecordParts::Entry(parts) => Ok(Record::Entry(made_entry(alloc, parts)?)),
        RecordParts::Reply(parts) => Ok(Record::Reply(made_reply(alloc, parts)?)),
    }
}

fn made_entry(alloc: Global, parts: &EntryParts<'_>) -> Result<Entry, AllocError>
    requires { HasLegalPath (entry_of parts.now) }
    ensures { IfOk result (λ entry. entry ≡ entry_of parts.now) }
{
    match *parts {
        EntryParts::Put(pass, path, time, value, end) => {
            let path = MetricPath::from_legal(alloc, path)?;
            Ok(Entry::Put(pass, path, time, value, end))
        }
        EntryParts::Drain(pass, path, now) => {
            let path = MetricPath::from_legal(alloc, path)?;
            Ok(Entry::Drain(pass, path, now))
        }
        EntryParts::Ask(pass, number, attempt, now) => Ok(Entry::Ask(pass, number, attempt, now)),
        EntryParts::Fault(pass, class) => Ok(Entry::Fault(pass, class)),
    }
}

fn made_reply(alloc: Global, parts: &ReplyParts<'_>) -> Result<Reply, AllocError>
    ensures { IfOk result (λ reply. reply_value reply ≡ reply_of parts.now) }
{
    Ok(Reply {
        pass: parts.pass,
        number: parts.number,
        query: Vec::from_slice(alloc, parts.query)?,
        body: Vec::from_slice(alloc, parts.body)?,
        text: Vec::from_slice(alloc, parts.text)?,
    })
}
