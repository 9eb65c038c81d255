//! Journals: their heads and records read from bytes, and written.

use crate::telling::{push_bytes, push_next};
use carbon_history::{Entry, PutEnd};
use case_lines::{Case, CaseFault, Told};
use fixed_num::wide;
use journal_form::{FormFault, Journal, JournalHead, Record, Reply, read_head, read_record};
use std::alloc::Global;

/// `journal-head BYTES`: how many bytes the head has that these begin with, its limit, its order
/// and its two files, or `unreadable`.
pub fn tell_head(alloc: Global, told: &mut Told, case: &Case) {
    match read_head(alloc, case.bytes_at(0, told)) {
        Ok((head, length)) => push_head(told, &head, length),
        Err(fault) => push_fault(told, fault),
    }
}

fn push_head(told: &mut Told, head: &JournalHead, length: usize) {
    write!(told, "{length}: {} {}", head.limit, head.order);
    push_text(told, head.schemas.as_slice());
    push_text(told, head.aggregations.as_slice());
}

fn push_fault(told: &mut Told, fault: FormFault) {
    match fault {
        FormFault::Unreadable => told.push_str("unreadable"),
        FormFault::NoMemory => told.fail(CaseFault::NoMemory),
    }
}

/// `journal-record BYTES`: how many bytes the record has that these begin with, its kind and its
/// fields, or `unreadable`.
pub fn tell_record(alloc: Global, told: &mut Told, case: &Case) {
    match read_record(alloc, case.bytes_at(0, told)) {
        Ok((record, length)) => push_record(told, &record, length),
        Err(fault) => push_fault(told, fault),
    }
}

fn push_record(told: &mut Told, record: &Record, length: usize) {
    write!(told, "{length}: ");
    match record {
        Record::Entry(entry) => push_entry(told, entry),
        Record::Reply(reply) => push_reply(told, reply),
    }
}

fn push_entry(told: &mut Told, entry: &Entry) {
    match entry {
        Entry::Put(pass, path, time, value, end) => {
            let path = path.as_str();
            write!(told, "put {pass} {path} {time} {} ", wide(*value));
            told.push_str(end_word(*end));
        }
        Entry::Drain(pass, path, now) => {
            let path = path.as_str();
            write!(told, "drain {pass} {path} {now}");
        }
        Entry::Ask(pass, number, attempt, now) => {
            write!(told, "ask {pass} {number} {attempt} {now}");
        }
        Entry::Fault(pass, class) => write!(told, "fault {pass} {class}"),
    }
}

fn end_word(end: PutEnd) -> &'static str {
    match end {
        PutEnd::Stored => "stored",
        PutEnd::Replaced => "replaced",
        PutEnd::Full => "full",
    }
}

fn push_reply(told: &mut Told, reply: &Reply) {
    write!(told, "reply {} {}", reply.pass, reply.number);
    push_text(told, reply.query.as_slice());
    push_text(told, reply.body.as_slice());
    push_text(told, reply.text.as_slice());
}

// A text between brackets, behind a blank.
fn push_text(told: &mut Told, text: &[u8]) {
    told.push_str(" [");
    push_bytes(told, text);
    told.push(']');
}

/// `journal ROOM HEAD RECORD..`: a journal of so many bytes with this head, and what it answers
/// when these records are pushed, `+` for each that it takes and `-` for each that it does not;
/// whether it is `cut` or `whole`; and its bytes, in hexadecimal digits. `no room` where the head
/// is longer.
pub fn tell_journal(alloc: Global, told: &mut Told, case: &Case) {
    let room = case.number_at(0, told);
    match head_of(alloc, case.bytes_at(1, told)) {
        Ok(head) => tell_journal_of(alloc, told, room, &head, case.rest(2)),
        Err(fault) => told.fail(fault),
    }
}

fn tell_journal_of(
    alloc: Global,
    told: &mut Told,
    room: u64,
    head: &JournalHead,
    words: &[Vec<u8>],
) {
    if room > 1_000_000_000 {
        return told.malformed();
    }
    match Journal::new(alloc, room, head) {
        Ok(Some(journal)) => push_all(alloc, told, journal, words),
        Ok(None) => told.push_str("no room"),
        Err(_) => told.fail(CaseFault::NoMemory),
    }
}

fn head_of(alloc: Global, bytes: &[u8]) -> Result<JournalHead, CaseFault> {
    match read_head(alloc, bytes) {
        Ok((head, _)) => Ok(head),
        Err(FormFault::Unreadable) => Err(CaseFault::Malformed),
        Err(FormFault::NoMemory) => Err(CaseFault::NoMemory),
    }
}

fn push_all(alloc: Global, told: &mut Told, journal: Journal, words: &[Vec<u8>]) {
    let mut journal = journal;
    for word in words {
        push_word(alloc, told, &mut journal, word.as_slice());
    }
    push_journal(told, &journal);
}

fn push_word(alloc: Global, told: &mut Told, journal: &mut Journal, word: &[u8]) {
    match read_record(alloc, word) {
        Ok((record, _)) => told.push(if pushed(journal, &record) { '+' } else { '-' }),
        Err(FormFault::Unreadable) => told.malformed(),
        Err(FormFault::NoMemory) => told.fail(CaseFault::NoMemory),
    }
}

fn pushed(journal: &mut Journal, record: &Record) -> bool {
    match record {
        Record::Entry(entry) => journal.push_entry(entry),
        Record::Reply(reply) => journal.push_reply(
            reply.pass,
            reply.number,
            reply.query.as_slice(),
            reply.body.as_slice(),
            reply.text.as_slice(),
        ),
    }
}

fn push_journal(told: &mut Told, journal: &Journal) {
    push_next(told, if journal.cut() { "cut " } else { "whole " });
    for byte in journal.bytes() {
        write!(told, "{byte:02x}");
    }
}
