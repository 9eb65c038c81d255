//! A stored history: a journal keeps the entries of a run and the replies that its questions got,
//! as bytes in a room that is taken at the start.
//!
//! A journal is a head and then one record behind the other. What is written is read back, and
//! what is read was written so.
#![tactic(auto)]

mod appending;
mod arrays;
mod fields;
mod journal;
mod laws;
mod parts;
mod reading;
mod record;
mod sizes;

pub use journal::Journal;
pub use laws::{
    read_head_was_written, read_record_was_written, written_head_is_read, written_record_is_read,
};
pub use parts::EntryParts;
pub use reading::{read_head, read_record};
pub use record::{FormFault, JournalHead, Record, Reply};
pub use std::alloc::AllocError as NoMemory;
