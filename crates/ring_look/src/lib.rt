//! Looks into the ring files of metrics, for an operator: what a file is, what it has stored, what it shows, and what is wrong
//! with it. No call changes a file, and none needs another file than its own, so a daemon may run meanwhile: what is read then
//! may have a part of a drain in it.
#![tactic(auto)]

mod archives;
mod fetched;
mod finding;
mod finding_text;
mod found;
mod info_text;
mod pushing;
mod values_text;
mod words;

pub use archives::{ArchiveInfo, read_archives};
pub use fetched::fetch_file;
pub use finding::{Finding, find_file};
pub use finding_text::{is_wrong, push_finding};
pub use found::{FileFound, look_at};
pub use info_text::push_info;
pub use values_text::push_values;
pub use words::{archive_of_layout_fault, layout_words};
