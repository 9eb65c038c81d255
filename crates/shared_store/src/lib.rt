//! The store: the desk of each class, with its pending points and entries, behind one lock, its files
//! behind another, and one history behind a third. Many threads put, plan, write and ask, and each of
//! them sees one history.
#![tactic(auto)]

mod ask_fault;
mod asking;
mod bare_reading;
mod call_room;
mod class_asking;
mod class_desk;
mod class_draining;
mod class_files;
mod class_planning;
mod class_reading;
mod close;
mod counting;
mod creating;
mod drain_end;
mod draining;
mod events;
mod finding;
mod finds;
mod foreseeing;
mod found_set;
mod holding;
mod laws;
mod named;
mod naming;
mod notes;
mod order_desk;
mod put_counts;
mod putting;
mod reading;
mod room;
mod runs;
mod start;
mod step;
mod store;
mod store_pass;
mod tally;
mod try_end;
mod wanted;

pub use ask_fault::AskFault;
pub use call_room::{MOST_CALL_ENTRIES, has_room};
pub use close::Closed;
pub use drain_end::DrainEnd;
pub use laws::a_started_shard_is_fresh;
pub use named::Named;
pub use put_counts::PutCounts;
pub use start::{Parts, make_pairs};
pub use step::Step;
pub use store::Store;
pub use store_pass::StorePass;
pub use tally::Tally;
