//! One history that threads share. What it holds stands in the proofs alone: at run time there are
//! counts, and no entry is kept.
#![tactic(auto)]

mod closing;
mod entering;
mod event;
mod laws;
mod making;
mod parts;
mod rights;
mod rule;
mod seeing;
mod settling;
mod view;

pub use closing::{History, close};
pub use entering::{enter, enter_ask};
pub use event::Event;
pub use laws::{
    each_entry_is_of_a_pass, looks_are_behind_their_class, looks_are_of_classes_that_were_made,
    one_seat_appends, one_seat_has_a_class, what_is_seen_begins_the_history,
};
pub use making::make;
pub use parts::{MOST_ENTRIES, Note, Order, Pass, Tail};
pub use seeing::{agree, learn, note, see};
pub use settling::{mark, ran, settle};
