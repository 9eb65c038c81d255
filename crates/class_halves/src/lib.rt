//! What the two locks of a class agree on. The desk, with the points that are pending, has one half, and the
//! files, with what is kept, the other. Both have the same stand: the class as it was when both locks were last
//! held. It changes only where both halves are at hand, so who holds the lock of the files knows that all that
//! the stand says holds on, while the desk is locked and given back by others.
#![tactic(auto)]

mod half;
mod pair;
mod rule;
mod view;

pub use half::{DeskHalf, FilesHalf, meet, renew};
pub use pair::{Halves, Pair};
