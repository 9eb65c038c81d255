//! Pickles of protocol 2 that hold plain values: sequences, mappings, texts, whole numbers, doubles, none and booleans. A
//! pickle names nothing that a reader would have to call. Pickles are written here, and none is read.
#![tactic(auto)]

mod double;
mod laws;
mod parts;

pub use double::nearest_double;
pub use laws::{double_is_nearest, pickle_is_read_back};
pub use parts::{push_boolean, push_count, push_double, push_head, push_text, push_whole};
