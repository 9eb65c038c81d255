//! Numbers as carbon keeps them: values in whole thousandths from -10^30 to 10^30, read exactly
//! from decimal text and printed exactly, and moments in seconds. Nothing here takes memory.
#![tactic(auto)]

mod digits;
mod front;
mod grammar;
mod laws;
mod milli;
mod moment;
mod printed_form;
mod reached;
mod reading;
mod scaling;

pub use digits::{all_digits, capped_number, read_whole};
pub use front::{MilliFront, milli_front};
pub use grammar::first_point;
pub use laws::{printed_text_is_read_back, read_text_has_its_value, values_are_what_fits};
pub use milli::{
    MILLI_BYTES, MILLI_TEXT, Milli, OLD_MILLI_BYTES, milli_bytes, milli_of, milli_of_bytes, narrow,
    old_milli_of_bytes, wide, zero,
};
pub use moment::{GREATEST_MOMENT, LEAST_MOMENT, legal_moment};
pub use printed_form::print_milli;
pub use reading::{read_milli, read_millionths, read_nano};

/// Why a text is not read as a number.
#[derive(Clone, Copy, Debug, PartialEq, Eq)]
pub enum NumFault {
    /// The text is neither a decimal nor a word of infinity or not-a-number.
    NotNumber,
    /// The text is a word of infinity or not-a-number.
    NotFinite,
    /// The text is a decimal outside the range of the answer.
    OutOfRange,
}
