//! What stands behind the path of most lines, read in the walk that finds where its parts end.

ghost use Rattle.std.specs.Prelude.{◌≡◌, [], ◌∷◌, IfSome, Ok, Some};
ghost use Rattle.fixed_num.specs.Milli.{IsMilli};
ghost use Rattle.fixed_num.specs.Read.{milli_result};
ghost use Rattle.fixed_num.specs.Whole.{whole_number};
ghost use Rattle.metric_line.specs.LineFields.{fields_of};

use crate::fields::behind_blank;
use fixed_num::{Milli, milli_front, read_whole};

/// The value and the time behind the path of a line.
#[derive(Clone, Copy)]
pub(crate) struct PlainFields<'a> {
    pub(crate) value_text: &'a [u8],
    pub(crate) time_text: &'a [u8],
    /// The value in thousandths.
    pub(crate) value: Milli,
    /// The time in seconds since the Unix epoch.
    pub(crate) seconds: u64,
    ghost fits: { IsMilli value },
}

/// Reads a blank, digits with at most one point among them, a blank and digits, and nothing else. `None` says nothing of the text.
pub(crate) fn plain_fields(text: &[u8]) -> Option<PlainFields<'_>>
    ensures fields { IfSome result
        (λ plain. fields_of text.now ≡ plain.value_text.now ∷ plain.time_text.now ∷ []) }
    ensures value { IfSome result (λ plain. milli_result plain.value_text.now ≡ Ok plain.value) }
    ensures seconds { IfSome result
        (λ plain. whole_number plain.time_text.now ≡ Some plain.seconds) }
{
    // A text that ends otherwise is none of these, which is seen before any other byte is read.
    if !text.last()?.is_ascii_digit() {
        return None;
    }
    let others = behind_blank(text)?;
    let front = milli_front(others)?;
    let (value_text, others) = others.split_at(front.len);
    let time_text = behind_blank(others)?;
    let seconds = read_whole(time_text)?;
    Some(PlainFields {
        value_text,
        time_text,
        value: front.value,
        seconds,
    })
}
