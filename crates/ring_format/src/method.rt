//! The numbers that stand for methods in a file, and the first word of a head.
ghost use Rattle.std.specs.Prelude.{◌≡◌, ◌≤◌, IfSome};
ghost use Rattle.ring_format.specs.Cell.{IsVersion};
ghost use Rattle.ring_format.specs.Head.{first_word, method_number, method_of, told_by};

use crate::archive::Method;
use crate::cell::{OLD_VERSION, VERSION};

// How much greater the first word of version 2 is than the method's number.
const WORD_STEP: u32 = 512;

/// The first word of a file that is written.
pub(crate) fn first_word(method: Method) -> u32
    ensures { result ≡ first_word 2 method }
{
    WORD_STEP + number_of_method(method)
}

/// The method and the version that a first word tells, or `None` where it is no first word.
#[tactic(auto, unfolding(crate::specs::Head::told_by))]
pub(crate) fn told_by(word: u32) -> Option<(Method, u32)>
    ensures value { result ≡ told_by word }
    ensures version { IfSome result (λ told. IsVersion told.1) }
{
    if word > WORD_STEP {
        return Some((method_of(word - WORD_STEP)?, VERSION));
    }
    Some((method_of(word)?, OLD_VERSION))
}

// The number that stands for a method.
fn number_of_method(method: Method) -> u32
    ensures value { result ≡ method_number method }
    ensures most { result ≤ 8 }
{
    match method {
        Method::Average => 1,
        Method::Sum => 2,
        Method::Last => 3,
        Method::Max => 4,
        Method::Min => 5,
        Method::AvgZero => 6,
        Method::AbsMax => 7,
        Method::AbsMin => 8,
    }
}

/// The method of a number, or `None` where no method has it.
#[tactic(auto, unfolding(crate::specs::Head::method_of))]
pub(crate) fn method_of(number: u32) -> Option<Method>
    ensures { result ≡ method_of number }
{
    match number {
        1 => Some(Method::Average),
        2 => Some(Method::Sum),
        3 => Some(Method::Last),
        4 => Some(Method::Max),
        5 => Some(Method::Min),
        6 => Some(Method::AvgZero),
        7 => Some(Method::AbsMax),
        8 => Some(Method::AbsMin),
        _ => None,
    }
}
