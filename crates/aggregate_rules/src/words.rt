//! The words of a line that says a rule.
ghost use Rattle.std.specs.Prelude.{◌≡◌, ◌<◌, ◌≤◌, IfSome, Some, None, option_map, position, if◌then◌else◌};
ghost use Rattle.std.specs.Prelude.{codes};
ghost use Rattle.std.specs.Str.{bytes_eq};
ghost use Rattle.rule_lines.specs.TextLines.{is_blank};
ghost use Rattle.aggregate_rules.specs.RuleTexts.{method_of, most_seconds, seconds_in, seconds_of, seconds_within, word_and_rest, words_of};
ghost use Rattle.aggregate_rules.specs.SeenWords.{seen_cut, seen_words};

use crate::cut::Cut;
use crate::text::is_same;
use fixed_num::{all_digits, capped_number};
use ring_format::Method;
use rule_lines::{is_blank, without_first_blanks};

/// The words of a line: `OUTPUT (SECONDS) = METHOD PATTERN`.
#[derive(Clone, Copy)]
pub(crate) struct LineWords<'a> {
    pub(crate) output: &'a [u8],
    pub(crate) seconds: &'a [u8],
    pub(crate) equals: &'a [u8],
    pub(crate) method: &'a [u8],
    pub(crate) pattern: &'a [u8],
}

// The most seconds of an interval: those of 365 days.
const MOST_SECONDS: u64 = 31_536_000;

/// The four words at the front of a line, and what stands behind them: `None` exactly where blanks
/// follow fewer words.
#[tactic(auto, unfolding(crate::specs::RuleTexts::words_of))]
pub(crate) fn words_of(line: &[u8]) -> Option<LineWords<'_>>
    ensures { option_map seen_words result ≡ words_of line.now }
{
    let output = word_and_rest(line)?;
    let seconds = word_and_rest(output.rest)?;
    let equals = word_and_rest(seconds.rest)?;
    let method = word_and_rest(equals.rest)?;
    Some(LineWords {
        output: output.front,
        seconds: seconds.front,
        equals: equals.front,
        method: method.front,
        pattern: method.rest,
    })
}

// The word at the front of a text, and what stands behind the blanks that follow it: `None` where
// none follow.
fn word_and_rest(text: &[u8]) -> Option<Cut<'_>>
    ensures { option_map seen_cut result ≡ word_and_rest text.now }
{
    let at = blank_in(text)?;
    Some(Cut {
        front: &text[..at],
        rest: without_first_blanks(&text[at + 1..]),
    })
}

fn blank_in(text: &[u8]) -> Option<usize>
    ensures { result ≡ position is_blank text.now }
{
    text.iter().position(|b| is_blank(*b))
}

/// Whether a word is `=`.
pub(crate) fn is_equals(word: &[u8]) -> bool
    ensures { result ≡ bytes_eq word.now (codes "=") }
{
    word == b"=".as_slice()
}

/// The seconds of `(SECONDS)`.
#[tactic(auto, unfolding(crate::specs::RuleTexts::seconds_of))]
pub(crate) fn seconds_of(word: &[u8]) -> Option<u32>
    ensures value { result ≡ seconds_of word.now }
    ensures range { IfSome result (λ seconds. (0 < seconds) × (seconds ≤ most_seconds)) }
{
    if word.len() < 2 || word[0] != b'(' || word[word.len() - 1] != b')' {
        return None;
    }
    seconds_in(&word[1..word.len() - 1])
}

// The seconds that digits write.
#[tactic(auto, unfolding(crate::specs::RuleTexts::seconds_in))]
fn seconds_in(digits: &[u8]) -> Option<u32>
    ensures value { result ≡ seconds_in digits.now }
    ensures range { IfSome result (λ seconds. (0 < seconds) × (seconds ≤ most_seconds)) }
{
    if !all_digits(digits) {
        return None;
    }
    seconds_within(capped_number(digits))
}

// A number that is one of seconds.
fn seconds_within(number: u64) -> Option<u32>
    ensures value { result ≡ seconds_within number }
    ensures range { IfSome result (λ seconds. (0 < seconds) × (seconds ≤ most_seconds)) }
{
    if number == 0 || number > MOST_SECONDS {
        return None;
    }
    Some(number as u32)
}

/// The method that a word names.
#[tactic(auto, unfolding(crate::specs::RuleTexts::method_of))]
pub(crate) fn method_of(word: &[u8]) -> Option<Method>
    ensures { result ≡ method_of word.now }
{
    if is_same(word, b"sum") {
        return Some(Method::Sum);
    }
    if is_same(word, b"avg") {
        return Some(Method::Average);
    }
    if is_same(word, b"min") {
        return Some(Method::Min);
    }
    if is_same(word, b"max") {
        return Some(Method::Max);
    }
    if is_same(word, b"last") {
        return Some(Method::Last);
    }
    None
}
