//! The parts that a target's bytes make.
ghost use Rattle.std.specs.Prelude.{◌≡◌, ◌≤◌, IsAscii, length, option_map, false};
ghost use Rattle.std.specs.List.{list_all};
ghost use Rattle.std.specs.Str.{bytes_eq};
ghost use Rattle.fixed_num.specs.Decimal.{is_number};
ghost use Rattle.path_glob.specs.Stretch.{is_glob_byte, is_held, is_in_braces, stretch_len};
ghost use Rattle.target_parse.specs.Bytes.{behind_stretch, flag_of, is_blank, is_letter, is_name, is_quote, is_word_byte, stretch_of};
ghost use Rattle.target_parse.specs.Tree.{flag_text};
ghost use Rattle.target_parse.specs.Reading.{behind_byte, first_quote, in_call, place_of_byte, skip_blanks};

use fixed_num::{NumFault, read_milli};

// Each byte that a glob may hold outside braces stands at its own place, and a slash at every other place.
static GLOB_BYTES: [u8; 256] = *b"\
    ////////////////////////////////\
    /!/#$%&///*+/-./0123456789:/<=>?\
    @ABCDEFGHIJKLMNOPQRSTUVWXYZ[/]^_\
    `abcdefghijklmnopqrstuvwxyz{/}~/\
    ////////////////////////////////\
    ////////////////////////////////\
    ////////////////////////////////\
    ////////////////////////////////";

// The longest stretch that begins a text, and what follows it.
#[derive(Clone, Copy)]
pub(crate) struct Stretch<'a> {
    pub(crate) text: &'a [u8],
    pub(crate) rest: &'a [u8],
}

// The quote that a text begins with, and what follows it.
#[derive(Clone, Copy)]
pub(crate) struct Quote<'a> {
    pub(crate) byte: u8,
    pub(crate) rest: &'a [u8],
}

/// A text without the blanks that it begins with.
pub(crate) fn skip_blanks(text: &[u8]) -> &[u8]
    ensures { result.now ≡ skip_blanks text.now }
{
    let mut rest = text;
    while let Some((first, behind)) = rest.split_first() {
        if !is_blank(*first) {
            return rest;
        }
        rest = behind;
    }
    rest
}

/// What follows this byte, where the text begins with it.
pub(crate) fn behind_byte(text: &[u8], mark: u8) -> Option<&[u8]>
    ensures { option_map (λ rest. rest.now) result ≡ behind_byte mark text.now }
{
    let Some((first, rest)) = text.split_first() else {
        return None;
    };
    if *first != mark {
        return None;
    }
    Some(rest)
}

/// The quote that a text begins with.
pub(crate) fn first_quote(text: &[u8]) -> Option<Quote<'_>>
    ensures { option_map (λ quote. (quote.byte, quote.rest.now)) result ≡ first_quote text.now }
{
    let Some((first, rest)) = text.split_first() else {
        return None;
    };
    if !is_quote(*first) {
        return None;
    }
    Some(Quote { byte: *first, rest })
}

/// The place of the first such byte, or the text's length.
pub(crate) fn place_of_byte(text: &[u8], mark: u8) -> usize
    ensures place { result ≡ place_of_byte mark text.now }
    ensures within { result ≤ length text.now }
{
    for (at, b) in text.iter().enumerate() {
        if *b == mark {
            return at;
        }
    }
    text.len()
}

/// The longest stretch that begins a text, and what follows it.
pub(crate) fn cut_stretch(text: &[u8]) -> Stretch<'_>
    ensures text { result.text.now ≡ stretch_of text.now }
    ensures rest { result.rest.now ≡ behind_stretch text.now }
    ensures ascii { IsAscii result.text.now }
{
    let (text, rest) = text.split_at(stretch_len(text));
    Stretch { text, rest }
}

// How long the longest stretch is that begins a text.
fn stretch_len(text: &[u8]) -> usize
    ensures value { result ≡ stretch_len false text.now }
    ensures within { result ≤ length text.now }
{
    let mut in_braces = false;
    for (at, b) in text.iter().enumerate() {
        if !is_held(in_braces, *b) {
            return at;
        }
        in_braces = is_in_braces(in_braces, *b);
    }
    text.len()
}

/// What stands behind the bracket of a call, where a stretch is its name.
pub(crate) fn in_call<'a>(stretch: &[u8], rest: &'a [u8]) -> Option<&'a [u8]>
    ensures { option_map (λ inside. inside.now) result ≡ in_call stretch.now rest.now }
{
    if !is_name(stretch) {
        return None;
    }
    behind_byte(rest, b'(')
}

// Whether a text is the name of a call.
fn is_name(text: &[u8]) -> bool
    ensures { result ≡ is_name text.now }
{
    match text.split_first() {
        Some((first, rest)) => return is_letter(*first) && are_word_bytes(rest),
        None => return false,
    }
}

// Whether a text has letters, digits and `_` alone.
fn are_word_bytes(text: &[u8]) -> bool
    ensures { result ≡ list_all is_word_byte text.now }
{
    text.iter().all(|b| is_word_byte(*b))
}

/// Whether a text is in the grammar of numbers.
#[tactic(auto, unfolding(fixed_num::specs::Read::read_as))]
pub(crate) fn is_number(text: &[u8]) -> bool
    ensures { result ≡ is_number text.now }
{
    match read_milli(text) {
        Ok(_) => return true,
        Err(NumFault::OutOfRange) => return true,
        Err(NumFault::NotFinite) => return false,
        Err(NumFault::NotNumber) => return false,
    }
}

/// The flag that a text is.
#[tactic(auto, unfolding(crate::specs::Bytes::flag_of))]
pub(crate) fn flag_of(text: &[u8]) -> Option<bool>
    ensures { result ≡ flag_of text.now }
{
    if is_word(text, flag_text(true)) {
        return Some(true);
    }
    if is_word(text, flag_text(false)) {
        return Some(false);
    }
    None
}

fn is_word(text: &[u8], word: &str) -> bool
    ensures { result ≡ bytes_eq text.now word.now }
{
    text == word.as_bytes()
}

/// The text of a flag.
#[tactic(auto, unfolding(crate::specs::Tree::flag_text))]
pub(crate) fn flag_text(flag: bool) -> &'static str
    ensures { result.now ≡ flag_text flag }
{
    if flag { "true" } else { "false" }
}

// Whether a byte belongs to a stretch.
fn is_held(in_braces: bool, b: u8) -> bool
    ensures { result ≡ is_held in_braces b }
{
    is_glob_byte(b) || (in_braces && b == b',')
}

// Whether the place behind a byte lies within braces.
fn is_in_braces(in_braces: bool, b: u8) -> bool
    ensures { result ≡ is_in_braces in_braces b }
{
    b == b'{' || (in_braces && b != b'}')
}

// Whether a glob may hold a byte outside braces.
fn is_glob_byte(b: u8) -> bool
    ensures { result ≡ is_glob_byte b }
{
    GLOB_BYTES[b as usize] != b'/'
}

fn is_blank(b: u8) -> bool
    ensures { result ≡ is_blank b }
{
    b == b' ' || b == b'\t'
}

fn is_quote(b: u8) -> bool
    ensures { result ≡ is_quote b }
{
    b == b'\'' || b == b'"'
}

fn is_word_byte(b: u8) -> bool
    ensures { result ≡ is_word_byte b }
{
    is_letter(b) || b.is_ascii_digit() || b == b'_'
}

fn is_letter(b: u8) -> bool
    ensures { result ≡ is_letter b }
{
    (b >= b'A' && b <= b'Z') || (b >= b'a' && b <= b'z')
}
