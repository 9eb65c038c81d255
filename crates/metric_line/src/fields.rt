//! The fields of a metric line, which blanks separate.

ghost use Rattle.std.specs.Prelude.{◌≡◌, ◌≢◌, ◌+◌, ◌<◌, ◌≤◌, [], ◌∷◌, false, IfSome, MatchOption, None, drop, length, not, position, slice_index, true};
ghost use Rattle.std.specs.List.{position_or_len};
ghost use Rattle.metric_path.specs.Path.{path_fault};
ghost use Rattle.metric_line.specs.LineFields.{capped_count, fields_of, is_blank};

use metric_path::legal_front;

/// The fields of a line that has three.
#[derive(Clone, Copy)]
pub(crate) struct Fields<'a> {
    pub(crate) path: &'a [u8],
    pub(crate) value: &'a [u8],
    pub(crate) time: &'a [u8],
}

/// The first field of a line and what follows it, where that field is a legal path. `None` says nothing of the line.
pub(crate) fn path_field(line: &[u8]) -> Option<(&[u8], &[u8])>
    ensures fields { IfSome result
        (λ parts. fields_of line.now ≡ parts.0.now ∷ fields_of parts.1.now) }
    ensures legal { IfSome result (λ parts. path_fault parts.0.now ≡ None) }
{
    let len = legal_front(line);
    if len == 0 || len >= line.len() || !is_blank(line[len]) {
        return None;
    }
    Some(line.split_at(len))
}

/// The fields of a line: `None` exactly where it has not three.
pub(crate) fn three_fields(line: &[u8]) -> Option<Fields<'_>>
    ensures { MatchOption result (length (fields_of line.now) ≢ 3) (λ fields.
        fields_of line.now ≡ fields.path.now ∷ fields.value.now ∷ fields.time.now ∷ []) }
{
    let (path, others) = next_field(line)?;
    let (value, time) = two_fields(others)?;
    Some(Fields { path, value, time })
}

/// The two fields of a text: `None` exactly where it has not two.
pub(crate) fn two_fields(text: &[u8]) -> Option<(&[u8], &[u8])>
    ensures { MatchOption result (length (fields_of text.now) ≢ 2)
        (λ fields. fields_of text.now ≡ fields.0.now ∷ fields.1.now ∷ []) }
{
    let (first, others) = next_field(text)?;
    let (second, others) = next_field(others)?;
    match next_field(others) {
        None => Some((first, second)),
        Some(_) => None,
    }
}

/// What follows a blank at the front of a text: `None` where it begins with no blank.
pub(crate) fn behind_blank(text: &[u8]) -> Option<&[u8]>
    ensures fields { IfSome result (λ rest. fields_of text.now ≡ fields_of rest.now) }
    ensures blank { IfSome result
        (λ rest. (0 < length text.now) × (is_blank (slice_index text.now 0) ≡ true)) }
{
    if text.is_empty() || !is_blank(text[0]) {
        return None;
    }
    Some(&text[1..])
}

/// How many fields a line has, `u32::MAX` standing for all greater counts.
pub(crate) fn field_count(line: &[u8]) -> u32
    ensures { result ≡ capped_count (fields_of line.now) }
{
    u32::try_from(count_fields(line)).unwrap_or(u32::MAX)
}

fn count_fields(line: &[u8]) -> usize
    ensures { result ≡ length (fields_of line.now) }
{
    line.split(|b| is_blank(*b))
        .filter(|piece| piece.len() > 0)
        .count()
}

// The first field of a text and what follows it: `None` exactly where the text has no field.
fn next_field(text: &[u8]) -> Option<(&[u8], &[u8])>
    ensures { MatchOption result (fields_of text.now ≡ [])
        (λ parts. fields_of text.now ≡ parts.0.now ∷ fields_of parts.1.now) }
{
    let text = from_field(text);
    if text.is_empty() {
        return None;
    }
    Some(text.split_at(field_len(text)))
}

// A text without the blanks at its front.
fn from_field(text: &[u8]) -> &[u8]
    ensures fields { fields_of result.now ≡ fields_of text.now }
    ensures front { 0 < length result.now → 0 < position_or_len is_blank result.now }
{
    &text[field_start(text)..]
}

fn field_start(text: &[u8]) -> usize
    ensures place { result ≡ position_or_len (λ b. not (is_blank b)) text.now }
    ensures within { result ≤ length text.now }
{
    no_blank_in(text).unwrap_or(text.len())
}

fn no_blank_in(text: &[u8]) -> Option<usize>
    ensures { result ≡ position (λ b. not (is_blank b)) text.now }
{
    text.iter().position(|b| !is_blank(*b))
}

fn field_len(text: &[u8]) -> usize
    ensures place { result ≡ position_or_len is_blank text.now }
    ensures within { result ≤ length text.now }
{
    blank_in(text).unwrap_or(text.len())
}

fn blank_in(text: &[u8]) -> Option<usize>
    ensures { result ≡ position is_blank text.now }
{
    text.iter().position(|b| is_blank(*b))
}

// A cross stands at the place of each blank, and a point at every other place.
static BLANKS: [u8; 256] = *b"\
    .........x.xxx..................\
    x...............................\
    ................................\
    ................................\
    ................................\
    ................................\
    ................................\
    ................................";

fn is_blank(b: u8) -> bool
    ensures { result ≡ is_blank b }
{
    BLANKS[b as usize] == b'x'
}
