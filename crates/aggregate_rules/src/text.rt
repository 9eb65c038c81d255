//! The bytes of patterns and outputs.
ghost use Rattle.std.specs.Prelude.{◌≡◌, ◌<◌, [], ◌∷◌, IfSome, MatchOption, length, position};
ghost use Rattle.std.specs.List.{list_all, slice_split};
ghost use Rattle.std.specs.Str.{bytes_eq};
ghost use Rattle.metric_path.specs.Path.{is_dot, nodes_of};
ghost use Rattle.aggregate_rules.specs.RuleTexts.{any_empty, is_closing, is_gap_mark, is_name_byte, is_opening, is_output_byte, is_plain};

use crate::cut::Cut;

// Each byte that a pattern may name stands at its own place, and a slash at every other place.
static PLAIN_BYTES: [u8; 256] = *b"\
    ////////////////////////////////\
    /!/#$%&////+/-//0123456789://=//\
    @ABCDEFGHIJKLMNOPQRSTUVWXYZ///^_\
    `abcdefghijklmnopqrstuvwxyz///~/\
    ////////////////////////////////\
    ////////////////////////////////\
    ////////////////////////////////\
    ////////////////////////////////";

/// Whether all bytes stand for themselves in a pattern.
pub(crate) fn all_plain(text: &[u8]) -> bool
    ensures { result ≡ list_all is_plain text.now }
{
    text.iter().all(|b| is_plain(*b))
}

/// Whether all bytes are those of nodes and dots.
pub(crate) fn all_output_bytes(text: &[u8]) -> bool
    ensures { result ≡ list_all is_output_byte text.now }
{
    text.iter().all(|b| is_plain(*b) || *b == b'.')
}

/// Whether all bytes are letters, digits and underscores.
pub(crate) fn all_name_bytes(text: &[u8]) -> bool
    ensures { result ≡ list_all is_name_byte text.now }
{
    text.iter().all(|b| b.is_ascii_alphanumeric() || *b == b'_')
}

// Whether a byte stands for itself in a pattern.
fn is_plain(b: u8) -> bool
    ensures { result ≡ is_plain b }
{
    PLAIN_BYTES[b as usize] != b'/'
}

/// Where the first gap of a node begins.
pub(crate) fn gap_in(text: &[u8]) -> Option<usize>
    ensures value { result ≡ position is_gap_mark text.now }
    ensures within { IfSome result (λ at. at < length text.now) }
{
    text.iter().position(|b| *b == b'*' || *b == b'<')
}

/// Where the first name begins.
pub(crate) fn opening_in(text: &[u8]) -> Option<usize>
    ensures value { result ≡ position is_opening text.now }
    ensures within { IfSome result (λ at. at < length text.now) }
{
    text.iter().position(|b| *b == b'<')
}

/// Where the first name ends.
pub(crate) fn closing_in(text: &[u8]) -> Option<usize>
    ensures value { result ≡ position is_closing text.now }
    ensures within { IfSome result (λ at. at < length text.now) }
{
    text.iter().position(|b| *b == b'>')
}

/// What stands before the first dot of a text, and what follows it: `None` where it has none.
pub(crate) fn next_node(text: &[u8]) -> Option<Cut<'_>>
    ensures { MatchOption result (nodes_of text.now ≡ text.now ∷ []) (λ node.
        (nodes_of text.now ≡ node.front.now ∷ nodes_of node.rest.now)
        × (length node.rest.now < length text.now)) }
{
    match dot_in(text) {
        Some(at) => {
            return Some(Cut {
                front: &text[..at],
                rest: &text[at + 1..],
            });
        }
        None => return None,
    }
}

fn dot_in(text: &[u8]) -> Option<usize>
    ensures value { result ≡ position is_dot text.now }
    ensures within { IfSome result (λ at. at < length text.now) }
{
    text.iter().position(|b| *b == b'.')
}

/// What stands before the first `<` of a text, and what follows it: `None` where it has none.
pub(crate) fn next_opened(text: &[u8]) -> Option<Cut<'_>>
    ensures { MatchOption result (slice_split is_opening text.now ≡ text.now ∷ []) (λ piece.
        (slice_split is_opening text.now ≡ piece.front.now ∷ slice_split is_opening piece.rest.now)
        × (length piece.rest.now < length text.now)) }
{
    match opening_in(text) {
        Some(at) => {
            return Some(Cut {
                front: &text[..at],
                rest: &text[at + 1..],
            });
        }
        None => return None,
    }
}

/// Whether a node has no bytes.
pub(crate) fn has_empty_node(text: &[u8]) -> bool
    ensures { result ≡ any_empty (nodes_of text.now) }
{
    text.split(|b| *b == b'.').any(|node| node.is_empty())
}

/// Whether two texts are the same.
pub(crate) fn is_same(text: &[u8], other: &[u8]) -> bool
    ensures { result ≡ bytes_eq text.now other.now }
{
    text == other
}
