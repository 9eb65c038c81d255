//! Lines, one after the other.
ghost use Rattle.std.specs.Prelude.{◌≡◌, ◌<◌, [], ◌∷◌, Some, None, IfSome, MatchOption, length, option_map, position, if◌then◌else◌};
ghost use Rattle.std.specs.Str.{is_utf8};
ghost use Rattle.std.specs.Str.Lines.{strip_carriage_return};
ghost use Rattle.rule_lines.specs.TextLines.{is_lf, is_passed_over, lines_of};

/// The first line of a text, without its line feed, and what follows that.
#[derive(Clone, Copy)]
pub struct FirstLine<'a> {
    pub line: &'a [u8],
    pub rest: &'a [u8],
}

/// The first line of a text with a line feed: `None` where the text is its last line.
pub fn next_line(text: &[u8]) -> Option<FirstLine<'_>>
    ensures { MatchOption result (lines_of text.now ≡ text.now ∷ []) (λ first.
        (lines_of text.now ≡ first.line.now ∷ lines_of first.rest.now)
        × (length first.rest.now < length text.now)) }
{
    match lf_in(text) {
        Some(at) => {
            return Some(FirstLine {
                line: without_carriage_return(&text[..at]),
                rest: &text[at + 1..],
            });
        }
        None => return None,
    }
}

/// Whether a line is empty or a comment: such a line says nothing.
#[tactic(auto, unfolding(crate::specs::TextLines::is_passed_over))]
pub fn is_passed_over(line: &[u8]) -> bool
    ensures { result ≡ is_passed_over line.now }
{
    line.is_empty() || line[0] == b'#' || line[0] == b';'
}

/// The text of a line that is UTF-8: `None` exactly where it is not.
pub fn text_in(line: &[u8]) -> Option<&str>
    ensures { option_map (λ text. text.now) result
        ≡ (if is_utf8 line.now then Some line.now else None) }
{
    match str::from_utf8(line) {
        Ok(text) => return Some(text),
        Err(_) => return None,
    }
}

fn lf_in(text: &[u8]) -> Option<usize>
    ensures value { result ≡ position is_lf text.now }
    ensures within { IfSome result (λ at. at < length text.now) }
{
    text.iter().position(|b| *b == b'\n')
}

// A line without the carriage return at its end, if it has one.
fn without_carriage_return(line: &[u8]) -> &[u8]
    ensures { result.now ≡ strip_carriage_return line.now }
{
    match line.last() {
        Some(b'\r') => &line[..line.len() - 1],
        _ => line,
    }
}
