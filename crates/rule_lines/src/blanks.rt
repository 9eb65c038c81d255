//! Blanks, and texts without them.
ghost use Rattle.std.specs.Prelude.{◌≡◌, ◌≤◌, length, position, reverse};
ghost use Rattle.std.specs.List.{position_or_len};
ghost use Rattle.rule_lines.specs.TextLines.{is_blank, is_no_blank, trimmed, without_first_blanks, without_last_blanks};

/// Whether a byte is a space or a tab.
pub fn is_blank(b: u8) -> bool
    ensures { result ≡ is_blank b }
{
    b == b' ' || b == b'\t'
}

/// A text without the blanks at both ends.
#[tactic(auto, unfolding(crate::specs::TextLines::trimmed))]
pub fn trimmed(text: &[u8]) -> &[u8]
    ensures { result.now ≡ trimmed text.now }
{
    without_last_blanks(without_first_blanks(text))
}

/// A text without the blanks at its end.
#[tactic(auto, unfolding(crate::specs::TextLines::without_last_blanks))]
pub fn without_last_blanks(text: &[u8]) -> &[u8]
    ensures { result.now ≡ without_last_blanks text.now }
{
    &text[..text.len() - last_blanks(text)]
}

/// A text without the blanks at its front.
#[tactic(auto, unfolding(crate::specs::TextLines::without_first_blanks))]
pub fn without_first_blanks(text: &[u8]) -> &[u8]
    ensures { result.now ≡ without_first_blanks text.now }
{
    &text[first_blanks(text)..]
}

// How many blanks stand at the front.
fn first_blanks(text: &[u8]) -> usize
    ensures count { result ≡ position_or_len is_no_blank text.now }
    ensures within { result ≤ length text.now }
{
    no_blank_in(text).unwrap_or(text.len())
}

// How many blanks stand at the end.
fn last_blanks(text: &[u8]) -> usize
    ensures count { result ≡ position_or_len is_no_blank (reverse text.now) }
    ensures within { result ≤ length text.now }
{
    last_no_blank_in(text).unwrap_or(text.len())
}

fn no_blank_in(text: &[u8]) -> Option<usize>
    ensures { result ≡ position is_no_blank text.now }
{
    text.iter().position(|b| !is_blank(*b))
}

fn last_no_blank_in(text: &[u8]) -> Option<usize>
    ensures { result ≡ position is_no_blank (reverse text.now) }
{
    text.iter().rev().position(|b| !is_blank(*b))
}
