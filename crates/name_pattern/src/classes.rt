//! How much it is to read patterns. No answer depends on it.

/// Where the case of letters may be folded, a class counts as so many.
const FOLDED: usize = 25;

/// How many classes there are in a text with patterns, at most: a class as `\w` has hundreds of ranges, each of which is copied where it is read.
pub fn classes_in(text: &[u8]) -> usize {
    let signs = text
        .iter()
        .filter(|byte| **byte == b'\\' || **byte == b'[')
        .count();
    if has_flags(text) {
        return signs.saturating_mul(FOLDED);
    }
    signs
}

// Whether flags may be set in a text, as by `(?i)`.
fn has_flags(text: &[u8]) -> bool {
    let mut before = 0;
    for byte in text {
        if before == b'(' && *byte == b'?' {
            return true;
        }
        before = *byte;
    }
    false
}
