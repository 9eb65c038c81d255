//! The texts and numbers of a case's lines, and how bytes are shown.

use crate::fault::CaseFault;
use std::alloc::{AllocError, Global};

/// The bytes that a text with escapes says: `\n`, `\r`, `\t`, `\s` for a blank, `\\`, `\xff` for a byte, and `\(9x)` for nine
/// times the byte `x`.
pub fn unescaped(alloc: Global, text: &str) -> Result<Vec<u8>, CaseFault> {
    let mut bytes = Vec::new(alloc);
    let mut rest = text.as_bytes();
    for _ in 0..text.len() {
        rest = take_unit(&mut bytes, rest)?;
    }
    Ok(bytes)
}

// Takes one byte or one escape from the front of a text.
fn take_unit<'a>(bytes: &mut Vec<u8>, text: &'a [u8]) -> Result<&'a [u8], CaseFault> {
    match text {
        [b'\\', rest @ ..] => take_escape(bytes, rest),
        [byte, rest @ ..] => {
            bytes.push(*byte)?;
            Ok(rest)
        }
        [] => Ok(text),
    }
}

// Takes what stands behind a backslash.
fn take_escape<'a>(bytes: &mut Vec<u8>, text: &'a [u8]) -> Result<&'a [u8], CaseFault> {
    match text {
        [b'x', high, low, rest @ ..] => {
            bytes.push((digit(*high)? << 4) | digit(*low)?)?;
            Ok(rest)
        }
        [b'(', rest @ ..] => take_row(bytes, rest),
        [letter, rest @ ..] => {
            bytes.push(control(*letter)?)?;
            Ok(rest)
        }
        [] => Err(CaseFault::Malformed),
    }
}

// Takes a count, a byte and a closing bracket.
fn take_row<'a>(bytes: &mut Vec<u8>, text: &'a [u8]) -> Result<&'a [u8], CaseFault> {
    let mut count: usize = 0;
    let mut rest = text;
    for _ in 0..9 {
        let [figure, behind @ ..] = rest else { break };
        if !figure.is_ascii_digit() {
            break;
        }
        count = count
            .saturating_mul(10)
            .saturating_add(usize::from(*figure & 15));
        rest = behind;
    }
    let (byte, behind) = match rest {
        [b'\\', b'x', high, low, b')', behind @ ..] => (
            (digit(*high)? << 4) | digit(*low)?,
            behind,
        ),
        [byte, b')', behind @ ..] => (*byte, behind),
        _ => return Err(CaseFault::Malformed),
    };
    let len = bytes.len().saturating_add(count);
    bytes.resize(len, byte)?;
    Ok(behind)
}

fn control(letter: u8) -> Result<u8, CaseFault> {
    match letter {
        b'n' => Ok(b'\n'),
        b'r' => Ok(b'\r'),
        b't' => Ok(b'\t'),
        b's' => Ok(b' '),
        b'\\' => Ok(b'\\'),
        _ => Err(CaseFault::Malformed),
    }
}

fn digit(figure: u8) -> Result<u8, CaseFault> {
    match figure {
        b'0'..=b'9' => Ok(figure - b'0'),
        b'a'..=b'f' => Ok(figure - b'a' + 10),
        _ => Err(CaseFault::Malformed),
    }
}

/// A whole number.
pub fn number(word: &str) -> Result<u64, CaseFault> {
    match word.parse::<u64>() {
        Ok(number) => Ok(number),
        Err(_) => Err(CaseFault::Malformed),
    }
}

/// The same, where it has to fit.
pub fn small_number(word: &str) -> Result<u32, CaseFault> {
    match word.parse::<u32>() {
        Ok(number) => Ok(number),
        Err(_) => Err(CaseFault::Malformed),
    }
}

/// The numbers of a line, separated by blanks.
pub fn numbers(alloc: Global, text: &str) -> Result<Vec<u64>, CaseFault> {
    let mut numbers = Vec::new(alloc);
    for word in text.split(' ') {
        if !word.is_empty() {
            numbers.push(number(word)?)?;
        }
    }
    Ok(numbers)
}

/// The first word of a text and what stands behind the blank after it.
pub fn first_word(text: &str) -> (&str, &str) {
    match text.split_once(' ') {
        Some(parts) => parts,
        None => (text, ""),
    }
}

/// Writes bytes as lines, each behind a stroke. A last line that has no end is told.
pub fn write_lines(page: &mut String, bytes: &[u8]) -> Result<(), AllocError> {
    let mut begun = false;
    for byte in bytes {
        if !begun {
            page.push_str("| ")?;
        }
        begun = *byte != b'\n';
        write_shown(page, *byte)?;
    }
    if begun {
        page.push_str(" (no end of line)\n")?;
    }
    Ok(())
}

// Writes a byte as it stands in a text with escapes, but for the end of a line.
fn write_shown(page: &mut String, byte: u8) -> Result<(), AllocError> {
    match byte {
        b'\\' => page.push_str("\\\\")?,
        b'\n' | b' '..=b'~' => page.push(char::from(byte))?,
        _ => write!(page, "\\x{byte:02x}")?,
    }
    Ok(())
}
