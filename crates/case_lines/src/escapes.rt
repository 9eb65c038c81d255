//! Bytes as texts with escapes, and back.

use crate::fault::CaseFault;
use std::alloc::{AllocError, Global};

/// The bytes that a text with escapes says; `""` alone says none.
pub fn unescaped(alloc: Global, text: &str) -> Result<Vec<u8>, CaseFault> {
    let mut bytes = Vec::new(alloc);
    if text == "\"\"" {
        return Ok(bytes);
    }
    let mut rest = text.as_bytes();
    for _ in 0..text.len() {
        rest = take_unit(alloc, &mut bytes, rest)?;
    }
    Ok(bytes)
}

// Takes one byte or one escape from the front of a text.
fn take_unit<'a>(
    alloc: Global,
    bytes: &mut Vec<u8>,
    text: &'a [u8],
) -> Result<&'a [u8], CaseFault> {
    match text {
        [b'\\', b'(', rest @ ..] => take_row(alloc, bytes, rest),
        [] => Ok(text),
        _ => take_one(bytes, text),
    }
}

// Takes one byte, or an escape of one.
fn take_one<'a>(bytes: &mut Vec<u8>, text: &'a [u8]) -> Result<&'a [u8], CaseFault> {
    match text {
        [b'\\', b'x', high, low, rest @ ..] => {
            bytes.push((digit(*high)? << 4) | digit(*low)?)?;
            Ok(rest)
        }
        [b'\\', letter, rest @ ..] => {
            bytes.push(control(*letter)?)?;
            Ok(rest)
        }
        [byte, rest @ ..] => {
            bytes.push(*byte)?;
            Ok(rest)
        }
        [] => Err(CaseFault::Malformed),
    }
}

// Takes a count, some bytes and a closing bracket.
fn take_row<'a>(alloc: Global, bytes: &mut Vec<u8>, text: &'a [u8]) -> Result<&'a [u8], CaseFault> {
    let (count, rest) = take_count(text);
    let mut piece = Vec::new(alloc);
    let rest = take_piece(&mut piece, rest)?;
    push_row(bytes, count, &piece)?;
    Ok(rest)
}

// So many times a piece. Rows of millions are of one byte.
fn push_row(bytes: &mut Vec<u8>, count: usize, piece: &[u8]) -> Result<(), AllocError> {
    if let [byte] = piece {
        return bytes.resize(bytes.len().saturating_add(count), *byte);
    }
    for _ in 0..count {
        bytes.extend_from_slice(piece)?;
    }
    Ok(())
}

// The number at the front of a text, and what stands behind it.
fn take_count(text: &[u8]) -> (usize, &[u8]) {
    let mut count: usize = 0;
    let mut rest = text;
    for _ in 0..9 {
        let [figure, behind @ ..] = rest else { break };
        if !figure.is_ascii_digit() {
            break;
        }
        count = count
            .saturating_mul(10)
            .saturating_add(usize::from(*figure & 15));
        rest = behind;
    }
    (count, rest)
}

// Takes bytes up to a closing bracket, and that.
fn take_piece<'a>(piece: &mut Vec<u8>, text: &'a [u8]) -> Result<&'a [u8], CaseFault> {
    let mut rest = text;
    for _ in 0..text.len() {
        if let [b')', behind @ ..] = rest {
            return Ok(behind);
        }
        rest = take_one(piece, rest)?;
    }
    Err(CaseFault::Malformed)
}

fn control(letter: u8) -> Result<u8, CaseFault> {
    match letter {
        b'n' => Ok(b'\n'),
        b'r' => Ok(b'\r'),
        b't' => Ok(b'\t'),
        b's' => Ok(b' '),
        b'\\' => Ok(b'\\'),
        _ => Err(CaseFault::Malformed),
    }
}

fn digit(figure: u8) -> Result<u8, CaseFault> {
    match figure {
        b'0'..=b'9' => Ok(figure - b'0'),
        b'a'..=b'f' => Ok(figure - b'a' + 10),
        _ => Err(CaseFault::Malformed),
    }
}

/// Writes bytes as a text with escapes, blanks as they stand.
pub fn escaped(out: &mut String, bytes: &[u8]) -> Result<(), AllocError> {
    for byte in bytes {
        write_escaped(out, *byte)?;
    }
    Ok(())
}

fn write_escaped(out: &mut String, byte: u8) -> Result<(), AllocError> {
    match byte {
        b'\\' => out.push_str("\\\\"),
        b'\n' => out.push_str("\\n"),
        b' '..=b'~' => out.push(char::from(byte)),
        _ => write!(out, "\\x{byte:02x}"),
    }
}
