//! What replacements write.
ghost use Rattle.std.specs.Prelude.{◌≡◌, ◌++◌, ℕ, List, false, true, IfOk, OnOk, string_bytes};
ghost use Rattle.regex.specs.Replace.{bytes_of};
ghost use Rattle.regex.specs.Strings.{captures_haystack, captures_span};
ghost use Rattle.name_pattern.specs.Substitution.{Writes, group_called, opened, written};

use crate::match_count::MatchCount;
use regex::Captures;
use std::alloc::{AllocError, Global};

/// What a replacement writes at a match, which is taken from a count.
pub(crate) fn counted(
    alloc: Global,
    captures: &Captures<'_, '_>,
    replacement: &str,
    matches: &MatchCount,
) -> Result<String, AllocError>
    ensures { IfOk result (λ text. string_bytes text ≡ written
        (λ n. bytes_of (captures_haystack captures.now) (captures_span captures.now n))
        replacement.now) }
{
    matches.take()?;
    let text = written(alloc, captures, replacement)?;
    Ok(text)
}

// What a replacement writes at a match.
fn written(
    alloc: Global,
    captures: &Captures<'_, '_>,
    replacement: &str,
) -> Result<String, AllocError>
    ensures { IfOk result (λ text. string_bytes text ≡ written
        (λ n. bytes_of (captures_haystack captures.now) (captures_span captures.now n))
        replacement.now) }
{
    let mut out = String::new(alloc);
    let mut is_open = false;
    for c in replacement.chars() {
        is_open = push_next(&mut out, captures, is_open, c)?;
    }
    push_opened(&mut out, is_open)?;
    Ok(out)
}

fn push_opened(out: &mut String, is_open: bool) -> Result<(), AllocError>
    ensures { OnOk result (string_bytes out.new ≡ string_bytes out.old ++ opened is_open) }
{
    if is_open {
        return out.push('\\');
    }
    Ok(())
}

// Writes what a character adds, where a backslash stands open before it or none. Answers whether one is open
// behind it.
fn push_next(
    out: &mut String,
    captures: &Captures<'_, '_>,
    is_open: bool,
    c: char,
) -> Result<bool, AllocError>
    ensures { IfOk result (Writes
        (λ n. bytes_of (captures_haystack captures.now) (captures_span captures.now n))
        is_open c (string_bytes out.old) (string_bytes out.new)) }
{
    if is_open {
        let is_next_open = push_behind(out, captures, c)?;
        return Ok(is_next_open);
    }
    let is_next_open = push_char(out, c)?;
    Ok(is_next_open)
}

// The same where one stands open.
fn push_behind(out: &mut String, captures: &Captures<'_, '_>, c: char) -> Result<bool, AllocError>
    ensures { IfOk result (Writes
        (λ n. bytes_of (captures_haystack captures.now) (captures_span captures.now n))
        true c (string_bytes out.old) (string_bytes out.new)) }
{
    if let Some(group) = group_called(c) {
        push_group(out, captures, group)?;
        return Ok(false);
    }
    out.push('\\')?;
    let is_next_open = push_char(out, c)?;
    Ok(is_next_open)
}

// The same where none stands open.
fn push_char(out: &mut String, c: char) -> Result<bool, AllocError>
    ensures { IfOk result (λ is_open. (group : ℕ → List ℕ)
        → Writes group false c (string_bytes out.old) (string_bytes out.new) is_open) }
{
    if c == '\\' {
        return Ok(true);
    }
    out.push(c)?;
    Ok(false)
}

fn push_group(out: &mut String, captures: &Captures<'_, '_>, group: usize) -> Result<(), AllocError>
    ensures { OnOk result (string_bytes out.new ≡ string_bytes out.old
        ++ bytes_of (captures_haystack captures.now) (captures_span captures.now group)) }
{
    match captures.get(group) {
        Some(found) => return out.push_str(found.as_str()),
        None => return Ok(()),
    }
}

// The group that a digit calls.
fn group_called(digit: char) -> Option<usize>
    ensures { result ≡ group_called digit }
{
    if '1' <= digit && digit <= '9' {
        return Some(digit as usize - 48);
    }
    None
}
