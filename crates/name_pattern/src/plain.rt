//! Patterns that ask a name for one text: at its start, at its end, or anywhere in it.
ghost use Rattle.std.specs.Prelude.{◌≡◌, ◌≤◌, ℕ, false, [], length, map, All, IfOk, IfSome, IfNone, IsTrue};
ghost use Rattle.regex_hir.specs.Meaning.{meaning, cat_all};
ghost use Rattle.regex_hir.specs.Re.{cat, literal, look};
ghost use Rattle.regex_hir.specs.Text.{has_bytes_at};
ghost use Rattle.name_pattern.specs.PlainTexts.{Asks, Begins, MatchesEmpty, StartsAs, Stands};

use regex_hir::{Hir, Look};
use std::alloc::{AllocError, Global};
use std::slice;

/// A text that a name has to have, so that a pattern is found in it.
#[derive(Drop)]
pub(crate) struct Plain {
    text: Vec<u8>,
    at_start: bool,
    at_end: bool,
}

impl Plain {
    /// The text that a pattern asks for: `None` where it may ask for more, or for another text.
    pub(crate) fn of(alloc: Global, hir: &Hir) -> Result<Option<Plain>, AllocError>
        ensures { IfOk result (λ plain. IfSome plain (Asks (meaning hir.now))) }
    {
        match hir {
            Hir::Concat(parts) => return of_parts(alloc, parts),
            _ => return of_parts(alloc, slice::from_ref(hir)),
        }
    }

    /// The first place of a name at which the text stands.
    pub(crate) fn place_in(&self, name: &[u8]) -> Option<usize>
        ensures some { IfSome result
            (Stands self.now.text.items self.now.at_start self.now.at_end name.now) }
        ensures none { IfNone result ((i : ℕ)
            → ¬ Stands self.now.text.items self.now.at_start self.now.at_end name.now i) }
    {
        let Some(most) = name.len().checked_sub(self.text.len()) else {
            return None;
        };
        let first = if self.at_end { most } else { 0 };
        let last = if self.at_start { 0 } else { most };
        for at in first..last + 1 {
            if has_text_at(name, at, &self.text) {
                return Some(at);
            }
        }
        None
    }
}

// Whether a text stands at a place of a name.
#[tactic(auto, unfolding(regex_hir::specs::Text::has_bytes_at))]
fn has_text_at(name: &[u8], at: usize, text: &[u8]) -> bool
    requires { at ≤ length name.now }
    ensures { result ≡ has_bytes_at name.now at text.now }
{
    name[at..].starts_with(text)
}

// The text that parts one after another ask for. A first part that matches the empty text asks for nothing.
fn of_parts(alloc: Global, parts: &[Hir]) -> Result<Option<Plain>, AllocError>
    ensures { IfOk result (λ plain. IfSome plain (Asks (cat_all (map meaning parts.now)))) }
{
    let [first, rest @ ..] = parts else {
        return text_of(alloc, false, parts);
    };
    if asserts(first, Look::Start) {
        return text_of(alloc, true, rest);
    }
    if matches_empty(first) {
        return text_of(alloc, false, rest);
    }
    text_of(alloc, false, parts)
}

// Whether a part is this assertion.
fn asserts(part: &Hir, wanted: Look) -> bool
    ensures { IsTrue result → meaning part.now ≡ look wanted }
{
    match part {
        Hir::Look(seen) => *seen == wanted,
        _ => false,
    }
}

// A literal, what may follow it, and before it the start of the name where that is asked.
fn text_of(alloc: Global, at_start: bool, parts: &[Hir]) -> Result<Option<Plain>, AllocError>
    ensures { IfOk result (λ plain. IfSome plain (λ plain. (plain.at_start ≡ at_start)
        × StartsAs (cat_all (map meaning parts.now)) plain.text.items false plain.at_end)) }
{
    match parts {
        [Hir::Literal(text), tail @ ..] => return text_before(alloc, at_start, text, tail),
        _ => return text_before(alloc, at_start, &[], parts),
    }
}

fn text_before(
    alloc: Global,
    at_start: bool,
    text: &[u8],
    tail: &[Hir],
) -> Result<Option<Plain>, AllocError>
    ensures { IfOk result (λ plain. IfSome plain (λ plain. (plain.at_start ≡ at_start)
        × StartsAs (cat (literal text.now) (cat_all (map meaning tail.now))) plain.text.items false
        plain.at_end)) }
{
    let Some(at_end) = end_of(tail) else {
        return Ok(None);
    };
    let text = Vec::from_slice(alloc, text)?;
    Ok(Some(Plain {
        text,
        at_start,
        at_end,
    }))
}

// Whether parts ask for the end of the name, where they ask for no more.
fn end_of(parts: &[Hir]) -> Option<bool>
    ensures { IfSome result (StartsAs (cat_all (map meaning parts.now)) [] false) }
{
    if let [part] = parts
        && asserts(part, Look::End)
    {
        return Some(true);
    }
    if all_match_empty(parts) {
        return Some(false);
    }
    None
}

fn all_match_empty(parts: &[Hir]) -> bool
    ensures { IsTrue result → All (λ part. MatchesEmpty (meaning part)) parts.now }
{
    parts.iter().all(|part| matches_empty(part))
}

// Whether a part is seen to match the empty text everywhere.
fn matches_empty(part: &Hir) -> bool
    ensures { IsTrue result → MatchesEmpty (meaning part.now) }
{
    match part {
        Hir::Empty => true,
        Hir::Repetition { min, .. } => *min == 0,
        Hir::Capture { sub, .. } => matches_empty(sub),
        _ => false,
    }
}
