//! The texts of outputs.
ghost use Rattle.std.specs.Prelude.{◌≡◌, ◌<◌, [], Some, None, IfOk, length};
ghost use Rattle.std.specs.List.{slice_split};
ghost use Rattle.aggregate_rules.specs.RuleTexts.{is_opening, named_output, output_of, part_at, part_of, parts_from, plain_output, with_front};

use crate::bytes::Bytes;
use crate::names::Names;
use crate::output::{Output, OutputPart, OutputParts};
use crate::text::{
    all_name_bytes, all_output_bytes, closing_in, has_empty_node, next_opened, opening_in,
};
use std::alloc::{AllocError, Global};

/// The output of a text, whose names are to stand in the pattern: `None` exactly where it is none.
#[tactic(auto, unfolding(crate::specs::RuleTexts::output_of))]
pub(crate) fn output_of(
    alloc: Global,
    names: &Names,
    text: &[u8],
) -> Result<Option<Output>, AllocError>
    ensures { IfOk result (λ output. output ≡ output_of names.now text.now) }
{
    if has_empty_node(text) {
        return Ok(None);
    }
    match opening_in(text) {
        Some(at) => return named_output(alloc, names, &text[..at], &text[at + 1..]),
        None => return plain_output(alloc, text),
    }
}

// An output without names.
#[tactic(auto, unfolding(crate::specs::RuleTexts::plain_output))]
fn plain_output(alloc: Global, text: &[u8]) -> Result<Option<Output>, AllocError>
    ensures { IfOk result (λ output. output ≡ plain_output text.now) }
{
    with_front(alloc, text, OutputParts::new(alloc))
}

// An output whose first name stands between these texts.
#[tactic(auto, unfolding(crate::specs::RuleTexts::named_output))]
fn named_output(
    alloc: Global,
    names: &Names,
    front: &[u8],
    behind: &[u8],
) -> Result<Option<Output>, AllocError>
    ensures { IfOk result (λ output. output ≡ named_output names.now front.now behind.now) }
{
    match parts_of(alloc, names, behind)? {
        Some(parts) => return with_front(alloc, front, parts),
        None => return Ok(None),
    }
}

#[tactic(auto, unfolding(crate::specs::RuleTexts::with_front))]
fn with_front(alloc: Global, front: &[u8], parts: OutputParts) -> Result<Option<Output>, AllocError>
    ensures { IfOk result (λ output. output ≡ with_front front.now parts) }
{
    if !all_output_bytes(front) {
        return Ok(None);
    }
    let front = Bytes::of(alloc, front)?;
    Ok(Some(Output { front, parts }))
}

// The names of a text behind a first `<`, each with what stands behind it.
#[tactic(auto, unfolding(crate::specs::RuleTexts::parts_from))]
fn parts_of(alloc: Global, names: &Names, text: &[u8]) -> Result<Option<OutputParts>, AllocError>
    ensures { IfOk result
        (λ parts. parts ≡ parts_from names.now [] (slice_split is_opening text.now)) }
{
    let mut parts = OutputParts::new(alloc);
    let mut rest = text;
    while let Some(piece) = next_opened(rest) {
        let Some(part) = part_of(alloc, names, piece.front)? else {
            return Ok(None);
        };
        parts.push(part)?;
        rest = piece.rest;
    }
    let Some(part) = part_of(alloc, names, rest)? else {
        return Ok(None);
    };
    parts.push(part)?;
    Ok(Some(parts))
}

// The name that a `>` ends, and what stands behind it.
#[tactic(auto, unfolding(crate::specs::RuleTexts::part_of))]
fn part_of(alloc: Global, names: &Names, piece: &[u8]) -> Result<Option<OutputPart>, AllocError>
    ensures { IfOk result (λ part. part ≡ part_of names.now piece.now) }
{
    match closing_in(piece) {
        Some(at) => return part_at(alloc, names, &piece[..at], &piece[at + 1..]),
        None => return Ok(None),
    }
}

#[tactic(auto, unfolding(crate::specs::RuleTexts::part_at))]
fn part_at(
    alloc: Global,
    names: &Names,
    name: &[u8],
    text: &[u8],
) -> Result<Option<OutputPart>, AllocError>
    ensures { IfOk result (λ part. part ≡ part_at names.now name.now text.now) }
{
    if !all_name_bytes(name) || !all_output_bytes(text) {
        return Ok(None);
    }
    let Some(name) = names.number_of(alloc, name)? else {
        return Ok(None);
    };
    let text = Bytes::of(alloc, text)?;
    Ok(Some(OutputPart { name, text }))
}
