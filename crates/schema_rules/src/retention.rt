//! Retentions: archives as steps, and how far back each reaches.
ghost use Rattle.std.specs.Prelude.{◌≡◌, ◌≤◌, ◌<◌, [], ◌∷◌, MatchOption, IfOk, IfSome, length, option_map, position};
ghost use Rattle.std.specs.List.{slice_split};
ghost use Rattle.schema_rules.specs.Retentions.{archive_from, archive_of, archives_from, archives_of, is_colon, is_comma};

use crate::unit::{points_of, step_of};
use ring_format::Archive;
use rule_lines::trimmed;
use std::alloc::{AllocError, Global};
use std::collections::BTreeMap;
use std::marker::Model;

/// Archives in order of step, and in the order in which they are written where steps are the same.
#[derive(Drop)]
struct InOrder {
    by_step: BTreeMap<(u32, usize), Archive>,
}

impl Model for InOrder {
    ghost use Rattle.schema_rules.specs.Retentions.{InOrder as Entries};

    ghost Value = { Entries };

    ghost view = { λ a. a.by_step.entries };
}

impl InOrder {
    ghost use Rattle.std.specs.Prelude.{OnOk};
    ghost use Rattle.std.specs.Map.{values_of};
    ghost use Rattle.schema_rules.specs.Retentions.{with_archive};

    fn new(alloc: Global) -> InOrder
        ensures { result ≡ [] }
    {
        InOrder {
            by_step: BTreeMap::new(alloc),
        }
    }

    // Adds the `n`th archive, from 0 on.
    fn add(&mut self, n: usize, archive: Archive) -> Result<(), AllocError>
        ensures { OnOk result (self.new ≡ with_archive self.old n archive) }
    {
        self.by_step.insert((archive.step, n), archive)?;
        Ok(())
    }

    // The archives in order of step.
    fn list(self, alloc: Global) -> Result<Vec<Archive>, AllocError>
        ensures { IfOk result (λ archives. archives.items ≡ values_of self) }
    {
        self.by_step.into_values().collect(alloc)
    }
}

/// The archives of retentions between commas, in order of step: `None` exactly where one has not its form.
#[tactic(auto, unfolding(crate::specs::Retentions::archives_of))]
pub(crate) fn archives_of(alloc: Global, text: &[u8]) -> Result<Option<Vec<Archive>>, AllocError>
    ensures { IfOk result (λ archives. option_map (λ a. a.items) archives ≡ archives_of text.now) }
{
    match archives_in(alloc, text)? {
        Some(archives) => Ok(Some(archives.list(alloc)?)),
        None => Ok(None),
    }
}

#[tactic(auto, unfolding(crate::specs::Retentions::archives_from))]
fn archives_in(alloc: Global, text: &[u8]) -> Result<Option<InOrder>, AllocError>
    ensures { IfOk result
        (λ archives. archives ≡ archives_from [] 0 (slice_split is_comma text.now)) }
{
    let mut archives = InOrder::new(alloc);
    let mut count = 0;
    let mut rest = text;
    while let Some((piece, more)) = next_piece(rest) {
        let Some(archive) = archive_of(trimmed(piece)) else {
            return Ok(None);
        };
        archives.add(count, archive)?;
        count += 1;
        rest = more;
    }
    let Some(archive) = archive_of(trimmed(rest)) else {
        return Ok(None);
    };
    archives.add(count, archive)?;
    Ok(Some(archives))
}

// What stands before the first comma of a text, and what follows it.
fn next_piece(text: &[u8]) -> Option<(&[u8], &[u8])>
    ensures { MatchOption result (slice_split is_comma text.now ≡ text.now ∷ []) (λ parts.
        (slice_split is_comma text.now ≡ parts.0.now ∷ slice_split is_comma parts.1.now)
        × (length parts.1.now < length text.now)) }
{
    match comma_in(text) {
        Some(at) => return Some((&text[..at], &text[at + 1..])),
        None => return None,
    }
}

fn comma_in(text: &[u8]) -> Option<usize>
    ensures value { result ≡ position is_comma text.now }
    ensures within { IfSome result (λ at. at < length text.now) }
{
    text.iter().position(|b| *b == b',')
}

// The archive of `step:history`.
#[tactic(auto, unfolding(crate::specs::Retentions::archive_of))]
fn archive_of(text: &[u8]) -> Option<Archive>
    ensures { result ≡ archive_of text.now }
{
    let at = colon_in(text)?;
    archive_from(&text[..at], &text[at + 1..])
}

#[tactic(auto, unfolding(crate::specs::Retentions::archive_from))]
fn archive_from(step: &[u8], history: &[u8]) -> Option<Archive>
    ensures { result ≡ archive_from step.now history.now }
{
    let step = step_of(step)?;
    let points = points_of(step, history)?;
    Some(Archive { step, points })
}

fn colon_in(text: &[u8]) -> Option<usize>
    ensures { result ≡ position is_colon text.now }
{
    text.iter().position(|b| *b == b':')
}
