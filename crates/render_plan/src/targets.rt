//! The targets of a query.
ghost use Rattle.std.specs.Prelude.{◌≡◌, ◌≢◌, ◌≤◌, ◌++◌, ◌∷◌, [], All, IfErr, IfOk, OnOk, Ok, Err, length, map};
ghost use Rattle.render_plan.specs.Planned.{most_targets, parse_fault, refusal_fault, target_at, targets_from, targets_or_fault};
ghost use Rattle.render_plan.specs.Sound.{AreSound, IsSound};
ghost use Rattle.render_plan.specs.Terms.{term_of, terms_of};
ghost use Rattle.target_parse.specs.Bytes.{most_depth};
ghost use Rattle.render_plan.specs.declared.fault.QueryFault.TheVariants.{NoMemory};

use crate::check::{Refusal, checked};
use crate::fault::{QueryFault, TargetCause};
use crate::target::Target;
use name_pattern::classes_in;
use std::alloc::{AllocError, Global};
use target_parse::{TargetFault, Word, parse};

// The most targets of a query.
const MOST_TARGETS: usize = 128;

// The most classes of the patterns of a query: each takes microseconds to read, and there is no room yet that these are taken from.
const MOST_CLASSES: usize = 32_768;

/// What the targets of a query ask, or the first that is refused; and first of all, whether there are too few or too many.
#[tactic(auto, using(crate::proofs::SoundLemmas::all_sound))]
pub(crate) fn targets_or_fault(alloc: Global, texts: &[Word]) -> Result<Vec<Target>, QueryFault>
    ensures ok { IfOk result (λ targets.
        targets_or_fault texts.now ≡ Ok (map term_of targets.items)) }
    ensures sound { IfOk result (λ targets. AreSound most_depth (terms_of targets.items)) }
    ensures err { IfErr result (λ fault. fault ≢ NoMemory
        → targets_or_fault texts.now ≡ Err fault) }
{
    if texts.is_empty() {
        return Err(QueryFault::NoTarget);
    }
    if texts.len() > MOST_TARGETS {
        return Err(QueryFault::TooManyTargets);
    }
    if classes_of(texts) > MOST_CLASSES {
        return Err(QueryFault::NoMemory);
    }
    let targets = read_all(alloc, texts)?;
    Ok(targets)
}

// How many classes the patterns in some texts have, at most.
fn classes_of(texts: &[Word]) -> usize {
    let mut all: usize = 0;
    for text in texts {
        all = all.saturating_add(classes_in(text.as_str().as_bytes()));
    }
    all
}

// What some targets ask, or the first that is refused.
fn read_all(alloc: Global, texts: &[Word]) -> Result<Vec<Target>, QueryFault>
    requires { length texts.now ≤ most_targets }
    ensures ok { IfOk result (λ targets.
        targets_from 1 texts.now ≡ Ok (map term_of targets.items)) }
    ensures sound { IfOk result (λ targets.
        All (λ target. IsSound most_depth (term_of target)) targets.items) }
    ensures err { IfErr result (λ fault. fault ≢ NoMemory
        → targets_from 1 texts.now ≡ Err fault) }
{
    let mut targets = Vec::new(alloc);
    let mut number: u32 = 1;
    for text in texts {
        push(&mut targets, read_target(alloc, number, text)?)?;
        number += 1;
    }
    Ok(targets)
}

fn push(targets: &mut Vec<Target>, target: Target) -> Result<(), AllocError>
    ensures { OnOk result (targets.new.items ≡ targets.old.items ++ target ∷ []) }
{
    targets.push(target)?;
    Ok(())
}

// What the target with this number asks.
#[tactic(auto, unfolding(crate::specs::Planned::target_at), using(crate::proofs::SoundLemmas::sound_in_most))]
fn read_target(alloc: Global, number: u32, text: &Word) -> Result<Target, QueryFault>
    ensures ok { IfOk result (λ target. target_at number text.now ≡ Ok (term_of target)) }
    ensures sound { IfOk result (λ target. IsSound most_depth (term_of target)) }
    ensures err { IfErr result (λ fault. fault ≢ NoMemory
        → target_at number text.now ≡ Err fault) }
{
    let expr = match parse(alloc, text.as_str().as_bytes()) {
        Ok(expr) => expr,
        Err(fault) => return Err(parse_fault(number, fault)),
    };
    match checked(alloc, &expr) {
        Ok(target) => return Ok(target),
        Err(refusal) => return Err(refusal_fault(number, refusal)),
    }
}

fn parse_fault(number: u32, fault: TargetFault) -> QueryFault
    ensures { result ≡ parse_fault number fault }
{
    match fault {
        TargetFault::At(place) => QueryFault::Target(number, TargetCause::At(place)),
        TargetFault::TooDeep => QueryFault::Target(number, TargetCause::TooDeep),
        TargetFault::TooLong => QueryFault::Target(number, TargetCause::TooLong),
        TargetFault::NoMemory => QueryFault::NoMemory,
    }
}

fn refusal_fault(number: u32, refusal: Refusal) -> QueryFault
    ensures { result ≡ refusal_fault number refusal }
{
    match refusal {
        Refusal::UnknownFunction => QueryFault::UnknownFunction(number),
        Refusal::BadArgument => QueryFault::BadArgument(number),
        Refusal::NoMemory => QueryFault::NoMemory,
    }
}
