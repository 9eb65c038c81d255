//! What the needs of a question find.
ghost use Rattle.std.specs.Prelude.{◌≡◌, ◌≤◌, List, All, Err, IfErr, IfOk, length};
ghost use Rattle.carbon_history.specs.declared.entry.Entry.{Entry};
ghost use Rattle.carbon_model.specs.Replay.{replay};
ghost use Rattle.render_need.specs.Ends.{AreEnds};
ghost use Rattle.shared_store.specs.Asking.{AreDesks, AreDesksOf, Counts, FindsSets, LooksUp, Pairwise, PutsInOrder};
ghost use Rattle.shared_store.specs.Finds.{AreFindsOf, needs_in};
ghost use Rattle.shared_store.specs.Known.{AllKnow, KnowsAt, needs_of};

use crate::ask_fault::AskFault;
use crate::class_desk::ClassDesk;
use crate::counting::count_all;
use crate::finds::{NeedFinds, find_all};
use crate::found_set::FoundSet;
use crate::named::Named;
use crate::wanted::Wanted;
use std::alloc::{AllocError, Global};
use std::sync::MutexGuard;

/// How many pending points a question may copy, each as often as a need finds its metric. More are want of memory.
const MOST_PENDING: u64 = 4_000_000;

/// Looks at all that the needs of a question find, where the locks of all classes are held. It is counted before it
/// is copied.
pub(crate) fn look_for<N: Named>(
    alloc: Global,
    desks: &[MutexGuard<'_, ClassDesk<N>>],
    needs: &[Wanted<'_>],
    now: u32,
) -> Result<Vec<FoundSet>, AskFault>
    requires sixteen { length desks.now ≡ 16 }
    requires desks { AreDesks desks.now }
    requires needs { All AreEnds (needs_of needs.now) }
    requires known { AllKnow (KnowsAt N.start desks.now) needs.now }
    requires now { now ≤ 4_000_000_000 }
    ensures found { IfOk result (λ sets. (list : List Entry) → AreDesksOf list desks.now
        → FindsSets (replay N.start list) now (needs_of needs.now) sets.items) }
    ensures fault { IfErr result (λ fault. (list : List Entry) → AreDesksOf list desks.now
        → Counts (replay N.start list) now (needs_of needs.now) (Err fault)) }
{
    let Ok(finds) = find_all(alloc, desks, needs) else {
        return Err(AskFault::NoMemory);
    };
    match count_all(finds.as_slice(), now) {
        Ok(()) => {}
        Err(fault) => return Err(fault),
    }
    match look_all(alloc, finds.as_slice(), now) {
        Ok(found) => return Ok(found),
        Err(_) => return Err(AskFault::NoMemory),
    }
}

// Looks at all that each need finds.
fn look_all<N: Named>(
    alloc: Global,
    finds: &[NeedFinds<'_, N>],
    now: u32,
) -> Result<Vec<FoundSet>, AllocError>
    requires needs { All AreEnds (needs_in finds.now) }
    requires now { now ≤ 4_000_000_000 }
    ensures { IfOk result (λ sets. (list : List Entry) → All (AreFindsOf list) finds.now
        → Pairwise (LooksUp (replay N.start list) now) (needs_in finds.now) sets.items) }
{
    let mut left = MOST_PENDING;
    let mut sets = Vec::with_capacity(alloc, finds.len())?;
    for need in finds {
        let set = look(alloc, need, now)?;
        let Some(rest) = left.checked_sub(set.pending()) else {
            return Err(AllocError);
        };
        left = rest;
        sets.push(set)?;
    }
    Ok(sets)
}

// Looks at the metrics of all classes that one need finds.
fn look<N: Named>(alloc: Global, finds: &NeedFinds<'_, N>, now: u32) -> Result<FoundSet, AllocError>
    requires ends { AreEnds finds.now.need }
    requires now { now ≤ 4_000_000_000 }
    ensures { IfOk result (λ found. (list : List Entry) → AreFindsOf list finds.now
        → LooksUp (replay N.start list) now finds.now.need found) }
{
    let mut found = FoundSet::new(alloc);
    for class in finds.classes() {
        found.append(class.look(now)?)?;
    }
    Ok(found)
}

/// The same in byte order of the paths.
pub(crate) fn put_in_order(alloc: Global, sets: Vec<FoundSet>) -> Result<Vec<FoundSet>, AllocError>
    ensures { IfOk result (λ sorted. Pairwise PutsInOrder sets.items sorted.items) }
{
    let mut sorted = Vec::with_capacity(alloc, sets.len())?;
    for set in sets {
        sorted.push(set.in_order()?)?;
    }
    Ok(sorted)
}
