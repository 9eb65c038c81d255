//! What a need finds, before anything of it is copied.
ghost use Rattle.std.specs.Prelude.{◌≡◌, List, All, IfOk, length};
ghost use Rattle.carbon_history.specs.declared.entry.Entry.{Entry};
ghost use Rattle.shared_store.specs.Asking.{AreDesks, AreDesksOf};
ghost use Rattle.shared_store.specs.Finds.{AreFindsOf, needs_in};
ghost use Rattle.shared_store.specs.Known.{AllKnow, KnowsAt, needs_of};

use crate::class_desk::ClassDesk;
use crate::named::Named;
use crate::wanted::Wanted;
use render_need::Need;
use shard_core::{FoundMetric, LookCount, Looked, count_found};
use std::alloc::{AllocError, Global};
use std::marker::Model;
use std::sync::MutexGuard;

/// How many metrics all globs of a question may fit together, each counted as often as it is found: of
/// each 32 bytes are kept until all are counted.
const MOST_FOUND: u64 = 1_000_000;

/// The known metrics of a class that the glob of a need fits, in byte order of their paths, while the lock of the
/// class is held. Nothing of them is copied.
#[derive(Drop)]
pub(crate) struct ClassFinds<'a, N: Named> {
    desk: &'a ClassDesk<N>,
    need: &'a Need,
    found: Vec<FoundMetric<'a>>,
}

impl<'a, N: Named> Model for ClassFinds<'a, N> {
    ghost use Rattle.metric_index.specs.Found.{IsFitted};
    ghost use Rattle.carbon_model.specs.Replay.{replay};
    ghost use Rattle.shard_core.specs.Looks.{FindsFor};
    ghost use Rattle.shared_store.specs.Finds.{ClassFindsValue};

    ghost Value = { ClassFindsValue };

    ghost view = { λ f. record { desk = f.desk.now; need = f.need.now } };

    ghost invariant = { λ f. FindsFor f.desk.now.class (replay N.start f.desk.now.list)
        (IsFitted f.need.now.glob) f.found.items };
}

impl<'a, N: Named> ClassFinds<'a, N> {
    ghost use Rattle.std.specs.Prelude.{◌≡◌, ◌≤◌, All, IfOk};
    ghost use Rattle.metric_index.specs.Found.{IsFitted};
    ghost use Rattle.carbon_model.specs.Replay.{replay};
    ghost use Rattle.render_need.specs.Ends.{AreEnds};
    ghost use Rattle.shard_core.specs.Looks.{CountsFor, Looks};
    ghost use Rattle.shared_store.specs.Asking.{IsReadable};
    ghost use Rattle.shared_store.specs.Known.{KnowsHere};

    /// What a need finds in the class of a desk, where that is no more than may be kept, of which it
    /// then takes its part. Else that is want of memory.
    fn find(
        desk: &'a ClassDesk<N>,
        wanted: &'a Wanted<'_>,
        left: &mut u64,
    ) -> Result<ClassFinds<'a, N>, AllocError>
        requires known { KnowsHere N.start desk.now wanted.now.names }
        ensures { IfOk result
            (λ finds. finds ≡ record { desk = desk.now; need = wanted.now.need }) }
    {
        let found = desk.find(wanted)?;
        let Some(rest) = left.checked_sub(found.len() as u64) else {
            return Err(AllocError);
        };
        *left = rest;
        Ok(ClassFinds {
            desk,
            need: wanted.need(),
            found,
        })
    }

    /// How many metrics of the class a question about the need finds, and how many values of them. A count above
    /// 2^64 - 1 is answered as want of memory.
    pub(crate) fn count(&self, now: u32) -> Result<LookCount, AllocError>
        requires ends { AreEnds self.now.need }
        requires now { now ≤ 4_000_000_000 }
        ensures { IfOk result (CountsFor self.now.desk.class (replay N.start self.now.desk.list)
            (IsFitted self.now.need.glob) now self.now.need.from self.now.need.until) }
    {
        match count_found(&self.found, self.need.from, self.need.until, u64::from(now)) {
            Some(count) => Ok(count),
            None => Err(AllocError),
        }
    }

    /// What there is to say of those of which the question has buckets, in byte order of their paths. The disk is
    /// not read.
    pub(crate) fn look(&self, now: u32) -> Result<Vec<Looked>, AllocError>
        requires ends { AreEnds self.now.need }
        requires now { now ≤ 4_000_000_000 }
        ensures looks { IfOk result (λ looked. Looks self.now.desk.class
            (replay N.start self.now.desk.list) (IsFitted self.now.need.glob) now
            self.now.need.from self.now.need.until looked.items) }
        ensures readable { IfOk result (λ looked. All IsReadable looked.items) }
    {
        self.desk
            .look_at(&self.found, self.need.from, self.need.until, now)
    }
}

/// What a need finds in all classes, in their order.
#[derive(Drop)]
pub(crate) struct NeedFinds<'a, N: Named> {
    need: &'a Need,
    classes: Vec<ClassFinds<'a, N>>,
}

impl<'a, N: Named> Model for NeedFinds<'a, N> {
    ghost use Rattle.std.specs.Prelude.{◌≡◌, All};
    ghost use Rattle.shared_store.specs.Finds.{NeedFindsValue};

    ghost Value = { NeedFindsValue };

    ghost view = { λ f. record { need = f.need.now; classes = f.classes.items } };

    ghost invariant = { λ f. All (λ c. c.need ≡ f.need.now) f.classes.items };
}

impl<'a, N: Named> NeedFinds<'a, N> {
    ghost use Rattle.std.specs.Prelude.{◌≡◌, All};

    /// What is found in each class, by this need.
    pub(crate) fn classes(&self) -> &[ClassFinds<'a, N>]
        ensures classes { result.now ≡ self.now.classes }
        ensures need { All (λ c. c.need ≡ self.now.need) result.now }
    {
        self.classes.as_slice()
    }
}

/// What each need finds, where the locks of all classes are held.
pub(crate) fn find_all<'a, N: Named>(
    alloc: Global,
    desks: &'a [MutexGuard<'_, ClassDesk<N>>],
    needs: &'a [Wanted<'_>],
) -> Result<Vec<NeedFinds<'a, N>>, AllocError>
    requires sixteen { length desks.now ≡ 16 }
    requires desks { AreDesks desks.now }
    requires known { AllKnow (KnowsAt N.start desks.now) needs.now }
    ensures needs { IfOk result (λ finds. needs_in finds.items ≡ needs_of needs.now) }
    ensures finds { IfOk result (λ finds. (list : List Entry) → AreDesksOf list desks.now
        → All (AreFindsOf list) finds.items) }
{
    let mut left = MOST_FOUND;
    let mut finds = Vec::with_capacity(alloc, needs.len())?;
    for wanted in needs {
        finds.push(find(alloc, desks, wanted, &mut left)?)?;
    }
    Ok(finds)
}

// What one need finds.
fn find<'a, N: Named>(
    alloc: Global,
    desks: &'a [MutexGuard<'_, ClassDesk<N>>],
    wanted: &'a Wanted<'_>,
    left: &mut u64,
) -> Result<NeedFinds<'a, N>, AllocError>
    requires sixteen { length desks.now ≡ 16 }
    requires desks { AreDesks desks.now }
    requires known { KnowsAt N.start desks.now wanted.now.names }
    ensures need { IfOk result (λ finds. finds.need ≡ wanted.now.need) }
    ensures finds { IfOk result (λ finds. (list : List Entry) → AreDesksOf list desks.now
        → AreFindsOf list finds) }
{
    let mut classes = Vec::with_capacity(alloc, desks.len())?;
    for desk in desks {
        classes.push(ClassFinds::find(desk, wanted, left)?)?;
    }
    Ok(NeedFinds {
        need: wanted.need(),
        classes,
    })
}
