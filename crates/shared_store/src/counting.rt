//! How much the needs of a question find, which is counted before anything of it is copied.
ghost use Rattle.std.specs.Prelude.{◌≡◌, ◌≤◌, List, All, IfOk, length};
ghost use Rattle.carbon_history.specs.declared.entry.Entry.{Entry};
ghost use Rattle.carbon_model.specs.Replay.{replay};
ghost use Rattle.render_need.specs.Ends.{AreEnds};
ghost use Rattle.shared_store.specs.Asking.{Counts};
ghost use Rattle.shared_store.specs.Counting.{CountsNeed, CountsNeeds, SumsUp};
ghost use Rattle.shared_store.specs.Finds.{AreFindsOf, needs_in};

use crate::ask_fault::AskFault;
use crate::finds::NeedFinds;
use crate::named::Named;
use shard_core::LookCount;
use std::alloc::AllocError;

/// How many series a question may find.
const MOST_SERIES: u64 = 10_000;

/// How many values these may have in all.
const MOST_POINTS: u64 = 4_000_000;

/// Nothing is found.
const NONE: LookCount = LookCount {
    series: 0,
    values: 0,
};

/// Whether a question may have what its needs find. A count above 2^64 - 1 is answered as want of
/// memory.
pub(crate) fn count_all<N: Named>(finds: &[NeedFinds<'_, N>], now: u32) -> Result<(), AskFault>
    requires needs { All AreEnds (needs_in finds.now) }
    requires now { now ≤ 4_000_000_000 }
    ensures { (list : List Entry) → All (AreFindsOf list) finds.now
        → Counts (replay N.start list) now (needs_in finds.now) result }
{
    let Ok(count) = count_needs(finds, now) else {
        return Err(AskFault::NoMemory);
    };
    if count.series > MOST_SERIES {
        return Err(AskFault::TooManySeries(count.series));
    }
    if count.values > MOST_POINTS {
        return Err(AskFault::TooManyPoints(count.values));
    }
    Ok(())
}

// How much all needs find.
fn count_needs<N: Named>(finds: &[NeedFinds<'_, N>], now: u32) -> Result<LookCount, AllocError>
    requires needs { All AreEnds (needs_in finds.now) }
    requires now { now ≤ 4_000_000_000 }
    ensures { IfOk result (λ count. (list : List Entry) → All (AreFindsOf list) finds.now
        → CountsNeeds (replay N.start list) now (needs_in finds.now) count) }
{
    let mut count = NONE;
    for need in finds {
        count = sum_of(count, count_need(need, now)?)?;
    }
    Ok(count)
}

// How much one need finds in all classes.
fn count_need<N: Named>(finds: &NeedFinds<'_, N>, now: u32) -> Result<LookCount, AllocError>
    requires ends { AreEnds finds.now.need }
    requires now { now ≤ 4_000_000_000 }
    ensures { IfOk result (λ count. (list : List Entry) → AreFindsOf list finds.now
        → CountsNeed (replay N.start list) now finds.now.need count) }
{
    let mut count = NONE;
    for class in finds.classes() {
        count = sum_of(count, class.count(now)?)?;
    }
    Ok(count)
}

// Both counts; want of memory where one is above 2^64 - 1.
fn sum_of(count: LookCount, more: LookCount) -> Result<LookCount, AllocError>
    ensures { IfOk result (SumsUp count more) }
{
    let Some(series) = count.series.checked_add(more.series) else {
        return Err(AllocError);
    };
    let Some(values) = count.values.checked_add(more.values) else {
        return Err(AllocError);
    };
    Ok(LookCount { series, values })
}
