//! The values of targets.
ghost use Rattle.std.specs.Prelude.{◌≡◌, ◌≢◌, ◌≤◌, ◌-◌, ◌++◌, ◌∷◌, [], IfErr, IfOk, OnOk, Ok, Err, drop};
ghost use Rattle.series_set.specs.declared.grid.EvalFault.TheVariants.{NoMemory};
ghost use Rattle.target_parse.specs.Bytes.{most_depth};
ghost use Rattle.render_plan.specs.Bounds.{AreMadeOf, AreRows, end_within};
ghost use Rattle.render_plan.specs.Sound.{AreSound, IsSound};
ghost use Rattle.render_plan.specs.Terms.{term_of, terms_of};
ghost use Rattle.render_plan.specs.Values.{HasValue, HaveValues, concat, nth, path_count, path_counts};

use crate::apply::applied;
use crate::target::Target;
use crate::work;
use series_set::{Allowance, EvalFault, SeriesSet, Size};
use std::alloc::{AllocError, Global};
use std::collections::VecDeque;

/// The values of targets whose calls nest at most so many levels deep, over a row of series for each of their paths. These rows are taken from
/// the front, and the others are left. Of the room, which that of the rows is taken from, that of the values stays taken, and all work that is done.
#[cycle(value)]
pub(crate) fn values_of(
    alloc: Global,
    targets: &Vec<Target>,
    rows: &mut VecDeque<SeriesSet>,
    levels: u32,
    room: &mut Allowance,
) -> Result<Vec<SeriesSet>, EvalFault>
    requires sound { AreSound levels (terms_of targets.now.items) }
    requires deep { levels ≤ most_depth }
    requires rows { AreRows rows.old.items }
    ensures ok { IfOk result (λ sets.
        HaveValues (terms_of targets.now.items) rows.old.items (Ok sets.items)) }
    ensures err { IfErr result (λ fault. fault ≢ NoMemory
        → HaveValues (terms_of targets.now.items) rows.old.items (Err fault)) }
    ensures left { OnOk result
        (rows.new.items ≡ drop (path_counts (terms_of targets.now.items)) rows.old.items) }
    ensures made { IfOk result (λ sets.
        AreMadeOf rows.old.items rows.new.items (end_within levels) (concat sets.items)) }
{
    let mut sets = Vec::new(alloc);
    for target in targets {
        let set = value_of(alloc, target, rows, levels, room)?;
        push(&mut sets, set)?;
    }
    Ok(sets)
}

// The value of a target. The rows of its paths are taken from the front.
#[cycle(value)]
fn value_of(
    alloc: Global,
    target: &Target,
    rows: &mut VecDeque<SeriesSet>,
    levels: u32,
    room: &mut Allowance,
) -> Result<SeriesSet, EvalFault>
    requires sound { IsSound levels (term_of target.now) }
    requires deep { levels ≤ most_depth }
    requires rows { AreRows rows.old.items }
    ensures ok { IfOk result (λ set. HasValue (term_of target.now) rows.old.items (Ok set)) }
    ensures err { IfErr result (λ fault. fault ≢ NoMemory
        → HasValue (term_of target.now) rows.old.items (Err fault)) }
    ensures left { OnOk result
        (rows.new.items ≡ drop (path_count (term_of target.now)) rows.old.items) }
    ensures made { IfOk result (λ set.
        AreMadeOf rows.old.items rows.new.items (end_within levels) set) }
{
    match target {
        Target::Path(_) => {
            let set = first_taken(alloc, rows);
            return Ok(set);
        }
        Target::Call(operation, targets) => {
            let inner = inner_of(levels);
            let sets = values_of(alloc, targets, rows, inner, room)?;
            let before = size_of(&sets);
            room.spend(work::of_call(&sets))?;
            let mut left = *room;
            let set = applied(alloc, operation, sets, &mut left)?;
            *room = room.worked(left);
            exchange(room, before, &set)?;
            return Ok(set);
        }
    }
}

/// What lists of series take.
pub(crate) fn size_of(sets: &[SeriesSet]) -> Size {
    let mut size = Size::of_text(0);
    for set in sets {
        size = size.plus(set.size());
    }
    size
}

/// Gives back the room of what series are made of, and takes theirs.
pub(crate) fn exchange(
    room: &mut Allowance,
    before: Size,
    made: &SeriesSet,
) -> Result<(), AllocError> {
    room.give_back(before);
    room.take(made.size())
}

// How deep the calls nest within one; that there is one shows again that there is a level for it.
fn inner_of(levels: u32) -> u32
    requires { 1 ≤ levels }
    ensures value { result ≡ levels - 1 }
    ensures some { 1 ≤ levels }
{
    levels - 1
}

fn push(sets: &mut Vec<SeriesSet>, set: SeriesSet) -> Result<(), AllocError>
    ensures { OnOk result (sets.new.items ≡ sets.old.items ++ set ∷ []) }
{
    sets.push(set)?;
    Ok(())
}

// Takes the series of the first row; none where there is no row.
fn first_taken(alloc: Global, rows: &mut VecDeque<SeriesSet>) -> SeriesSet
    ensures value { result ≡ nth rows.old.items 0 }
    ensures left { rows.new.items ≡ drop 1 rows.old.items }
{
    match rows.pop_front() {
        Some(set) => set,
        None => SeriesSet::new(alloc),
    }
}
