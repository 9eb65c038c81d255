//! What calls make of the series of their arguments.
ghost use Rattle.std.specs.Prelude.{◌≡◌, ◌≢◌, [], IfErr, IfOk, Ok, Err};
ghost use Rattle.series_set.specs.declared.grid.EvalFault.TheVariants.{NoMemory};
ghost use Rattle.series_funcs.specs.Combined.{combine};
ghost use Rattle.series_funcs.specs.Divided.{divide};
ghost use Rattle.series_funcs.specs.Moved.{shape};
ghost use Rattle.series_funcs.specs.Regrouped.{regroup};
ghost use Rattle.series_pick.specs.Chosen.{Chooses};
ghost use Rattle.render_plan.specs.Bounds.{AreLimited, IsMade};
ghost use Rattle.render_plan.specs.Sound.{IsSoundOperation, IsSoundShape};
ghost use Rattle.render_plan.specs.Values.{Applies, concat, nth, or_else};

use crate::operation::Operation;
use series_funcs::{CallName, Combine, Regroup, Shape, combine, divide, regroup, shape};
use series_pick::{Choose, choose};
use series_set::{Allowance, EvalFault, SeriesSet};
use std::alloc::{AllocError, Global};

/// What a call makes of the series of its arguments, in the room that is left beside them. What work it takes is gone.
pub(crate) fn applied(
    alloc: Global,
    operation: &Operation,
    sets: Vec<SeriesSet>,
    room: &mut Allowance,
) -> Result<SeriesSet, EvalFault>
    requires sound { IsSoundOperation operation.now }
    requires limited { AreLimited (concat sets.items) }
    ensures ok { IfOk result (λ set. Applies operation.now sets.items (Ok set)) }
    ensures err { IfErr result (λ fault. fault ≢ NoMemory
        → Applies operation.now sets.items (Err fault)) }
    ensures made { IfOk result (IsMade (concat sets.items)) }
{
    match operation {
        Operation::Combine { kind, name, path } => {
            return combined(alloc, *kind, sets, name.as_str(), path.as_str(), room);
        }
        Operation::Divide => return divided(alloc, sets, room),
        Operation::Group => return Ok(grouped(alloc, sets)?),
        Operation::Fallback => return Ok(first_or_second(alloc, sets)),
        Operation::Shape {
            kind,
            function,
            tail,
        } => {
            let call = CallName {
                function: function.as_str(),
                tail: tail.as_str(),
            };
            return shaped(alloc, kind, sets, &call, room);
        }
        Operation::Choose { kind } => return Ok(chosen(alloc, kind, sets, room)?),
        Operation::Regroup { kind } => return regrouped(alloc, kind, sets, room),
    }
}

#[tactic(auto, using(crate::proofs::ApplyLemmas::combinable_all, crate::proofs::ApplyLemmas::combined_made))]
fn combined(
    alloc: Global,
    kind: Combine,
    sets: Vec<SeriesSet>,
    name: &str,
    path: &str,
    room: &mut Allowance,
) -> Result<SeriesSet, EvalFault>
    requires { AreLimited (concat sets.items) }
    ensures ok { IfOk result (λ set. combine kind (concat sets.items) name.now path.now ≡ Ok set) }
    ensures err { IfErr result (λ fault. fault ≢ NoMemory
        → combine kind (concat sets.items) name.now path.now ≡ Err fault) }
    ensures made { IfOk result (IsMade (concat sets.items)) }
{
    let all = concat(alloc, sets)?;
    let set = combine(alloc, kind, &all, name, path, room)?;
    Ok(set)
}

#[tactic(auto, using(crate::proofs::ApplyLemmas::combinable_first, crate::proofs::ApplyLemmas::combinable_second, crate::proofs::ApplyLemmas::divided_made))]
fn divided(
    alloc: Global,
    sets: Vec<SeriesSet>,
    room: &mut Allowance,
) -> Result<SeriesSet, EvalFault>
    requires { AreLimited (concat sets.items) }
    ensures ok { IfOk result (λ set. divide (nth sets.items 0) (nth sets.items 1) ≡ Ok set) }
    ensures err { IfErr result (λ fault. fault ≢ NoMemory
        → divide (nth sets.items 0) (nth sets.items 1) ≡ Err fault) }
    ensures made { IfOk result (IsMade (concat sets.items)) }
{
    let none = SeriesSet::new(alloc);
    let dividends = nth(sets.as_slice(), 0, &none);
    let divisors = nth(sets.as_slice(), 1, &none);
    let set = divide(alloc, dividends, divisors, room)?;
    Ok(set)
}

#[tactic(auto, using(crate::proofs::ApplyLemmas::same_made))]
fn grouped(alloc: Global, sets: Vec<SeriesSet>) -> Result<SeriesSet, AllocError>
    ensures value { IfOk result (λ set. set ≡ concat sets.items) }
    ensures made { IfOk result (IsMade (concat sets.items)) }
{
    let set = concat(alloc, sets)?;
    Ok(set)
}

#[tactic(auto, using(crate::proofs::ApplyLemmas::first_made, crate::proofs::ApplyLemmas::second_made, crate::proofs::ApplyLemmas::or_else_some, crate::proofs::ApplyLemmas::or_else_none))]
fn first_or_second(alloc: Global, sets: Vec<SeriesSet>) -> SeriesSet
    ensures value { result ≡ or_else (nth sets.items 0) (nth sets.items 1) }
    ensures made { IsMade (concat sets.items) result }
{
    let none = SeriesSet::new(alloc);
    let first = nth(sets.as_slice(), 0, &none);
    if first.len() > 0 {
        return taken(alloc, sets, 0);
    }
    taken(alloc, sets, 1)
}

#[tactic(auto, using(crate::proofs::ApplyLemmas::early_enough, crate::proofs::ApplyLemmas::shaped_made))]
fn shaped(
    alloc: Global,
    kind: &Shape,
    sets: Vec<SeriesSet>,
    call: &CallName,
    room: &mut Allowance,
) -> Result<SeriesSet, EvalFault>
    requires sound { IsSoundShape kind.now }
    requires limited { AreLimited (concat sets.items) }
    ensures ok { IfOk result (λ set. shape kind.now call.now.function.now call.now.tail.now
        (nth sets.items 0) ≡ Ok set) }
    ensures err { IfErr result (λ fault. fault ≢ NoMemory
        → shape kind.now call.now.function.now call.now.tail.now (nth sets.items 0) ≡ Err fault) }
    ensures made { IfOk result (IsMade (concat sets.items)) }
{
    let first = taken(alloc, sets, 0);
    let set = shape(alloc, kind, first, call, room)?;
    Ok(set)
}

#[tactic(auto, using(crate::proofs::ApplyLemmas::choice_made))]
fn chosen(
    alloc: Global,
    kind: &Choose,
    sets: Vec<SeriesSet>,
    room: &mut Allowance,
) -> Result<SeriesSet, AllocError>
    ensures value { IfOk result (Chooses kind.now (nth sets.items 0)) }
    ensures made { IfOk result (IsMade (concat sets.items)) }
{
    let first = taken(alloc, sets, 0);
    let set = choose(alloc, kind, first, room)?;
    Ok(set)
}

#[tactic(auto, using(crate::proofs::ApplyLemmas::combinable_first, crate::proofs::ApplyLemmas::regrouped_made))]
fn regrouped(
    alloc: Global,
    kind: &Regroup,
    sets: Vec<SeriesSet>,
    room: &mut Allowance,
) -> Result<SeriesSet, EvalFault>
    requires { AreLimited (concat sets.items) }
    ensures ok { IfOk result (λ set. regroup kind.now (nth sets.items 0) ≡ Ok set) }
    ensures err { IfErr result (λ fault. fault ≢ NoMemory
        → regroup kind.now (nth sets.items 0) ≡ Err fault) }
    ensures made { IfOk result (IsMade (concat sets.items)) }
{
    let first = taken(alloc, sets, 0);
    let set = regroup(alloc, kind, &first, room)?;
    Ok(set)
}

/// All series of several lists, in order.
#[tactic(auto, using(crate::proofs::ValueLemmas::concat_push))]
pub(crate) fn concat(alloc: Global, sets: Vec<SeriesSet>) -> Result<SeriesSet, AllocError>
    ensures { IfOk result (λ all. all ≡ concat sets.items) }
{
    let mut all = Vec::new(alloc);
    for set in sets {
        let mut series = set.into_vec();
        all.append(&mut series)?;
    }
    Ok(SeriesSet::from_vec(all))
}

// The list at a place; none behind the last.
fn nth<'s>(sets: &'s [SeriesSet], place: usize, none: &'s SeriesSet) -> &'s SeriesSet
    requires { none.now ≡ [] }
    ensures { result.now ≡ nth sets.now place }
{
    match sets.get(place) {
        Some(set) => return set,
        None => return none,
    }
}

fn taken(alloc: Global, sets: Vec<SeriesSet>, place: usize) -> SeriesSet
    ensures { result ≡ nth sets.items place }
{
    let mut sets = sets;
    if place >= sets.len() {
        return SeriesSet::new(alloc);
    }
    sets.swap_remove(place)
}
