//! Checks a target's calls, each before its arguments and those from the left.
ghost use Rattle.std.specs.Prelude.{ℕ, ◌≤◌, ◌≡◌, ◌≢◌, ◌++◌, ◌∷◌, [], IfErr, IfOk, OnOk, Ok, Err, Some, option_map};
ghost use Rattle.render_plan.specs.Checked.{call_operation, checked, checked_all, terms_before};
ghost use Rattle.render_plan.specs.Sound.{AreSound, IsSound, IsSoundOperation};
ghost use Rattle.render_plan.specs.Terms.{term_of, terms_of};
ghost use Rattle.render_plan.specs.declared.check.Refusal.TheVariants.{NoMemory};
ghost use Rattle.target_parse.specs.Tree.{Trees, Then, depth, greatest_depth, tree_of, trees_of};

use crate::argument::{arguments_of, is_series};
use crate::function::row_of;
use crate::operation::{Operation, operation_of};
use crate::target::Target;
use path_glob::Glob;
use std::alloc::{AllocError, Global};
use target_parse::{Expr, Word};

/// Why a call is refused.
#[derive(Clone, Copy, Debug, PartialEq, Eq)]
pub(crate) enum Refusal {
    /// There is no function of this name.
    UnknownFunction,
    /// The function does not take these arguments.
    BadArgument,
    /// Memory ran out.
    NoMemory,
}

impl From<AllocError> for Refusal {
    ghost use Rattle.std.specs.Prelude.{◌≡◌};
    ghost use Rattle.render_plan.specs.declared.check.Refusal.TheVariants.{NoMemory};

    ghost from_gives = { λ _ refusal. refusal ≡ NoMemory };

    fn from(_: AllocError) -> Refusal {
        Refusal::NoMemory
    }
}

/// What a target asks to be done, or the first refusal of its calls: each call before its arguments, and those from the left.
#[cycle(check)]
pub(crate) fn checked(alloc: Global, expr: &Expr) -> Result<Target, Refusal>
    ensures ok { IfOk result (λ target. checked (tree_of expr.now) ≡ Ok (term_of target)) }
    ensures err { IfErr result (λ refusal. refusal ≢ NoMemory
        → checked (tree_of expr.now) ≡ Err refusal) }
    ensures sound { IfOk result (λ target. IsSound (depth (tree_of expr.now)) (term_of target)) }
{
    match expr {
        Expr::Path(glob) => return Ok(Target::Path(copied(alloc, glob)?)),
        Expr::Call(name, arguments) => {
            let operation = call_operation(alloc, expr, name, arguments)?;
            let targets = checked_all(alloc, arguments)?;
            return Ok(Target::Call(operation, targets));
        }
        Expr::Number(_) => return Err(Refusal::BadArgument),
        Expr::Flag(_) => return Err(Refusal::BadArgument),
        Expr::Text(_, _) => return Err(Refusal::BadArgument),
    }
}

// What the arguments that are series ask.
#[cycle(check)]
#[tactic(auto, using(crate::proofs::CheckLemmas::terms_start, crate::proofs::CheckLemmas::all_done))]
fn checked_all(alloc: Global, arguments: &Vec<Expr>) -> Result<Vec<Target>, Refusal>
    ensures ok { IfOk result (λ targets.
        checked_all (trees_of arguments.now.items) ≡ Ok (terms_of targets.items)) }
    ensures err { IfErr result (λ refusal. refusal ≢ NoMemory
        → checked_all (trees_of arguments.now.items) ≡ Err refusal) }
    ensures sound { IfOk result (λ targets.
        AreSound (greatest_depth (trees_of arguments.now.items)) (terms_of targets.items)) }
{
    let mut targets = Vec::new(alloc);
    for argument in arguments {
        push_checked(alloc, argument, &mut targets)?;
    }
    Ok(targets)
}

// What an argument asks, if it is a series, behind those before it.
#[cycle(check)]
#[tactic(auto, using(crate::proofs::CheckLemmas::all_next, crate::proofs::CheckLemmas::all_skip, crate::proofs::CheckLemmas::all_stop, crate::proofs::SoundLemmas::sound_next))]
fn push_checked(alloc: Global, argument: &Expr, targets: &mut Vec<Target>) -> Result<(), Refusal>
    ensures ok { OnOk result ((rest : Trees)
        → terms_before targets.old.items (checked_all (Then (tree_of argument.now) rest))
        ≡ terms_before targets.new.items (checked_all rest)) }
    ensures err { IfErr result (λ refusal. refusal ≢ NoMemory → (rest : Trees)
        → terms_before targets.old.items (checked_all (Then (tree_of argument.now) rest))
        ≡ Err refusal) }
    ensures sound { OnOk result ((levels : ℕ) → depth (tree_of argument.now) ≤ levels
        → AreSound levels (terms_of targets.old.items)
        → AreSound levels (terms_of targets.new.items)) }
{
    if !is_series(argument) {
        return Ok(());
    }
    let target = checked(alloc, argument)?;
    push(targets, target)?;
    Ok(())
}

fn push(targets: &mut Vec<Target>, target: Target) -> Result<(), AllocError>
    ensures { OnOk result (targets.new.items ≡ targets.old.items ++ target ∷ []) }
{
    targets.push(target)?;
    Ok(())
}

// What a call makes of its series, by the row of its function.
#[tactic(auto, unfolding(crate::specs::Checked::call_operation))]
fn call_operation(
    alloc: Global,
    call: &Expr,
    name: &Word,
    arguments: &Vec<Expr>,
) -> Result<Operation, Refusal>
    ensures ok { IfOk result (λ made.
        call_operation (tree_of call.now) name.now (trees_of arguments.now.items) ≡ Ok made) }
    ensures err { IfErr result (λ refusal. refusal ≢ NoMemory
        → call_operation (tree_of call.now) name.now (trees_of arguments.now.items) ≡ Err refusal) }
    ensures sound { IfOk result IsSoundOperation }
{
    let Some(row) = row_of(name.as_str().as_bytes()) else {
        return Err(Refusal::UnknownFunction);
    };
    let Some(taken) = arguments_of(alloc, row.takes, arguments)? else {
        return Err(Refusal::BadArgument);
    };
    match operation_of(alloc, row.function, call, taken.as_slice())? {
        Some(operation) => return Ok(operation),
        None => return Err(Refusal::BadArgument),
    }
}

/// A further glob of the same text.
pub(crate) fn copied(alloc: Global, glob: &Glob) -> Result<Glob, AllocError>
    ensures { IfOk result (λ copy. copy ≡ glob.now) }
{
    match Glob::new(alloc, glob.text()) {
        Ok(copy) => return Ok(copy),
        Err(_) => return Err(AllocError),
    }
}
