//! What a call makes of the series of its arguments.
ghost use Rattle.std.specs.Prelude.{◌≡◌, All, IfOk, IfSome};
ghost use Rattle.render_plan.specs.Arguments.{IsInRange};
ghost use Rattle.render_plan.specs.Sound.{IsSoundOperation, IsSoundShape};
ghost use Rattle.render_plan.specs.Terms.{chosen_call, grouped_call, leftmost, name_of, operation_of, shaped_call, tail_of};
ghost use Rattle.render_plan.specs.declared.operation.Operation.TheVariants as operation;
ghost use Rattle.target_parse.specs.Tree.{further_texts, text_of, tree_of, trees_of};

use crate::argument::{Argument, argument_at};
use crate::choice::{choose_of, regroup_of};
use crate::function::Function;
use crate::shape::shape_of;
use series_funcs::{Combine, Regroup, Shape};
use series_pick::Choose;
use std::alloc::{AllocError, Global};
use target_parse::{Expr, Word, text_of};

/// What a call makes of the series of its arguments.
#[derive(Drop)]
pub(crate) enum Operation {
    /// All series combined to one of this name and path.
    Combine {
        kind: Combine,
        name: Word,
        path: Word,
    },
    /// Each series of the first argument over the one of the second.
    Divide,
    /// All series in order.
    Group,
    /// The series of the first argument, or those of the second where it has none.
    Fallback,
    /// Each series by itself, named after the function and the arguments behind the series.
    Shape {
        kind: Shape,
        function: Word,
        tail: Word,
    },
    /// Some of the series, in an order and under names.
    Choose {
        kind: Choose,
    },
    /// The series in groups, each combined to one.
    Regroup {
        kind: Regroup,
    },
}

/// What a call makes of its series, by its arguments as its function takes them; `None` where they lack one, or a pattern cannot be read.
#[tactic(auto, unfolding(crate::specs::Terms::operation_of))]
pub(crate) fn operation_of(
    alloc: Global,
    function: Function,
    call: &Expr,
    arguments: &[Argument],
) -> Result<Option<Operation>, AllocError>
    requires { All IsInRange arguments.now }
    ensures value { IfOk result (λ operation.
        operation ≡ operation_of function (tree_of call.now) arguments.now) }
    ensures sound { IfOk result (λ operation. IfSome operation IsSoundOperation) }
{
    match function {
        Function::Combine(kind) => return Ok(Some(combination(alloc, kind, call)?)),
        Function::Divide => return Ok(Some(Operation::Divide)),
        Function::Group => return Ok(Some(Operation::Group)),
        Function::Fallback => return Ok(Some(Operation::Fallback)),
        Function::Shape(shaping) => {
            let kind = shape_of(
                shaping,
                argument_at(arguments, 1),
                argument_at(arguments, 2),
            );
            return Ok(shaped(alloc, kind, call)?);
        }
        Function::Choose(choosing) => {
            let kind = choose_of(alloc, choosing, call, arguments)?;
            return Ok(chosen(kind));
        }
        Function::Regroup(regrouping) => {
            let kind = regroup_of(alloc, regrouping, arguments)?;
            return Ok(regrouped(kind));
        }
    }
}

fn chosen(kind: Option<Choose>) -> Option<Operation>
    ensures value { result ≡ chosen_call kind }
    ensures sound { IfSome result IsSoundOperation }
{
    match kind {
        Some(kind) => return Some(Operation::Choose { kind }),
        None => return None,
    }
}

fn regrouped(kind: Option<Regroup>) -> Option<Operation>
    ensures value { result ≡ grouped_call kind }
    ensures sound { IfSome result IsSoundOperation }
{
    match kind {
        Some(kind) => return Some(Operation::Regroup { kind }),
        None => return None,
    }
}

// The call of a shape, where there is one.
fn shaped(alloc: Global, kind: Option<Shape>, call: &Expr) -> Result<Option<Operation>, AllocError>
    requires { IfSome kind IsSoundShape }
    ensures value { IfOk result (λ made. made ≡ shaped_call kind (tree_of call.now)) }
    ensures sound { IfOk result (λ made. IfSome made IsSoundOperation) }
{
    let Some(kind) = kind else { return Ok(None) };
    Ok(Some(shaping(alloc, kind, call)?))
}

fn combination(alloc: Global, kind: Combine, call: &Expr) -> Result<Operation, AllocError>
    ensures value { IfOk result (λ made. made ≡ operation.Combine kind
        (text_of (tree_of call.now)) (text_of (leftmost (tree_of call.now)))) }
{
    let name = Word::from_string(text_of(alloc, call)?);
    let path = Word::from_string(text_of(alloc, leftmost(call))?);
    Ok(Operation::Combine { kind, name, path })
}

fn shaping(alloc: Global, kind: Shape, call: &Expr) -> Result<Operation, AllocError>
    ensures { IfOk result (λ made. made ≡ operation.Shape kind
        (name_of (tree_of call.now)) (tail_of (tree_of call.now))) }
{
    let function = name_of(alloc, call)?;
    let tail = tail_of(alloc, call)?;
    Ok(Operation::Shape {
        kind,
        function,
        tail,
    })
}

// The first of all paths of a target, from the left.
fn leftmost(expr: &Expr) -> &Expr
    ensures { tree_of result.now ≡ leftmost (tree_of expr.now) }
{
    let Expr::Call(_, arguments) = expr else {
        return expr;
    };
    let Some(first) = arguments.first() else {
        return expr;
    };
    leftmost(first)
}

fn name_of(alloc: Global, call: &Expr) -> Result<Word, AllocError>
    ensures { IfOk result (λ name. name ≡ name_of (tree_of call.now)) }
{
    let Expr::Call(name, _) = call else {
        return Word::new(alloc, "");
    };
    Word::new(alloc, name.as_str())
}

fn tail_of(alloc: Global, call: &Expr) -> Result<Word, AllocError>
    ensures { IfOk result (λ tail. tail ≡ tail_of (tree_of call.now)) }
{
    let Expr::Call(_, arguments) = call else {
        return Word::new(alloc, "");
    };
    let Some((_, others)) = arguments.split_first() else {
        return Word::new(alloc, "");
    };
    further_texts(alloc, others)
}

// The texts of arguments, with a comma before each.
fn further_texts(alloc: Global, arguments: &[Expr]) -> Result<Word, AllocError>
    ensures { IfOk result (λ texts. texts ≡ further_texts (trees_of arguments.now)) }
{
    let mut texts = String::new(alloc);
    for argument in arguments {
        texts.push_str(",")?;
        texts.push_str(text_of(alloc, argument)?.as_str())?;
    }
    Ok(Word::from_string(texts))
}
