//! The needs of targets.
ghost use Rattle.std.specs.Prelude.{◌≡◌, ◌≤◌, ◌+◌, ◌*◌, ◌-◌, ◌++◌, ◌∷◌, [], IfOk, OnOk};
ghost use Rattle.target_parse.specs.Bytes.{most_depth};
ghost use Rattle.time_range.specs.SpanOf.{latest};
ghost use Rattle.render_plan.specs.Needed.{moved, need_at, needs_in, needs_in_all, no_shift, with_operation, with_shape};
ghost use Rattle.render_plan.specs.Sound.{AreSound, IsShortShift, IsSound, IsSoundOperation};
ghost use Rattle.render_plan.specs.Terms.{term_of, terms_of};

use crate::check::copied;
use crate::operation::Operation;
use crate::target::Target;
use path_glob::Glob;
use render_need::Need;
use series_funcs::Shape;
use std::alloc::{AllocError, Global};
use time_range::LATEST;

// How deep calls nest.
pub(crate) const MOST_DEPTH: u32 = 32;

/// The first and the last moment that a query asks for, in seconds since the Unix epoch.
#[derive(Clone, Copy)]
pub(crate) struct Ends {
    pub(crate) from: u64,
    pub(crate) until: u64,
}

/// By how many seconds moments are shifted to later ones, and to earlier ones.
#[derive(Clone, Copy)]
pub(crate) struct Shift {
    pub(crate) later: u64,
    pub(crate) earlier: u64,
}

/// The needs of targets, one for each of their paths, in order.
pub(crate) fn needs_of(
    alloc: Global,
    targets: &Vec<Target>,
    ends: Ends,
) -> Result<Vec<Need>, AllocError>
    requires { AreSound most_depth (terms_of targets.now.items) }
    ensures { IfOk result (λ needs. needs.items
        ≡ needs_in_all ends.from ends.until no_shift (terms_of targets.now.items)) }
{
    let shift = Shift {
        later: 0,
        earlier: 0,
    };
    let mut needs = Vec::new(alloc);
    push_all_needs(alloc, targets, ends, shift, MOST_DEPTH, &mut needs)?;
    Ok(needs)
}

// The needs of a target within calls that shift it so, whose own calls nest at most so many levels deep.
#[cycle(needs)]
fn push_needs(
    alloc: Global,
    target: &Target,
    ends: Ends,
    shift: Shift,
    levels: u32,
    needs: &mut Vec<Need>,
) -> Result<(), AllocError>
    requires sound { IsSound levels (term_of target.now) }
    requires room { shift.later + shift.earlier + levels * latest ≤ most_depth * latest }
    ensures { OnOk result (needs.new.items
        ≡ needs.old.items ++ needs_in ends.from ends.until shift (term_of target.now)) }
{
    match target {
        Target::Path(glob) => {
            let need = need_at(alloc, ends, shift, glob)?;
            return push(needs, need);
        }
        Target::Call(operation, targets) => {
            let shift = with_operation(shift, operation);
            return push_all_needs(alloc, targets, ends, shift, levels - 1, needs);
        }
    }
}

// The needs of the arguments of a call.
#[cycle(needs)]
fn push_all_needs(
    alloc: Global,
    targets: &Vec<Target>,
    ends: Ends,
    shift: Shift,
    levels: u32,
    needs: &mut Vec<Need>,
) -> Result<(), AllocError>
    requires sound { AreSound levels (terms_of targets.now.items) }
    requires room { shift.later + shift.earlier + levels * latest ≤ most_depth * latest }
    ensures { OnOk result (needs.new.items
        ≡ needs.old.items ++ needs_in_all ends.from ends.until shift (terms_of targets.now.items)) }
{
    for target in targets {
        push_needs(alloc, target, ends, shift, levels, needs)?;
    }
    Ok(())
}

fn push(needs: &mut Vec<Need>, need: Need) -> Result<(), AllocError>
    ensures { OnOk result (needs.new.items ≡ needs.old.items ++ need ∷ []) }
{
    needs.push(need)?;
    Ok(())
}

fn need_at(alloc: Global, ends: Ends, shift: Shift, glob: &Glob) -> Result<Need, AllocError>
    requires { shift.earlier ≤ most_depth * latest }
    ensures { IfOk result (λ need. need ≡ need_at ends.from ends.until shift glob.now) }
{
    let glob = copied(alloc, glob)?;
    let from = moved(shift, ends.from);
    let until = moved(shift, ends.until);
    Ok(Need { glob, from, until })
}

// A moment that is moved by all spans, from the epoch to the latest moment.
fn moved(shift: Shift, moment: u64) -> u64
    requires { shift.earlier ≤ most_depth * latest }
    ensures { result ≡ moved shift moment }
{
    let later = moment.saturating_add(shift.later);
    later.saturating_sub(shift.earlier).min(LATEST)
}

// The shift within a call.
fn with_operation(shift: Shift, operation: &Operation) -> Shift
    requires sound { IsSoundOperation operation.now }
    requires room { shift.later + shift.earlier ≤ most_depth * latest }
    ensures shift { result ≡ with_operation shift operation.now }
    ensures short { result.later + result.earlier ≤ shift.later + shift.earlier + latest }
{
    match operation {
        Operation::Shape { kind, .. } => return with_shape(shift, kind),
        _ => return shift,
    }
}

fn with_shape(shift: Shift, kind: &Shape) -> Shift
    requires sound { IsShortShift kind.now }
    requires room { shift.later + shift.earlier ≤ most_depth * latest }
    ensures shift { result ≡ with_shape shift kind.now }
    ensures short { result.later + result.earlier ≤ shift.later + shift.earlier + latest }
{
    match *kind {
        Shape::TimeShift { past, seconds } => {
            if past {
                return Shift {
                    later: shift.later,
                    earlier: shift.earlier + seconds,
                };
            }
            return Shift {
                later: shift.later + seconds,
                earlier: shift.earlier,
            };
        }
        _ => return shift,
    }
}
