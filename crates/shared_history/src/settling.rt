//! What was written of a class's drains, and what a pass sees of that.
ghost use Rattle.std.specs.Prelude.{◌≡◌, ◌+◌, ◌<◌, ◌∷◌};
ghost use mathlib.Core.List.{IsPrefix};
ghost use Rattle.carbon_history.specs.Entries.{about_class, drains};
ghost use Rattle.shared_history.specs.Rule.{OneOwed};
ghost use Rattle.shared_history.specs.Parts.{IsNoMore, look_now, pass_looking, tail_ran, tail_settled};
ghost use Rattle.shared_history.specs.Views.{look_at};

use crate::parts::{Pass, Tail};
use crate::rights::{graft, prune};
use crate::rule::{Board, Mark, Ran, Settle};

/// The drain of the class that is not settled is settled: all of them are.
pub fn settle(tail: &mut Tail)
    requires owed { tail.old.settled < drains tail.old.list }
    ensures tail { tail.new ≡ tail_settled tail.old }
    ensures all { tail.new.settled ≡ drains tail.new.list }
{
    let board: &Board = &tail.board;
    board.shared.load::<Settle>(&mut tail.seat, 0);
}

/// A run of the drain that is not settled is written.
pub fn ran(tail: &mut Tail)
    requires owed { tail.old.settled < drains tail.old.list }
    ensures tail { tail.new ≡ tail_ran tail.old }
{
    let board: &Board = &tail.board;
    board.shared.load::<Ran>(&mut tail.seat, 0);
}

/// The pass looks at the class. Its look is the state of the class, of whose drains all are settled
/// or all but one, and is no less than its look before. The entries about the class that it has seen
/// begin the tail's list.
pub fn mark(tail: &mut Tail, pass: &mut Pass)
    requires one { pass.old.table ≡ tail.old.table }
    ensures pass { pass.new ≡ pass_looking pass.old (look_now tail.old pass.old) }
    ensures later { IsNoMore (look_at tail.old.class pass.old.looks) tail.old }
    ensures owed { OneOwed tail.old.settled tail.old.list }
    ensures begins { IsPrefix (about_class tail.old.class pass.old.seen) tail.old.list }
    ensures tail { tail.new ≡ tail.old }
{
    let board: &Board = &tail.board;
    let right = prune(board, &mut tail.seat);
    graft(board, &mut pass.seat, right);
    board.shared.load::<Mark>(&mut pass.seat, 0);
    let right = prune(board, &mut pass.seat);
    graft(board, &mut tail.seat, right);
}
