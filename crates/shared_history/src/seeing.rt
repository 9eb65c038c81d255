//! What a pass sees of the history.
ghost use Rattle.std.specs.Prelude.{◌≡◌, ◌⊎◌, ◌+◌};
ghost use mathlib.Core.List.{IsPrefix};
ghost use Rattle.carbon_history.specs.Entries.{NamesPasses, about_class};
ghost use Rattle.shared_history.specs.Parts.{own_entries, pass_seeing, pass_sighting};

use crate::parts::{Note, Order, Pass, Tail};
use crate::rights::{graft, lend, prune, take};
use crate::rule::{Agree, Board, Learn, Noting, See};

/// The tail's list is the history's entries about its class. Nothing changes.
pub fn agree(order: &mut Order, tail: &mut Tail)
    requires one { tail.old.table ≡ order.old.table }
    ensures agree { tail.old.list ≡ about_class tail.old.class order.old.list }
    ensures order { order.new ≡ order.old }
    ensures tail { tail.new ≡ tail.old }
{
    let board: &Board = &order.board;
    let right = prune(board, &mut tail.seat);
    graft(board, &mut order.seat, right);
    board.shared.load::<Agree>(&mut order.seat, 0);
    let right = prune(board, &mut order.seat);
    graft(board, &mut tail.seat, right);
}

/// The pass has seen the whole history, which has no entries of it that it had not seen.
pub fn see(order: &mut Order, pass: &mut Pass)
    requires one { pass.old.table ≡ order.old.table }
    ensures pass { pass.new ≡ pass_sighting pass.old order.old.list }
    ensures own { own_entries pass.new ≡ own_entries pass.old }
    ensures begins { IsPrefix pass.old.seen order.old.list }
    ensures made { NamesPasses order.old.passes order.old.list }
    ensures order { order.new ≡ order.old }
{
    let board: &Board = &order.board;
    let right = lend(board, &mut order.seat);
    take(board, &mut pass.seat, right);
    board.shared.load::<See>(&mut pass.seat, 0);
    let right = lend(board, &mut pass.seat);
    take(board, &mut order.seat, right);
}

/// A copy of what the pass has seen.
pub fn note(pass: &mut Pass) -> Note
    ensures table { result.table ≡ pass.old.table }
    ensures list { result.list ≡ pass.old.seen }
    ensures pass { pass.new ≡ pass.old }
{
    let board: &Board = &pass.board;
    Note {
        seat: board.shared.split_seat::<Noting>(&mut pass.seat),
    }
}

/// Of the two lists the pass has seen the longer, which the shorter begins.
pub fn learn(pass: &mut Pass, note: Note)
    requires one { note.table ≡ pass.old.table }
    ensures one { (pass.new ≡ pass.old) ⊎ (pass.new ≡ pass_seeing pass.old note.list) }
    ensures begins { IsPrefix pass.old.seen pass.new.seen }
    ensures told { IsPrefix note.list pass.new.seen }
    ensures own { own_entries pass.new ≡ own_entries pass.old }
{
    let board: &Board = &pass.board;
    let Note { seat } = note;
    board.shared.join_seat::<Noting>(&mut pass.seat, seat);
    board.shared.load::<Learn>(&mut pass.seat, 0);
}
