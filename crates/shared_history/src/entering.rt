//! Entries.
ghost use Rattle.std.specs.Prelude.{◌≡◌, ◌≢◌, ◌+◌, ◌<◌, ◌++◌, ◌∷◌, [], length};
ghost use mathlib.Core.List.{IsPrefix};
ghost use Rattle.carbon_history.specs.Entries.{NamesPasses, pass_of};
ghost use Rattle.shared_history.specs.Events.{MayAsk, MayEnter, ask_by, entry_by, next_number};
ghost use Rattle.shared_history.specs.Parts.{order_with, own_entries, pass_seeing, tail_with};

use crate::event::Event;
use crate::parts::{Order, Pass, Tail};
use crate::rights::{graft, lend, prune, take};
use crate::rule::{Append, AppendAsk, Board, Count, Named};
use std::marker::Brand;

fn enter_named<E: Named>(order: &mut Order, pass: &mut Pass, tail: &mut Tail, event: &Event<'_>)
    requires one { (pass.old.table ≡ order.old.table) × (tail.old.table ≡ order.old.table) }
    requires may { (entry_by pass.old tail.old event.now ≡ E.entry)
        × MayEnter pass.old tail.old E.entry }
    ensures order { order.new ≡ order_with order.old E.entry }
    ensures tail { tail.new ≡ tail_with tail.old E.entry }
    ensures pass { pass.new ≡ pass_seeing pass.old order.new.list }
    ensures once { own_entries pass.new ≡ own_entries pass.old ++ E.entry ∷ [] }
    ensures begins { IsPrefix pass.old.seen order.old.list }
    ensures made { NamesPasses order.new.passes order.new.list }
{
    let _ = event;
    let board: &Board = &order.board;
    let right = lend(board, &mut order.seat);
    take(board, &mut pass.seat, right);
    let right = prune(board, &mut tail.seat);
    graft(board, &mut pass.seat, right);
    board.shared.fetch_add::<Append<E>>(&mut pass.seat, 0, 1);
    board
        .shared
        .fetch_add::<Count<E>>(&mut pass.seat, tail.class as usize + 1, 1);
    let right = prune(board, &mut pass.seat);
    graft(board, &mut tail.seat, right);
    let right = lend(board, &mut pass.seat);
    take(board, &mut order.seat, right);
    pass.left -= 1;
}

/// Enters what the pass did in the class of the tail. The history and the tail's list grow by the
/// entry, and the pass has seen all of it.
pub fn enter(order: &mut Order, pass: &mut Pass, tail: &mut Tail, event: &Event<'_>)
    requires one { (pass.old.table ≡ order.old.table) × (tail.old.table ≡ order.old.table) }
    requires may { MayEnter pass.old tail.old (entry_by pass.old tail.old event.now) }
    ensures order { order.new ≡ order_with order.old (entry_by pass.old tail.old event.now) }
    ensures tail { tail.new ≡ tail_with tail.old (entry_by pass.old tail.old event.now) }
    ensures pass { pass.new ≡ pass_seeing pass.old order.new.list }
    ensures once { own_entries pass.new
        ≡ own_entries pass.old ++ entry_by pass.old tail.old event.now ∷ [] }
    ensures begins { IsPrefix pass.old.seen order.old.list }
    ensures made { NamesPasses order.new.passes order.new.list }
{
    enter_named::<Brand>(order, pass, tail, event);
}

fn enter_ask_named<E: Named>(order: &mut Order, pass: &mut Pass, attempt: u32, now: u64)
    requires named { ask_by pass.old attempt now ≡ E.entry }
    requires one { pass.old.table ≡ order.old.table }
    requires may { MayAsk pass.old attempt }
    ensures order { order.new ≡ order_with order.old E.entry }
    ensures pass { pass.new ≡ pass_seeing pass.old order.new.list }
    ensures once { own_entries pass.new ≡ own_entries pass.old ++ E.entry ∷ [] }
    ensures begins { IsPrefix pass.old.seen order.old.list }
    ensures made { NamesPasses order.new.passes order.new.list }
{
    let _ = now;
    let board: &Board = &order.board;
    let right = lend(board, &mut order.seat);
    take(board, &mut pass.seat, right);
    board.shared.fetch_add::<AppendAsk<E>>(&mut pass.seat, 0, 1);
    let right = lend(board, &mut pass.seat);
    take(board, &mut order.seat, right);
    pass.left -= 1;
    if attempt == 1 {
        pass.asks += 1;
    }
}

/// Enters a try of a question of the pass, at this moment. A first try has a number of its own, one
/// more than the pass's questions before; a second and a third try have the number of the last
/// question. The history grows by the entry, and the pass has seen all of it.
pub fn enter_ask(order: &mut Order, pass: &mut Pass, attempt: u32, now: u64)
    requires one { pass.old.table ≡ order.old.table }
    requires may { MayAsk pass.old attempt }
    ensures order { order.new ≡ order_with order.old (ask_by pass.old attempt now) }
    ensures pass { pass.new ≡ pass_seeing pass.old order.new.list }
    ensures once { own_entries pass.new
        ≡ own_entries pass.old ++ ask_by pass.old attempt now ∷ [] }
    ensures begins { IsPrefix pass.old.seen order.old.list }
    ensures made { NamesPasses order.new.passes order.new.list }
{
    enter_ask_named::<Brand>(order, pass, attempt, now);
}
