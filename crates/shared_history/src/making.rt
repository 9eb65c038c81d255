//! A new history.
ghost use Rattle.std.specs.Prelude.{◌≡◌, ◌+◌, ◌-◌, ◌<◌, ◌≤◌, ◌^◌, IfOk, OnOk, vec_len};
ghost use Rattle.shared_history.specs.Parts.{
  AreNewPasses,
  AreNewTails,
  IsNewOrder,
  IsNewPass,
  IsNewTail,
  more_passes,
  more_tails,
};

use crate::parts::{MOST_ENTRIES, Order, Pass, Tail};
use crate::rule::{Board, NewPass, NewTail};
use std::alloc::{AllocError, Global};
use std::sync::Arc;

fn open(alloc: Global, classes: u32) -> Result<Order, AllocError>
    ensures { IfOk result (λ o. IsNewOrder 0 0 o × (o.table.words ≡ classes + 1)) }
{
    let words = vec![in alloc; 0u64; classes as usize + 1]?;
    let (board, seat) = Board::of_words(alloc, words.as_slice(), &())?;
    Ok(Order {
        board: Arc::new(alloc, board)?,
        seat,
        passes: 0,
        classes: 0,
    })
}

fn add_tail(order: &mut Order) -> Result<Tail, AllocError>
    requires words { order.old.classes + 1 < order.old.table.words }
    requires few { order.old.classes < 2 ^ 32 - 1 }
    ensures ok { IfOk result (λ t. IsNewTail order.old.table order.old.classes t) }
    ensures order { OnOk result (order.new ≡ more_tails order.old) }
{
    let board = Arc::try_clone(&order.board)?;
    let inner: &Board = &board;
    let seat = inner.shared.split_seat::<NewTail>(&mut order.seat);
    let class = order.classes;
    order.classes += 1;
    Ok(Tail { board, seat, class })
}

fn add_pass(order: &mut Order) -> Result<Pass, AllocError>
    requires { order.old.passes < 65535 }
    ensures ok { IfOk result (λ p. IsNewPass order.old.table order.old.passes p) }
    ensures order { OnOk result (order.new ≡ more_passes order.old) }
{
    let board = Arc::try_clone(&order.board)?;
    let inner: &Board = &board;
    let seat = inner.shared.split_seat::<NewPass>(&mut order.seat);
    let number = order.passes;
    order.passes += 1;
    Ok(Pass {
        board,
        seat,
        number,
        left: MOST_ENTRIES,
        asks: 0,
    })
}

/// An empty history, with a tail for each class and a pass for each caller, of which there may be at
/// most 65,535.
pub fn make(
    alloc: Global,
    classes: u32,
    passes: u32,
) -> Result<(Order, Vec<Tail>, Vec<Pass>), AllocError>
    requires { passes ≤ 65535 }
    ensures order { IfOk result (λ r. IsNewOrder passes classes r.0) }
    ensures tails { IfOk result (λ r. (vec_len r.1 ≡ classes) × AreNewTails r.0.table r.1.items) }
    ensures passes { IfOk result (λ r. (vec_len r.2 ≡ passes) × AreNewPasses r.0.table r.2.items) }
{
    let mut order = open(alloc, classes)?;
    let mut tails = Vec::new(alloc);
    for _k in 0..classes {
        tails.push(add_tail(&mut order)?)?;
    }
    let mut members = Vec::new(alloc);
    for _n in 0..passes {
        members.push(add_pass(&mut order)?)?;
    }
    Ok((order, tails, members))
}
