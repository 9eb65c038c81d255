//! The end of a history.
ghost use Rattle.std.specs.Prelude.{◌≡◌, ◌<◌, [], Some, length, slice_get};
ghost use Rattle.carbon_history.specs.Entries.{NamesPasses, about_class};
ghost use Rattle.shared_history.specs.Parts.{AllAgree, PassesOfTable, AllSeen, HasSeen, TailsOfTable};

use crate::parts::{Order, Pass, Tail};
use crate::rule::{Board, Close};
use crate::seeing::{agree, see};
use std::marker::Model;

/// A history that has ended: no entry comes any more. At run time it is a count.
#[derive(Drop)]
pub struct History {
    count: u64,
    held: Option<Order>,
}

impl Model for History {
    ghost use Rattle.std.specs.Prelude.{◌≡◌, List, length};
    ghost use Rattle.carbon_history.specs.declared.entry.Entry.{Entry};
    ghost use Rattle.shared_history.specs.Parts.{held_list};

    ghost Value = { List Entry };

    ghost view = { λ h. held_list h.held };

    ghost invariant = { λ h. h.count ≡ length (held_list h.held) };
}

impl History {
    /// The history of a run that ends before it has one.
    pub fn empty() -> History
        ensures { result ≡ [] }
    {
        History {
            count: 0,
            held: None,
        }
    }

    /// How many entries it has.
    pub fn len(&self) -> u64
        ensures { result ≡ length self.now }
    {
        self.count
    }
}

fn see_last(order: &mut Order, mut pass: Pass)
    requires one { pass.table ≡ order.old.table }
    ensures seen { HasSeen order.old.list pass }
    ensures order { order.new ≡ order.old }
{
    see(order, &mut pass);
}

fn see_all(order: &mut Order, passes: Vec<Pass>)
    requires one { PassesOfTable order.old.table passes.items }
    ensures seen { AllSeen order.old.list passes.items }
    ensures order { order.new ≡ order.old }
{
    for pass in passes {
        see_last(order, pass);
    }
}

fn agree_last(order: &mut Order, mut tail: Tail)
    requires one { tail.table ≡ order.old.table }
    ensures agree { tail.list ≡ about_class tail.class order.old.list }
    ensures order { order.new ≡ order.old }
{
    agree(order, &mut tail);
}

fn agree_all(order: &mut Order, tails: Vec<Tail>)
    requires one { TailsOfTable order.old.table tails.items }
    ensures agree { AllAgree order.old.list tails.items }
    ensures order { order.new ≡ order.old }
{
    for tail in tails {
        agree_last(order, tail);
    }
}

fn count_all(order: &mut Order) -> u64
    ensures count { result ≡ length order.old.list }
    ensures made { NamesPasses order.old.passes order.old.list }
    ensures order { order.new ≡ order.old }
{
    let board: &Board = &order.board;
    board.shared.load::<Close>(&mut order.seat, 0)
}

/// Ends the history. What each pass has seen begins it and has all entries of that pass, each tail
/// has the entries about its class, and every entry names a pass that was made.
pub fn close(mut order: Order, tails: Vec<Tail>, passes: Vec<Pass>) -> History
    requires tails { TailsOfTable order.table tails.items }
    requires passes { PassesOfTable order.table passes.items }
    ensures list { result ≡ order.list }
    ensures seen { AllSeen result passes.items }
    ensures tails { AllAgree result tails.items }
    ensures made { NamesPasses order.passes result }
{
    let count = count_all(&mut order);
    see_all(&mut order, passes);
    agree_all(&mut order, tails);
    History {
        count,
        held: Some(order),
    }
}
