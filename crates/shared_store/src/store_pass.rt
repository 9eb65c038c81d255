//! A pass of a store, and what it does with the history of the store.
ghost use Rattle.std.specs.Prelude.{◌≡◌, ◌⊎◌, ◌+◌, ◌++◌, ◌∷◌, []};
ghost use mathlib.Core.List.{IsPrefix};
ghost use Rattle.carbon_history.specs.Entries.{NamesPasses, about_class};
ghost use Rattle.shared_history.specs.Events.{MayAsk, MayEnter, ask_by, entry_by};
ghost use Rattle.shared_history.specs.Parts.{IsNoMore, look_now, order_with, own_entries, pass_looking, pass_seeing, pass_sighting, tail_with};
ghost use Rattle.shared_history.specs.Rule.{OneOwed};
ghost use Rattle.shared_history.specs.Views.{look_at};

use crate::named::Named;
use shared_history::{Event, Note, Order, Pass, Tail};
use std::marker::{Model, PhantomData};

/// A pass of a store: the history that it sees is the store's.
#[derive(Drop)]
pub struct StorePass<N: Named> {
    pass: Pass,
    of: PhantomData<N>,
}

impl<N: Named> Model for StorePass<N> {
    ghost use Rattle.std.specs.Prelude.{◌≡◌};
    ghost use Rattle.shared_history.specs.Parts.{PassValue};

    ghost Value = { PassValue };

    ghost view = { λ p. p.pass };

    ghost invariant = { λ p. p.pass.table ≡ N.table };
}

impl<N: Named> StorePass<N> {
    ghost use Rattle.std.specs.Prelude.{◌≡◌, ◌+◌, ◌^◌, length};
    ghost use Rattle.shared_history.specs.Parts.{own_entries};

    /// A pass of the history of the store, for its calls.
    pub fn new(pass: Pass) -> StorePass<N>
        requires { pass.table ≡ N.table }
        ensures { result ≡ pass }
    {
        StorePass {
            pass,
            of: PhantomData,
        }
    }

    /// The pass, for the end of the store.
    pub fn into_pass(self) -> Pass
        ensures pass { result ≡ self }
        ensures one { result.table ≡ N.table }
    {
        let StorePass { pass, of: _ } = self;
        pass
    }

    /// How many more entries the pass may have.
    pub fn left(&self) -> u64
        ensures { result + length (own_entries self.now) ≡ 2 ^ 48 }
    {
        self.pass.left()
    }
}

/// Enters what the pass did in the class of the tail.
pub(crate) fn enter<N: Named>(
    order: &mut Order,
    pass: &mut StorePass<N>,
    tail: &mut Tail,
    event: &Event<'_>,
)
    requires one { (order.old.table ≡ N.table) × (tail.old.table ≡ N.table) }
    requires may { MayEnter pass.old tail.old (entry_by pass.old tail.old event.now) }
    ensures order { order.new ≡ order_with order.old (entry_by pass.old tail.old event.now) }
    ensures tail { tail.new ≡ tail_with tail.old (entry_by pass.old tail.old event.now) }
    ensures pass { pass.new ≡ pass_seeing pass.old order.new.list }
    ensures once { own_entries pass.new
        ≡ own_entries pass.old ++ entry_by pass.old tail.old event.now ∷ [] }
    ensures begins { IsPrefix pass.old.seen order.old.list }
    ensures made { NamesPasses order.new.passes order.new.list }
{
    shared_history::enter(order, &mut pass.pass, tail, event);
}

/// Enters a try of a question of the pass.
pub(crate) fn enter_ask<N: Named>(
    order: &mut Order,
    pass: &mut StorePass<N>,
    attempt: u32,
    now: u64,
)
    requires one { order.old.table ≡ N.table }
    requires may { MayAsk pass.old attempt }
    ensures order { order.new ≡ order_with order.old (ask_by pass.old attempt now) }
    ensures pass { pass.new ≡ pass_seeing pass.old order.new.list }
    ensures once { own_entries pass.new
        ≡ own_entries pass.old ++ ask_by pass.old attempt now ∷ [] }
    ensures begins { IsPrefix pass.old.seen order.old.list }
    ensures made { NamesPasses order.new.passes order.new.list }
{
    shared_history::enter_ask(order, &mut pass.pass, attempt, now);
}

/// The pass sees the whole history.
pub(crate) fn see<N: Named>(order: &mut Order, pass: &mut StorePass<N>)
    requires one { order.old.table ≡ N.table }
    ensures pass { pass.new ≡ pass_sighting pass.old order.old.list }
    ensures own { own_entries pass.new ≡ own_entries pass.old }
    ensures begins { IsPrefix pass.old.seen order.old.list }
    ensures made { NamesPasses order.old.passes order.old.list }
    ensures order { order.new ≡ order.old }
{
    shared_history::see(order, &mut pass.pass);
}

/// A copy of what the pass has seen.
pub(crate) fn note<N: Named>(pass: &mut StorePass<N>) -> Note
    ensures table { result.table ≡ N.table }
    ensures list { result.list ≡ pass.old.seen }
    ensures pass { pass.new ≡ pass.old }
{
    shared_history::note(&mut pass.pass)
}

/// Of the two lists the pass has seen the longer, which the shorter begins.
pub(crate) fn learn<N: Named>(pass: &mut StorePass<N>, note: Note)
    requires one { note.table ≡ N.table }
    ensures one { (pass.new ≡ pass.old) ⊎ (pass.new ≡ pass_seeing pass.old note.list) }
    ensures begins { IsPrefix pass.old.seen pass.new.seen }
    ensures told { IsPrefix note.list pass.new.seen }
    ensures own { own_entries pass.new ≡ own_entries pass.old }
{
    shared_history::learn(&mut pass.pass, note);
}

/// The pass looks at the class of the tail.
pub(crate) fn mark<N: Named>(tail: &mut Tail, pass: &mut StorePass<N>)
    requires one { tail.old.table ≡ N.table }
    ensures pass { pass.new ≡ pass_looking pass.old (look_now tail.old pass.old) }
    ensures later { IsNoMore (look_at tail.old.class pass.old.looks) tail.old }
    ensures owed { OneOwed tail.old.settled tail.old.list }
    ensures begins { IsPrefix (about_class tail.old.class pass.old.seen) tail.old.list }
    ensures tail { tail.new ≡ tail.old }
{
    shared_history::mark(tail, &mut pass.pass);
}
