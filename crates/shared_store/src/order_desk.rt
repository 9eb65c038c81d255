//! What the lock of the order keeps.
use crate::named::Named;
use crate::store_pass::{StorePass, enter, see};
use crate::tally::Tally;
use shared_history::{Event, Order, Tail, agree};
use std::marker::{Model, PhantomData};

/// The history, and the counts of its entries.
#[derive(Drop)]
pub(crate) struct OrderDesk<N: Named> {
    pub(crate) order: Order,
    pub(crate) tally: Tally,
    pub(crate) of: PhantomData<N>,
}

impl<N: Named> Model for OrderDesk<N> {
    ghost use Rattle.std.specs.Prelude.{List};
    ghost use Rattle.carbon_history.specs.declared.entry.Entry.{Entry};
    ghost use Rattle.shared_store.specs.Orders.{KeepsOrder};

    ghost Value = { List Entry };

    ghost view = { λ d. d.order.list };

    ghost invariant = { λ d. KeepsOrder N.table N.passes N.start d.order d.tally };
}

impl<N: Named> OrderDesk<N> {
    ghost use Rattle.std.specs.Prelude.{◌≡◌, IfSome, [], option_map};
    ghost use Rattle.carbon_model.specs.Replay.{IsLegal, replay};
    ghost use Rattle.shared_history.specs.Events.{MayEnter, entry_by};
    ghost use Rattle.shared_history.specs.Parts.{tail_with};
    ghost use Rattle.shared_store.specs.Passes.{Enters, EntersLast, SameLooks, SeesAll};
    ghost use Rattle.shared_store.specs.Tails.{MayTell, Tells, tail_told};
    ghost use Rattle.shared_store.specs.Tallies.{tally_of};

    #[tactic(auto, using(crate::proofs::DeskLemmas::legal_entry, crate::proofs::DeskLemmas::tally_more))]
    /// Enters what the pass did in a class, as it may be done in the state after the entries of the
    /// tail.
    pub(crate) fn enter(&mut self, pass: &mut StorePass<N>, tail: &mut Tail, event: &Event<'_>)
        requires one { tail.old.table ≡ N.table }
        requires may { MayEnter pass.old tail.old (entry_by pass.old tail.old event.now) }
        requires legal { IsLegal (replay N.start tail.old.list) (entry_by pass.old tail.old event.now) }
        ensures tail { tail.new ≡ tail_with tail.old (entry_by pass.old tail.old event.now) }
        ensures last { EntersLast N.start N.passes tail.old (entry_by pass.old tail.old event.now)
            pass.old pass.new }
    {
        agree(&mut self.order, tail);
        enter(&mut self.order, pass, tail, event);
        self.tally.count(event);
    }

    /// The pass sees the whole history, and enters nothing.
    pub(crate) fn see(&mut self, pass: &mut StorePass<N>, tail: &mut Tail)
        requires one { tail.old.table ≡ N.table }
        ensures tail { tail.new ≡ tail.old }
        ensures all { SeesAll N.start N.passes tail.old pass.old pass.new }
    {
        agree(&mut self.order, tail);
        see(&mut self.order, pass);
    }

    /// Enters what the pass did, where that is entered, or else sees the whole history.
    pub(crate) fn tell(
        &mut self,
        pass: &mut StorePass<N>,
        tail: &mut Tail,
        event: &Option<Event<'_>>,
    )
        requires one { tail.old.table ≡ N.table }
        requires may { IfSome (option_map (entry_by pass.old tail.old) event.now)
            (MayTell N.start pass.old tail.old) }
        ensures tail { tail.new
            ≡ tail_told tail.old (option_map (entry_by pass.old tail.old) event.now) }
        ensures tells { Tells N.start N.passes tail.old
            (option_map (entry_by pass.old tail.old) event.now) pass.old pass.new }
    {
        match event {
            Some(event) => self.enter(pass, tail, event),
            None => self.see(pass, tail),
        }
    }

    /// The counts of all entries, which the pass sees.
    pub(crate) fn tally(&mut self, pass: &mut StorePass<N>) -> Tally
        ensures counts { result ≡ tally_of pass.new.seen }
        ensures enters { Enters N.start N.passes [] pass.old pass.new }
        ensures looks { SameLooks pass.old pass.new }
    {
        see(&mut self.order, pass);
        self.tally
    }
}
