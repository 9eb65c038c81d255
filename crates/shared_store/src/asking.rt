//! Questions.
use crate::ask_fault::AskFault;
use crate::class_desk::ClassDesk;
use crate::class_files::ClassFiles;
use crate::finding::{look_for, put_in_order};
use crate::found_set::FoundSet;
use crate::named::Named;
use crate::order_desk::OrderDesk;
use crate::store::Store;
use crate::store_pass::StorePass;
use crate::try_end::TryEnd;
use crate::wanted::{Wanted, want_all};
use outside_io::Disk;
use render_need::Need;
use series_set::SeriesRows;
use std::alloc::{AllocError, Global};
use std::sync::{MutexGuard, Wait};

impl<D: Disk, N: Named> Store<D, N> {
    ghost use Rattle.std.specs.Prelude.{◌≡◌, ◌<◌, ◌≤◌, ◌+◌, ◌^◌, ℕ, All, IfOk, List, length, vec_len, []};
    ghost use Rattle.carbon_history.specs.declared.entry.Entry.{Entry};
    ghost use Rattle.carbon_model.specs.Replay.{replay};
    ghost use Rattle.render_need.specs.declared.need.Need.{Need};
    ghost use Rattle.render_need.specs.Rows.{AreRows};
    ghost use Rattle.render_need.specs.Ends.{AreEnds};
    ghost use Rattle.shared_history.specs.Events.{MayAsk, ask_by};
    ghost use Rattle.shared_history.specs.Parts.{own_entries};
    ghost use Rattle.shared_store.specs.Asking.{AnswersTry, AreDesks, AreDesksOf, AreFound, EntersBehind, EntersTries, FindsSets, IsNoMove, MarksAll, TriesTo};
    ghost use Rattle.shared_store.specs.Asks.{Asks};
    ghost use Rattle.shared_store.specs.Held.{IsCovered, IsHeld};
    ghost use Rattle.shared_store.specs.Known.{AllKnow, KnowsBy, needs_of};
    ghost use Rattle.shared_store.specs.Passes.{Enters, HasRoom, LooksOn};

    // The locks of all classes, taken in order.
    pub(crate) fn lock_all<'a>(
        &'a self,
        rt: &impl Wait,
        alloc: Global,
    ) -> Result<Vec<MutexGuard<'a, ClassDesk<N>>>, AllocError>
        ensures sixteen { IfOk result (λ desks. vec_len desks ≡ 16) }
        ensures desks { IfOk result (λ desks. AreDesks desks.items) }
    {
        let mut desks = Vec::with_capacity(alloc, 16)?;
        for class in 0..16 {
            desks.push(self.lock_class(rt, class))?;
        }
        Ok(desks)
    }

    // The entries of all classes are those that the history has about them.
    pub(crate) fn agree_all(desks: &mut Vec<MutexGuard<'_, ClassDesk<N>>>, order: &mut OrderDesk<N>)
        requires sixteen { vec_len desks.old ≡ 16 }
        requires desks { AreDesks desks.old.items }
        ensures desks { AreDesksOf order.old desks.new.items }
        ensures still { (list : List Entry) → AreDesksOf list desks.old.items
            → AreDesksOf list desks.new.items }
        ensures sixteen { vec_len desks.new ≡ 16 }
        ensures order { order.new ≡ order.old }
    {
        for i in 0..desks.len() {
            let desk = &mut desks[i];
            desk.agree(order);
        }
    }

    #[tactic(auto, using(crate::proofs::AskPassLemmas::only_itself))]
    // The pass looks at all classes.
    pub(crate) fn mark_all(desks: &mut Vec<MutexGuard<'_, ClassDesk<N>>>, pass: &mut StorePass<N>)
        requires sixteen { vec_len desks.old ≡ 16 }
        requires desks { AreDesksOf pass.old.seen desks.old.items }
        ensures marks { MarksAll pass.old.seen pass.old pass.new }
        ensures desks { AreDesksOf pass.old.seen desks.new.items }
        ensures still { (list : List Entry) → AreDesksOf list desks.old.items
            → AreDesksOf list desks.new.items }
        ensures sixteen { vec_len desks.new ≡ 16 }
    {
        for i in 0..desks.len() {
            let desk = &mut desks[i];
            desk.mark(pass);
        }
    }

    // Enters a try under the lock of the order.
    fn enter_behind(
        &self,
        rt: &impl Wait,
        desks: &mut Vec<MutexGuard<'_, ClassDesk<N>>>,
        pass: &mut StorePass<N>,
        attempt: u32,
        now: u32,
    )
        requires sixteen { vec_len desks.old ≡ 16 }
        requires desks { AreDesks desks.old.items }
        requires may { MayAsk pass.old attempt }
        ensures enters { EntersBehind N.start N.passes (ask_by pass.old attempt now)
            pass.old pass.new }
        ensures desks { AreDesksOf pass.new.seen desks.new.items }
        ensures still { (list : List Entry) → AreDesksOf list desks.old.items
            → AreDesksOf list desks.new.items }
        ensures sixteen { vec_len desks.new ≡ 16 }
    {
        let mut guard = self.order.lock(rt);
        let order = &mut *guard;
        Self::agree_all(desks, order);
        order.enter_try(pass, attempt, now);
    }

    // Enters a try, where the locks of all classes are held. The order is free before the pass
    // looks at the classes.
    pub(crate) fn enter_try(
        &self,
        rt: &impl Wait,
        desks: &mut Vec<MutexGuard<'_, ClassDesk<N>>>,
        pass: &mut StorePass<N>,
        attempt: u32,
        now: u32,
    )
        requires sixteen { vec_len desks.old ≡ 16 }
        requires desks { AreDesks desks.old.items }
        requires may { MayAsk pass.old attempt }
        ensures enters { EntersTries N.start N.passes now attempt pass.old pass.new }
        ensures desks { AreDesksOf pass.new.seen desks.new.items }
        ensures still { (list : List Entry) → AreDesksOf list desks.old.items
            → AreDesksOf list desks.new.items }
        ensures sixteen { vec_len desks.new ≡ 16 }
    {
        self.enter_behind(rt, desks, pass, attempt, now);
        Self::mark_all(desks, pass);
    }

    // The rows of what was found when a try was entered, put in order and read, where the locks of the desks
    // are given back. Those of files are held at a last try.
    pub(crate) fn answer(
        &self,
        rt: &impl Wait,
        alloc: Global,
        held: Vec<Option<MutexGuard<'_, ClassFiles<D, N>>>>,
        pass: &mut StorePass<N>,
        found: Vec<FoundSet>,
    ) -> Result<SeriesRows, TryEnd>
        requires held { IsHeld pass.old.seen held.items }
        requires room { length (own_entries pass.old) + 1 ≤ 2 ^ 48 }
        requires found { AreFound (replay N.start pass.old.seen) found.items }
        requires covered { All (All (IsCovered (replay N.start pass.old.seen) held.items)) found.items }
        ensures answers { (now : ℕ) (needs : List Need)
            → FindsSets (replay N.start pass.old.seen) now needs found.items
            → AnswersTry N.start N.told N.passes now needs result pass.old pass.new }
        ensures rows { IfOk result AreRows }
        ensures still { 0 < vec_len held.entry → IsNoMove result }
    {
        let mut held = held;
        let found = put_in_order(alloc, found)?;
        self.read_all(rt, alloc, &mut held, pass, found.as_slice())
    }

    #[tactic(auto, using(crate::proofs::AskPassLemmas::on_same))]
    // A try of a question but the last. No files are held but while a metric of their class is read.
    fn attempt_free(
        &self,
        rt: &impl Wait,
        alloc: Global,
        pass: &mut StorePass<N>,
        needs: &[Wanted<'_>],
        now: u32,
        attempt: u32,
    ) -> Result<SeriesRows, TryEnd>
        requires few { attempt < 3 }
        requires may { MayAsk pass.old attempt }
        requires room { length (own_entries pass.old) + 2 ≤ 2 ^ 48 }
        requires needs { All AreEnds (needs_of needs.now) }
        requires known { AllKnow (KnowsBy N.start pass.old.looks) needs.now }
        requires now { now ≤ 4_000_000_000 }
        ensures tries { TriesTo N.start N.told N.passes now (needs_of needs.now) attempt result
            pass.old pass.new }
        ensures rows { IfOk result AreRows }
        ensures looks { LooksOn pass.old pass.new }
    {
        let Ok(mut desks) = self.lock_all(rt, alloc) else {
            self.order.lock(rt).see_all(pass);
            return Err(TryEnd::Ended(AskFault::NoMemory));
        };
        self.enter_try(rt, &mut desks, pass, attempt, now);
        let found = match look_for(alloc, desks.as_slice(), needs, now) {
            Ok(found) => found,
            Err(fault) => return Err(TryEnd::Ended(fault)),
        };
        drop(desks);
        self.answer(rt, alloc, Vec::new(alloc), pass, found)
    }

    // One try of a question.
    fn attempt(
        &self,
        rt: &impl Wait,
        alloc: Global,
        pass: &mut StorePass<N>,
        needs: &[Wanted<'_>],
        now: u32,
        attempt: u32,
    ) -> Result<SeriesRows, TryEnd>
        requires may { MayAsk pass.old attempt }
        requires room { length (own_entries pass.old) + 2 ≤ 2 ^ 48 }
        requires needs { All AreEnds (needs_of needs.now) }
        requires known { AllKnow (KnowsBy N.start pass.old.looks) needs.now }
        requires now { now ≤ 4_000_000_000 }
        ensures tries { TriesTo N.start N.told N.passes now (needs_of needs.now) attempt result
            pass.old pass.new }
        ensures rows { IfOk result AreRows }
        ensures looks { LooksOn pass.old pass.new }
    {
        if attempt < 3 {
            return self.attempt_free(rt, alloc, pass, needs, now, attempt);
        }
        self.attempt_last(rt, alloc, pass, needs, now, attempt)
    }

    // The tries of a question.
    fn ask_wanted(
        &self,
        rt: &impl Wait,
        alloc: Global,
        pass: &mut StorePass<N>,
        needs: &[Wanted<'_>],
        now: u32,
    ) -> Result<SeriesRows, AskFault>
        requires room { HasRoom pass.old }
        requires needs { All AreEnds (needs_of needs.now) }
        requires known { AllKnow (KnowsBy N.start pass.old.looks) needs.now }
        requires now { now ≤ 4_000_000_000 }
        ensures asks { Asks N.start N.told N.passes now (needs_of needs.now) result
            pass.old pass.new }
        ensures rows { IfOk result AreRows }
        ensures looks { LooksOn pass.old pass.new }
    {
        for again in 0..3 {
            match self.attempt(rt, alloc, pass, needs, now, again + 1) {
                Ok(rows) => return Ok(rows),
                Err(TryEnd::Ended(fault)) => return Err(fault),
                Err(TryEnd::Moved) => {}
            }
        }
        unreachable!()
    }

    /// The series that these needs find at the moment `now`: a list for each need, in byte order of
    /// the paths, all as they are at one moment of the history, which is the entry of the
    /// question's last try. Globs that are much work are held against the names before the locks of all
    /// classes are taken. Each series is read under the lock of the files of its class alone; at a third
    /// try those of the classes are held of which something that it shows is kept, and no others.
    ///
    /// # Errors
    ///
    /// What is found is counted at the same moment. A disk that fails while series are read is
    /// entered, and ends the question. Globs that are too much work end it as want of memory does.
    pub fn ask(
        &self,
        rt: &impl Wait,
        alloc: Global,
        pass: &mut StorePass<N>,
        needs: &[Need],
        now: u32,
    ) -> Result<SeriesRows, AskFault>
        requires room { HasRoom pass.old }
        requires needs { All AreEnds needs.now }
        requires now { now ≤ 4_000_000_000 }
        ensures asks { Asks N.start N.told N.passes now needs.now result pass.old pass.new }
        ensures rows { IfOk result AreRows }
        ensures looks { LooksOn pass.old pass.new }
    {
        let Ok(names) = self.names_for(rt, alloc, pass, needs) else {
            return Err(self.give_up(rt, pass));
        };
        let Ok(wanted) = want_all(alloc, needs, names.as_slice()) else {
            return Err(self.give_up(rt, pass));
        };
        self.ask_wanted(rt, alloc, pass, wanted.as_slice(), now)
    }

    #[tactic(auto, using(crate::proofs::AskPassLemmas::on_same))]
    // A question ends before its first try, for want of memory.
    fn give_up(&self, rt: &impl Wait, pass: &mut StorePass<N>) -> AskFault
        ensures fault { result ≡ AskFault.NoMemory }
        ensures enters { Enters N.start N.passes [] pass.old pass.new }
        ensures looks { LooksOn pass.old pass.new }
    {
        self.order.lock(rt).see_all(pass);
        AskFault::NoMemory
    }
}
