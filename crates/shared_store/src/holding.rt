//! The last try of a question, at which files are held.
ghost use Rattle.std.specs.Prelude.{◌≡◌, List, All, false, length, vec_len};
ghost use Rattle.std.specs.Sync.Mutex.{mutex_guard_value};
ghost use Rattle.carbon_history.specs.declared.entry.Entry.{Entry};
ghost use Rattle.carbon_model.specs.Replay.{replay};
ghost use Rattle.shared_store.specs.Asking.{AreDesks, AreDesksOf};
ghost use Rattle.shared_store.specs.Held.{AreFiles, IsCovered, IsHeld, IsLookIn, IsMet, IsPlaceAt};

use crate::ask_fault::AskFault;
use crate::class_desk::ClassDesk;
use crate::class_files::ClassFiles;
use crate::finding::look_for;
use crate::found_set::FoundSet;
use crate::named::Named;
use crate::store::Store;
use crate::store_pass::StorePass;
use crate::try_end::TryEnd;
use crate::wanted::Wanted;
use outside_io::Disk;
use series_set::SeriesRows;
use shard_core::Looked;
use std::alloc::{AllocError, Global};
use std::sync::{MutexGuard, Wait};

impl<D: Disk, N: Named> Store<D, N> {
    ghost use Rattle.std.specs.Prelude.{◌≡◌, ◌<◌, ◌≤◌, ◌+◌, ◌^◌, [], All, IfOk, IfSome, None, List, length, vec_len};
    ghost use Rattle.carbon_history.specs.declared.entry.Entry.{Entry};
    ghost use Rattle.render_need.specs.Rows.{AreRows};
    ghost use Rattle.render_need.specs.Ends.{AreEnds};
    ghost use Rattle.shared_history.specs.Events.{MayAsk};
    ghost use Rattle.shared_history.specs.Parts.{PassValue, own_entries};
    ghost use Rattle.shared_store.specs.Asking.{AreDesks, AreDesksOf, SeesDesks, SeesMore, TriesTo};
    ghost use Rattle.shared_store.specs.Held.{AreFiles, IsPlaceAt};
    ghost use Rattle.shared_store.specs.Known.{AllKnow, KnowsBy, needs_of};
    ghost use Rattle.shared_store.specs.Passes.{Enters, LooksOn, SameLooks};

    // The lock of the files of a class, where it is one of these, each of which is a bit.
    fn lock_files_if<'a>(
        &'a self,
        rt: &impl Wait,
        classes: u16,
        class: u32,
    ) -> Option<MutexGuard<'a, ClassFiles<D, N>>>
        requires { class < 16 }
        ensures { IsPlaceAt class result }
    {
        if (classes >> class) & 1 == 0 {
            return None;
        }
        Some(self.lock_files(rt, class))
    }

    // The locks of the files of these classes, taken in order, each in the place of its class.
    fn lock_files_of<'a>(
        &'a self,
        rt: &impl Wait,
        alloc: Global,
        classes: u16,
    ) -> Result<Vec<Option<MutexGuard<'a, ClassFiles<D, N>>>>, AllocError>
        ensures sixteen { IfOk result (λ held. vec_len held ≡ 16) }
        ensures files { IfOk result (λ held. AreFiles held.items) }
    {
        let mut held = Vec::with_capacity(alloc, 16)?;
        for class in 0..16 {
            held.push(self.lock_files_if(rt, classes, class))?;
        }
        Ok(held)
    }

    // The pass sees the whole history, which the desks have.
    fn see_behind(
        &self,
        rt: &impl Wait,
        desks: &mut Vec<MutexGuard<'_, ClassDesk<N>>>,
        pass: &mut StorePass<N>,
    )
        requires sixteen { vec_len desks.old ≡ 16 }
        requires desks { AreDesks desks.old.items }
        ensures enters { Enters N.start N.passes [] pass.old pass.new }
        ensures looks { SameLooks pass.old pass.new }
        ensures desks { AreDesksOf pass.new.seen desks.new.items }
        ensures sixteen { vec_len desks.new ≡ 16 }
    {
        let mut guard = self.order.lock(rt);
        let order = &mut *guard;
        Self::agree_all(desks, order);
        order.see_all(pass);
    }

    // The pass sees the whole history and looks at all classes, where the locks of all desks are held.
    // Nothing is entered.
    fn see_desks(
        &self,
        rt: &impl Wait,
        desks: &mut Vec<MutexGuard<'_, ClassDesk<N>>>,
        pass: &mut StorePass<N>,
    )
        requires sixteen { vec_len desks.old ≡ 16 }
        requires desks { AreDesks desks.old.items }
        ensures sees { SeesDesks pass.old pass.new }
        ensures desks { AreDesksOf pass.new.seen desks.new.items }
        ensures sixteen { vec_len desks.new ≡ 16 }
    {
        self.see_behind(rt, desks, pass);
        Self::mark_all(desks, pass);
    }

    #[tactic(auto, using(crate::proofs::AskPassLemmas::on_same))]
    // The last try, if it finds nothing kept in a class but in those of which the files are held through its reads:
    // no drain of one of them begins meanwhile, so that nothing has moved. Else it is not entered, and the
    // classes that it wants are added to those. What was seen before may be told of a pass that had seen less.
    fn attempt_held(
        &self,
        rt: &impl Wait,
        alloc: Global,
        pass: &mut StorePass<N>,
        needs: &[Wanted<'_>],
        now: u32,
        attempt: u32,
        classes: &mut u16,
    ) -> Option<Result<SeriesRows, TryEnd>>
        requires may { MayAsk pass.old attempt }
        requires room { length (own_entries pass.old) + 2 ≤ 2 ^ 48 }
        requires needs { All AreEnds (needs_of needs.now) }
        requires known { AllKnow (KnowsBy N.start pass.old.looks) needs.now }
        requires now { now ≤ 4_000_000_000 }
        ensures tries { IfSome result (λ end. (first : PassValue) → SeesMore first pass.old
            → TriesTo N.start N.told N.passes now (needs_of needs.now) attempt end first pass.new) }
        ensures rows { IfSome result (λ end. IfOk end AreRows) }
        ensures more { result ≡ None → SeesMore pass.old pass.new }
        ensures looks { LooksOn pass.old pass.new }
    {
        let Ok(mut held) = self.lock_files_of(rt, alloc, *classes) else {
            self.order.lock(rt).see_all(pass);
            return Some(Err(TryEnd::Ended(AskFault::NoMemory)));
        };
        let Ok(mut desks) = self.lock_all(rt, alloc) else {
            self.order.lock(rt).see_all(pass);
            return Some(Err(TryEnd::Ended(AskFault::NoMemory)));
        };
        self.see_desks(rt, &mut desks, pass);
        meet_all(&mut held, &mut desks);
        let found = match look_for(alloc, desks.as_slice(), needs, now) {
            Ok(found) => found,
            Err(fault) => {
                self.enter_try(rt, &mut desks, pass, attempt, now);
                return Some(Err(TryEnd::Ended(fault)));
            }
        };
        if adds_classes(held.as_slice(), desks.as_slice(), found.as_slice(), classes) {
            return None;
        }
        self.enter_try(rt, &mut desks, pass, attempt, now);
        drop(desks);
        Some(self.answer(rt, alloc, held, pass, found))
    }

    // The last try. It is looked for under the files of no class first, and then under those of more classes
    // each time, of which there are sixteen, until they are those that it wants.
    pub(crate) fn attempt_last(
        &self,
        rt: &impl Wait,
        alloc: Global,
        pass: &mut StorePass<N>,
        needs: &[Wanted<'_>],
        now: u32,
        attempt: u32,
    ) -> Result<SeriesRows, TryEnd>
        requires may { MayAsk pass.old attempt }
        requires room { length (own_entries pass.old) + 2 ≤ 2 ^ 48 }
        requires needs { All AreEnds (needs_of needs.now) }
        requires known { AllKnow (KnowsBy N.start pass.old.looks) needs.now }
        requires now { now ≤ 4_000_000_000 }
        ensures tries { TriesTo N.start N.told N.passes now (needs_of needs.now) attempt result
            pass.old pass.new }
        ensures rows { IfOk result AreRows }
        ensures looks { LooksOn pass.old pass.new }
    {
        let mut classes = 0_u16;
        for _look in rt.forever() {
            match self.attempt_held(rt, alloc, pass, needs, now, attempt, &mut classes) {
                Some(end) => return end,
                None => {}
            }
        }
        unreachable!()
    }
}

// Where the lock of the files of a class is held with that of its desk: since they last were, the desk did no more
// than a desk does alone.
fn meet_at<D: Disk, N: Named>(
    place: &mut Option<MutexGuard<'_, ClassFiles<D, N>>>,
    desk: &mut MutexGuard<'_, ClassDesk<N>>,
)
    requires class { IsPlaceAt (mutex_guard_value desk.old).class place.old }
    ensures met { IsMet (mutex_guard_value desk.old) place.new }
    ensures desk { mutex_guard_value desk.new ≡ mutex_guard_value desk.old }
{
    let Some(files) = place else { return };
    files.meet(desk);
}

// The same of all classes.
fn meet_all<D: Disk, N: Named>(
    held: &mut Vec<Option<MutexGuard<'_, ClassFiles<D, N>>>>,
    desks: &mut Vec<MutexGuard<'_, ClassDesk<N>>>,
)
    requires sixteen { (vec_len desks.old ≡ 16) × (vec_len held.old ≡ 16) }
    requires desks { AreDesks desks.old.items }
    requires held { AreFiles held.old.items }
    ensures desks { (list : List Entry) → AreDesksOf list desks.old.items → AreDesksOf list desks.new.items }
    ensures sixteen { (vec_len desks.new ≡ 16) × (vec_len held.new ≡ 16) }
    ensures held { (list : List Entry) → AreDesksOf list desks.old.items → IsHeld list held.new.items }
{
    for i in 0..held.len() {
        let place = &mut held[i];
        let desk = &mut desks[i];
        meet_at(place, desk);
    }
}

// Whether something is kept of a metric that was looked at while the lock of the files of its class is not held.
fn is_missing<D: Disk, N: Named>(
    held: &[Option<MutexGuard<'_, ClassFiles<D, N>>>],
    desks: &[MutexGuard<'_, ClassDesk<N>>],
    looked: &Looked,
) -> bool
    requires sixteen { (length desks.now ≡ 16) × (length held.now ≡ 16) }
    requires look { IsLookIn N.start desks.now looked.now }
    ensures covered { result ≡ false → (list : List Entry) → AreDesksOf list desks.now
        → IsCovered (replay N.start list) held.now looked.now }
{
    let class = looked.path.class();
    if held[class as usize].is_some() {
        return false;
    }
    let desk = &desks[class as usize];
    desk.keeps(looked)
}

// Adds the classes of those of these metrics.
fn adds_classes_of<D: Disk, N: Named>(
    held: &[Option<MutexGuard<'_, ClassFiles<D, N>>>],
    desks: &[MutexGuard<'_, ClassDesk<N>>],
    found: &[Looked],
    classes: &mut u16,
) -> bool
    requires sixteen { (length desks.now ≡ 16) × (length held.now ≡ 16) }
    requires looks { All (IsLookIn N.start desks.now) found.now }
    ensures covered { result ≡ false → (list : List Entry) → AreDesksOf list desks.now
        → All (IsCovered (replay N.start list) held.now) found.now }
{
    let mut adds = false;
    for looked in found {
        if is_missing(held, desks, looked) {
            *classes |= 1 << looked.path.class();
            adds = true;
        }
    }
    adds
}

// Adds to these classes, each of which is a bit, those in which something that was found is kept while the lock of
// their files is not held. Whether there are any.
fn adds_classes<D: Disk, N: Named>(
    held: &[Option<MutexGuard<'_, ClassFiles<D, N>>>],
    desks: &[MutexGuard<'_, ClassDesk<N>>],
    found: &[FoundSet],
    classes: &mut u16,
) -> bool
    requires sixteen { (length desks.now ≡ 16) × (length held.now ≡ 16) }
    requires looks { All (All (IsLookIn N.start desks.now)) found.now }
    ensures covered { result ≡ false → (list : List Entry) → AreDesksOf list desks.now
        → All (All (IsCovered (replay N.start list) held.now)) found.now }
{
    let mut adds = false;
    for set in found {
        if adds_classes_of(held, desks, set.as_slice(), classes) {
            adds = true;
        }
    }
    adds
}
