//! Beginning a drain of a class.
ghost use Rattle.std.specs.Prelude.{◌≡◌};

use crate::class_desk::{ClassDesk, lock_desk};
use crate::class_files::ClassFiles;
use crate::events::plan_event;
use crate::named::Named;
use crate::order_desk::OrderDesk;
use crate::runs::settle_begun;
use crate::store_pass::{StorePass, mark};
use class_halves::{meet, renew};
use outside_io::Disk;
use shard_core::Planned;
use std::sync::{Mutex, Wait};

/// How often the patch of a drain is made with the desk given back, where points of its metric come meanwhile. Each
/// time it reads the disk anew; after that the desk is kept while it does, and points of the class wait for it.
const TRIES_APART: u32 = 8;

impl<D: Disk, N: Named> ClassFiles<D, N> {
    ghost use Rattle.std.specs.Prelude.{◌≡◌, ◌≢◌, ℕ, false, true, None, IfSome, length};
    ghost use Rattle.carbon_history.specs.Entries.{listed};
    ghost use Rattle.shared_store.specs.Passes.{Enters, HasRoom, LooksAgain};
    ghost use Rattle.shared_store.specs.Steps.{AfterPlan, PlansAs, plan_entry};

    /// Begins the drain of the metric that goes next. The desk is given back while the disk is read, and the
    /// drain begins only if that metric still goes next with the same points. Else it is made again, and
    /// at last with the desk locked throughout.
    pub(crate) fn plan(
        &mut self,
        rt: &impl Wait,
        desks: &[Mutex<ClassDesk<N>>],
        order: &Mutex<OrderDesk<N>>,
        pass: &mut StorePass<N>,
        now: u32,
    ) -> Planned
        requires sixteen { length desks.now ≡ 16 }
        requires room { HasRoom pass.old }
        ensures enters { Enters N.start N.passes
            (listed (plan_entry pass.old.number self.old.class now result)) pass.old pass.new }
        ensures after { AfterPlan N.start self.old.class now result pass.old pass.new }
        ensures busy { result ≡ Planned.Busy → self.old.shelved ≡ true }
        ensures looks { LooksAgain self.old.class pass.old pass.new }
        ensures class { self.new.class ≡ self.old.class }
    {
        if self.shelved() {
            return self.plan_held(rt, desks, order, pass, now);
        }
        if let Some(planned) = self.plan_often(rt, desks, order, pass, now) {
            return planned;
        }
        self.plan_held(rt, desks, order, pass, now)
    }

    // Begins the drain of the metric that goes next, where none is being written, if that comes to pass at one of
    // some tries with the desk given back while the disk is read. `None` where it does not. Nothing is entered then.
    fn plan_often(
        &mut self,
        rt: &impl Wait,
        desks: &[Mutex<ClassDesk<N>>],
        order: &Mutex<OrderDesk<N>>,
        pass: &mut StorePass<N>,
        now: u32,
    ) -> Option<Planned>
        requires shelved { self.old.shelved ≡ false }
        requires sixteen { length desks.now ≡ 16 }
        requires room { HasRoom pass.old }
        ensures plans { IfSome result (λ planned. PlansAs N.start N.passes self.old.class now
            planned pass.old pass.new) }
        ensures busy { IfSome result (λ planned. planned ≢ Planned.Busy) }
        ensures still { result ≡ None → (pass.new ≡ pass.old) × (self.new ≡ self.old) }
        ensures class { self.new.class ≡ self.old.class }
    {
        for _try in 0..TRIES_APART {
            match self.plan_apart(rt, desks, order, pass, now) {
                Some(planned) => return Some(planned),
                None => {}
            }
        }
        None
    }

    // Begins the drain of the metric that goes next, where none is being written, if it goes next still and has
    // the same points once its patch is made: the desk is given back while the disk is read. `None` where it
    // does not. Nothing is entered then.
    fn plan_apart(
        &mut self,
        rt: &impl Wait,
        desks: &[Mutex<ClassDesk<N>>],
        order: &Mutex<OrderDesk<N>>,
        pass: &mut StorePass<N>,
        now: u32,
    ) -> Option<Planned>
        requires shelved { self.old.shelved ≡ false }
        requires sixteen { length desks.now ≡ 16 }
        requires room { HasRoom pass.old }
        ensures plans { IfSome result (λ planned. PlansAs N.start N.passes self.old.class now
            planned pass.old pass.new) }
        ensures busy { IfSome result (λ planned. planned ≢ Planned.Busy) }
        ensures still { result ≡ None → (pass.new ≡ pass.old) × (self.new ≡ self.old) }
        ensures class { self.new.class ≡ self.old.class }
    {
        let mut guard = lock_desk(rt, desks, self.files.class());
        let desk = &mut *guard;
        meet(&mut desk.half, &mut self.half);
        let metric = match desk.desk.next() {
            Ok(Some(metric)) => metric,
            // Nothing is pending, so the plan calls no disk.
            Ok(None) => return Some(self.plan_with(rt, desk, order, pass, now)),
            Err(_) => return Some(self.refuse_with(rt, desk, order, pass)),
        };
        drop(guard);
        let made = self.files.make(&metric, now);
        let mut guard = lock_desk(rt, desks, self.files.class());
        let desk = &mut *guard;
        meet(&mut desk.half, &mut self.half);
        let begun = self.files.begin_next(&mut desk.desk, &metric, made, now);
        let planned = match begun {
            Some(planned) => planned,
            None => return None,
        };
        let event = plan_event(&planned, now);
        order.lock(rt).tell(pass, &mut desk.tail, &event);
        settle_begun(&mut desk.tail, &planned, self.files.shelved());
        renew(&mut desk.half, &mut self.half, &desk.tail);
        mark(&mut desk.tail, pass);
        Some(planned)
    }

    // The same with the desk locked throughout.
    fn plan_held(
        &mut self,
        rt: &impl Wait,
        desks: &[Mutex<ClassDesk<N>>],
        order: &Mutex<OrderDesk<N>>,
        pass: &mut StorePass<N>,
        now: u32,
    ) -> Planned
        requires sixteen { length desks.now ≡ 16 }
        requires room { HasRoom pass.old }
        ensures enters { Enters N.start N.passes
            (listed (plan_entry pass.old.number self.old.class now result)) pass.old pass.new }
        ensures after { AfterPlan N.start self.old.class now result pass.old pass.new }
        ensures busy { result ≡ Planned.Busy → self.old.shelved ≡ true }
        ensures looks { LooksAgain self.old.class pass.old pass.new }
        ensures class { self.new.class ≡ self.old.class }
    {
        let mut guard = lock_desk(rt, desks, self.files.class());
        let desk = &mut *guard;
        self.plan_with(rt, desk, order, pass, now)
    }

    // The same where the desk is locked. The disk is read before the order is locked.
    fn plan_with(
        &mut self,
        rt: &impl Wait,
        desk: &mut ClassDesk<N>,
        order: &Mutex<OrderDesk<N>>,
        pass: &mut StorePass<N>,
        now: u32,
    ) -> Planned
        requires class { desk.old.class ≡ self.old.class }
        requires room { HasRoom pass.old }
        ensures enters { Enters N.start N.passes
            (listed (plan_entry pass.old.number self.old.class now result)) pass.old pass.new }
        ensures after { AfterPlan N.start self.old.class now result pass.old pass.new }
        ensures busy { result ≡ Planned.Busy → self.old.shelved ≡ true }
        ensures looks { LooksAgain self.old.class pass.old pass.new }
        ensures class { (self.new.class ≡ self.old.class) × (desk.new.class ≡ desk.old.class) }
    {
        meet(&mut desk.half, &mut self.half);
        let planned = self.files.plan(&mut desk.desk, now);
        let event = plan_event(&planned, now);
        order.lock(rt).tell(pass, &mut desk.tail, &event);
        settle_begun(&mut desk.tail, &planned, self.files.shelved());
        renew(&mut desk.half, &mut self.half, &desk.tail);
        mark(&mut desk.tail, pass);
        planned
    }

    // The end of a plan for which there was no memory, where the desk is locked. Nothing is entered, and no disk
    // is called.
    fn refuse_with(
        &mut self,
        rt: &impl Wait,
        desk: &mut ClassDesk<N>,
        order: &Mutex<OrderDesk<N>>,
        pass: &mut StorePass<N>,
    ) -> Planned
        requires shelved { self.old.shelved ≡ false }
        requires class { desk.old.class ≡ self.old.class }
        ensures memory { result ≡ Planned.NoMemory }
        ensures plans { (now : ℕ) → PlansAs N.start N.passes self.old.class now result
            pass.old pass.new }
        ensures class { (self.new.class ≡ self.old.class) × (desk.new.class ≡ desk.old.class) }
    {
        meet(&mut desk.half, &mut self.half);
        order.lock(rt).see(pass, &mut desk.tail);
        mark(&mut desk.tail, pass);
        Planned::NoMemory
    }
}
