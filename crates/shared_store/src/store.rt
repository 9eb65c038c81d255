//! The store.
ghost use Rattle.std.specs.Prelude.{◌≡◌, vec_len};

use crate::class_desk::{ClassDesk, lock_desk};
use crate::class_files::ClassFiles;
use crate::named::Named;
use crate::order_desk::OrderDesk;
use crate::room::Room;
use crate::step::Step;
use crate::store_pass::StorePass;
use crate::tally::Tally;
use metric_line::Datum;
use outside_io::Disk;
use point_cache::Put;
use shard_core::{Planned, Wrote};
use std::sync::{Mutex, MutexGuard, Wait};

/// The desk and the files of each class, each behind a lock of its own, and their one history behind
/// another. Locks are taken in this order: those of files in rising class, those of desks in rising
/// class, and that of the history. No disk is called while that of a desk or of the history is held,
/// but for the ring file that a plan reads at its last try.
#[derive(Drop)]
pub struct Store<D: Disk, N: Named> {
    pub(crate) order: Mutex<OrderDesk<N>>,
    pub(crate) desks: Vec<Mutex<ClassDesk<N>>>,
    pub(crate) files: Vec<Mutex<ClassFiles<D, N>>>,
    // It is behind a lock, though only a close opens it: so threads share a store of disks that
    // they may not share.
    pub(crate) room: Mutex<Room<D>>,
    ghost all_desks: { vec_len desks ≡ 16 },
    ghost all_files: { vec_len files ≡ 16 },
}

impl<D: Disk, N: Named> Store<D, N> {
    ghost use Rattle.std.specs.Prelude.{◌≡◌, ◌<◌, []};
    ghost use Rattle.std.specs.Sync.Mutex.{mutex_guard_value};
    ghost use Rattle.carbon_history.specs.Entries.{listed};
    ghost use Rattle.shared_store.specs.Passes.{Enters, HasRoom, LooksAgain, SameLooks};
    ghost use Rattle.shared_store.specs.Steps.{AfterPlan, AfterPut, AfterWrite, StepsTo, plan_entry, put_entry, write_entry};
    ghost use Rattle.shared_store.specs.Tallies.{tally_of};

    // The lock of the desk of a class.
    pub(crate) fn lock_class<'a>(
        &'a self,
        rt: &impl Wait,
        class: u32,
    ) -> MutexGuard<'a, ClassDesk<N>>
        requires { class < 16 }
        ensures { (mutex_guard_value result).class ≡ class }
    {
        lock_desk(rt, self.desks.as_slice(), class)
    }

    // The lock of the files of a class. A lock at another place than that of its class, which no store
    // has, would be waited for without end.
    pub(crate) fn lock_files<'a>(
        &'a self,
        rt: &impl Wait,
        class: u32,
    ) -> MutexGuard<'a, ClassFiles<D, N>>
        requires { class < 16 }
        ensures { (mutex_guard_value result).class ≡ class }
    {
        for _ in rt.forever() {
            let files = self.files[class as usize].lock(rt);
            if files.class() == class {
                return files;
            }
        }
        unreachable!()
    }

    /// Puts the point of a metric line: one entry with its outcome, or none where there is no
    /// memory, and then all is as before.
    pub fn put(&self, rt: &impl Wait, pass: &mut StorePass<N>, datum: &Datum) -> Put
        requires room { HasRoom pass.old }
        ensures enters { Enters N.start N.passes
            (listed (put_entry pass.old.number datum.now.path datum.now.time datum.now.value result))
            pass.old pass.new }
        ensures after { AfterPut N.start datum.now.path datum.now.time datum.now.value result pass.new }
        ensures looks { SameLooks pass.old pass.new }
    {
        let mut desk = self.lock_class(rt, datum.path.class());
        desk.put(rt, &self.order, pass, datum)
    }

    /// Begins the drain of the metric of a class that goes next, at the moment `now`, unless one is
    /// being written: one entry where a metric was taken, and one where the disk failed.
    pub fn plan_step(
        &self,
        rt: &impl Wait,
        pass: &mut StorePass<N>,
        class: u32,
        now: u32,
    ) -> Planned
        requires class { class < 16 }
        requires room { HasRoom pass.old }
        ensures enters { Enters N.start N.passes
            (listed (plan_entry pass.old.number class now result)) pass.old pass.new }
        ensures after { AfterPlan N.start class now result pass.old pass.new }
        ensures looks { LooksAgain class pass.old pass.new }
    {
        let mut files = self.lock_files(rt, class);
        files.plan(rt, self.desks.as_slice(), &self.order, pass, now)
    }

    /// Takes the next step of the drain of a class that is being written: one entry where the disk
    /// failed. No memory is taken.
    pub fn write_step(&self, rt: &impl Wait, pass: &mut StorePass<N>, class: u32) -> Wrote
        requires class { class < 16 }
        requires room { HasRoom pass.old }
        ensures enters { Enters N.start N.passes
            (listed (write_entry pass.old.number class result)) pass.old pass.new }
        ensures after { AfterWrite class result pass.old pass.new }
        ensures looks { LooksAgain class pass.old pass.new }
    {
        let mut files = self.lock_files(rt, class);
        files.write(rt, self.desks.as_slice(), &self.order, pass)
    }

    /// One step of draining a class at the moment `now`: the next of the drain that is being written,
    /// or else the begin of one.
    pub fn drain_step(&self, rt: &impl Wait, pass: &mut StorePass<N>, class: u32, now: u32) -> Step
        requires class { class < 16 }
        requires room { HasRoom pass.old }
        ensures steps { StepsTo N.start N.passes class now result pass.old pass.new }
        ensures looks { LooksAgain class pass.old pass.new }
    {
        let mut files = self.lock_files(rt, class);
        files.step(rt, self.desks.as_slice(), &self.order, pass, now)
    }

    /// The counts of all entries of the history so far, which the pass sees.
    pub fn tally(&self, rt: &impl Wait, pass: &mut StorePass<N>) -> Tally
        ensures counts { result ≡ tally_of pass.new.seen }
        ensures enters { Enters N.start N.passes [] pass.old pass.new }
        ensures looks { SameLooks pass.old pass.new }
    {
        self.order.lock(rt).tally(pass)
    }
}
