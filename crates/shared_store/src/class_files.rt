//! What the lock of a class's files keeps.
ghost use Rattle.std.specs.Prelude.{◌≡◌, length};

use crate::class_desk::{ClassDesk, lock_desk};
use crate::events::write_event;
use crate::named::Named;
use crate::order_desk::OrderDesk;
use crate::runs::count_run;
use crate::store_pass::{StorePass, mark};
use class_halves::{FilesHalf, meet, renew};
use outside_io::Disk;
use shard_core::{Files, Wrote};
use std::marker::{Model, PhantomData};
use std::sync::{Mutex, Wait};

/// The files of a class: its disk, and the drain that is being written. Its lock is taken before that of the
/// class's desk, and a disk is called under it, alone but for the last try of a plan.
#[derive(Drop)]
pub(crate) struct ClassFiles<D: Disk, N: Named> {
    pub(crate) files: Files<D>,
    pub(crate) half: FilesHalf,
    pub(crate) of: PhantomData<N>,
}

impl<D: Disk, N: Named> Model for ClassFiles<D, N> {
    ghost use Rattle.std.specs.Prelude.{is_some};
    ghost use Rattle.shard_core.specs.Halves.{files_of};
    ghost use Rattle.shared_store.specs.Locks.{FilesValue, KeepsFiles};

    ghost Value = { FilesValue };

    ghost view = { λ f. record {
      class = f.files.class;
      list = f.half.stand.list;
      shelved = is_some f.files.work.shelf;
    } };

    ghost invariant = { λ f. KeepsFiles N.halves N.told N.start N.faults (files_of f.files)
        (D.faults f.files.disk) f.half };
}

impl<D: Disk, N: Named> ClassFiles<D, N> {
    ghost use Rattle.std.specs.Prelude.{◌≡◌, false, length};
    ghost use Rattle.carbon_history.specs.Entries.{listed};
    ghost use Rattle.shared_store.specs.Locks.{OnlyPuts};
    ghost use Rattle.shared_store.specs.Passes.{Enters, HasRoom, LooksAgain};
    ghost use Rattle.shared_store.specs.Steps.{AfterWrite, write_entry};

    /// The class.
    pub(crate) fn class(&self) -> u32
        ensures { result ≡ self.now.class }
    {
        self.files.class()
    }

    /// Whether a drain is being written.
    pub(crate) fn shelved(&self) -> bool
        ensures { result ≡ self.now.shelved }
    {
        self.files.shelved()
    }

    /// Both locks are held: since they last were the desk did no more than a desk does alone.
    pub(crate) fn meet(&mut self, desk: &mut ClassDesk<N>)
        requires class { desk.old.class ≡ self.old.class }
        ensures since { OnlyPuts self.old.list desk.old.list }
        ensures files { self.new ≡ self.old }
        ensures desk { desk.new ≡ desk.old }
    {
        meet(&mut desk.half, &mut self.half);
    }

    /// Takes the next step of the drain that is being written, under the lock of the files alone. The desk is
    /// locked for the count of it. The pass looks before and after that, so that it sees its own step.
    pub(crate) fn write(
        &mut self,
        rt: &impl Wait,
        desks: &[Mutex<ClassDesk<N>>],
        order: &Mutex<OrderDesk<N>>,
        pass: &mut StorePass<N>,
    ) -> Wrote
        requires sixteen { length desks.now ≡ 16 }
        requires room { HasRoom pass.old }
        ensures enters { Enters N.start N.passes
            (listed (write_entry pass.old.number self.old.class result)) pass.old pass.new }
        ensures after { AfterWrite self.old.class result pass.old pass.new }
        ensures nothing { result ≡ Wrote.Nothing → self.old.shelved ≡ false }
        ensures looks { LooksAgain self.old.class pass.old pass.new }
        ensures class { self.new.class ≡ self.old.class }
    {
        let wrote = self.files.write_next();
        let mut guard = lock_desk(rt, desks, self.files.class());
        let desk = &mut *guard;
        meet(&mut desk.half, &mut self.half);
        mark(&mut desk.tail, pass);
        count_run(&mut desk.tail, wrote);
        order
            .lock(rt)
            .tell(pass, &mut desk.tail, &write_event(wrote));
        renew(&mut desk.half, &mut self.half, &desk.tail);
        mark(&mut desk.tail, pass);
        wrote
    }
}
