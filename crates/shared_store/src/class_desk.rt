//! What the lock of a class's desk keeps.
ghost use Rattle.std.specs.Prelude.{◌≡◌, ◌<◌, length};
ghost use Rattle.std.specs.Sync.Mutex.{mutex_guard_value};

use crate::events::put_event;
use crate::named::Named;
use crate::order_desk::OrderDesk;
use crate::store_pass::StorePass;
use class_halves::DeskHalf;
use metric_line::Datum;
use point_cache::Put;
use shard_core::Desk;
use shared_history::Tail;
use std::marker::{Model, PhantomData};
use std::sync::{Mutex, MutexGuard, Wait};

/// The desk of a class, with its pending points, and the entries about the class. No disk is called while
/// its lock is held, but at the last try of a plan.
#[derive(Drop)]
pub(crate) struct ClassDesk<N: Named> {
    pub(crate) desk: Desk,
    pub(crate) tail: Tail,
    pub(crate) half: DeskHalf,
    pub(crate) of: PhantomData<N>,
}

impl<N: Named> Model for ClassDesk<N> {
    ghost use Rattle.shard_core.specs.Halves.{desk_of};
    ghost use Rattle.shared_store.specs.Desks.{DeskValue};
    ghost use Rattle.shared_store.specs.Locks.{KeepsDesk};

    ghost Value = { DeskValue };

    ghost view = { λ d. record { class = d.tail.class; list = d.tail.list } };

    ghost invariant = { λ d. KeepsDesk N.table N.halves N.start (desk_of d.desk) d.half d.tail };
}

impl<N: Named> ClassDesk<N> {
    ghost use Rattle.std.specs.Prelude.{◌≡◌, ℕ};
    ghost use Rattle.metric_path.specs.Class.{class_of};
    ghost use Rattle.carbon_history.specs.Entries.{listed};
    ghost use Rattle.shared_store.specs.Passes.{Enters, HasRoom, SameLooks};
    ghost use Rattle.shared_store.specs.Steps.{AfterPut, put_entry};

    /// The class.
    pub(crate) fn class(&self) -> u32
        ensures { result ≡ self.now.class }
    {
        self.tail.class()
    }

    /// Puts a point of the class.
    pub(crate) fn put(
        &mut self,
        rt: &impl Wait,
        order: &Mutex<OrderDesk<N>>,
        pass: &mut StorePass<N>,
        datum: &Datum,
    ) -> Put
        requires here { class_of datum.now.path ≡ self.old.class }
        requires room { HasRoom pass.old }
        ensures enters { Enters N.start N.passes
            (listed (put_entry pass.old.number datum.now.path datum.now.time datum.now.value result))
            pass.old pass.new }
        ensures after { AfterPut N.start datum.now.path datum.now.time datum.now.value result pass.new }
        ensures looks { SameLooks pass.old pass.new }
        ensures class { self.new.class ≡ self.old.class }
    {
        let put = self.desk.put(datum);
        let event = put_event(put, datum);
        order.lock(rt).tell(pass, &mut self.tail, &event);
        put
    }

    /// Puts a point of the class, where the lock of the order is held.
    pub(crate) fn put_under(
        &mut self,
        order: &mut OrderDesk<N>,
        pass: &mut StorePass<N>,
        datum: &Datum,
    ) -> Put
        requires here { class_of datum.now.path ≡ self.old.class }
        requires room { HasRoom pass.old }
        ensures enters { Enters N.start N.passes
            (listed (put_entry pass.old.number datum.now.path datum.now.time datum.now.value result))
            pass.old pass.new }
        ensures after { AfterPut N.start datum.now.path datum.now.time datum.now.value result pass.new }
        ensures looks { SameLooks pass.old pass.new }
        ensures class { self.new.class ≡ self.old.class }
    {
        let put = self.desk.put(datum);
        let event = put_event(put, datum);
        order.tell(pass, &mut self.tail, &event);
        put
    }
}

/// The lock of the desk of a class. A lock at another place than that of its class, which no store has, would be
/// waited for without end.
pub(crate) fn lock_desk<'a, N: Named>(
    rt: &impl Wait,
    desks: &'a [Mutex<ClassDesk<N>>],
    class: u32,
) -> MutexGuard<'a, ClassDesk<N>>
    requires { class < length desks.now }
    ensures { (mutex_guard_value result).class ≡ class }
{
    for _ in rt.forever() {
        let desk = desks[class as usize].lock(rt);
        if desk.class() == class {
            return desk;
        }
    }
    unreachable!()
}
