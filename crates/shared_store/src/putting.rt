//! The points of a piece, put under the locks of their classes.
ghost use Rattle.std.specs.Prelude.{◌≡◌, ◌<◌, IfOk, vec_len};
ghost use Rattle.metric_path.specs.Class.{class_of};
ghost use Rattle.carbon_history.specs.Entries.{listed};
ghost use Rattle.shared_store.specs.Passes.{Enters, HasRoom, SameLooks};
ghost use Rattle.shared_store.specs.Pieces.{HasRoomFor, HoldsClass, HoldsClasses, IsDesk, KeepsHeld, PutsFirst, classes_in};
ghost use Rattle.shared_store.specs.Steps.{AfterPut, put_entry};

use crate::class_desk::ClassDesk;
use crate::named::Named;
use crate::order_desk::OrderDesk;
use crate::put_counts::PutCounts;
use crate::store::Store;
use crate::store_pass::StorePass;
use metric_line::Datum;
use outside_io::Disk;
use point_cache::Put;
use std::alloc::{AllocError, Global};
use std::sync::{MutexGuard, Wait};

// The classes of points, for which their paths are hashed.
fn classes_of(alloc: Global, points: &[Datum]) -> Result<Vec<u32>, AllocError>
    ensures { IfOk result (λ classes. classes.items ≡ classes_in points.now) }
{
    points.iter().map(|datum| datum.path.class()).collect(alloc)
}

// Puts a point of a class, where its lock and that of the order are held.
fn put_here<N: Named>(
    desk: &mut Option<MutexGuard<'_, ClassDesk<N>>>,
    order: &mut OrderDesk<N>,
    pass: &mut StorePass<N>,
    datum: &Datum,
) -> Put
    requires desk { IsDesk (class_of datum.now.path) desk.old }
    requires room { HasRoom pass.old }
    ensures enters { Enters N.start N.passes
        (listed (put_entry pass.old.number datum.now.path datum.now.time datum.now.value result))
        pass.old pass.new }
    ensures after { AfterPut N.start datum.now.path datum.now.time datum.now.value result pass.new }
    ensures looks { SameLooks pass.old pass.new }
    ensures desk { IsDesk (class_of datum.now.path) desk.new }
{
    let Some(desk) = desk else { unreachable!() };
    desk.put_under(order, pass, datum)
}

// Puts a point of a class, whose lock is held in the class's place.
fn put_held<N: Named>(
    desks: &mut Vec<Option<MutexGuard<'_, ClassDesk<N>>>>,
    order: &mut OrderDesk<N>,
    pass: &mut StorePass<N>,
    datum: &Datum,
    class: u32,
) -> Put
    requires desks { (vec_len desks.old ≡ 16) × HoldsClass class desks.old.items }
    requires class { (class < 16) × (class_of datum.now.path ≡ class) }
    requires room { HasRoom pass.old }
    ensures enters { Enters N.start N.passes
        (listed (put_entry pass.old.number datum.now.path datum.now.time datum.now.value result))
        pass.old pass.new }
    ensures after { AfterPut N.start datum.now.path datum.now.time datum.now.value result pass.new }
    ensures looks { SameLooks pass.old pass.new }
    ensures desks { (vec_len desks.new ≡ 16) × KeepsHeld desks.old.items desks.new.items }
{
    let desk = &mut desks[class as usize];
    put_here(desk, order, pass, datum)
}

// Puts points of these classes in order, up to the first for which there is no memory.
fn put_each<N: Named>(
    desks: &mut Vec<Option<MutexGuard<'_, ClassDesk<N>>>>,
    order: &mut OrderDesk<N>,
    pass: &mut StorePass<N>,
    points: &[Datum],
    classes: &[u32],
) -> PutCounts
    requires sixteen { vec_len desks.old ≡ 16 }
    requires held { HoldsClasses classes.now desks.old.items }
    requires classes { classes.now ≡ classes_in points.now }
    requires room { HasRoomFor points.now pass.old }
    ensures puts { PutsFirst N.start N.passes points.now result pass.old pass.new }
    ensures looks { SameLooks pass.old pass.new }
{
    order.see_all(pass);
    let mut counts = PutCounts::new();
    for (i, datum) in points.iter().enumerate() {
        let put = put_held(desks, order, pass, datum, classes[i]);
        if !counts.count(put) {
            return counts;
        }
    }
    counts
}

impl<D: Disk, N: Named> Store<D, N> {
    ghost use Rattle.std.specs.Prelude.{◌≡◌, ◌<◌, ◌⊎◌, IfOk, true, vec_len};
    ghost use Rattle.shared_store.specs.Passes.{SameLooks};
    ghost use Rattle.shared_store.specs.Pieces.{HasRoomFor, HoldsClasses, IsDesk, PutsFirst, PutsNone, is_among};

    // The lock of a class, where it is one of these.
    fn lock_among<'a>(
        &'a self,
        rt: &impl Wait,
        classes: &[u32],
        class: u32,
    ) -> Option<MutexGuard<'a, ClassDesk<N>>>
        requires { class < 16 }
        ensures { is_among class classes.now ≡ true → IsDesk class result }
    {
        if !classes.contains(&class) {
            return None;
        }
        Some(self.lock_class(rt, class))
    }

    // The locks of these classes, taken in order, each in the place of its class.
    fn lock_some<'a>(
        &'a self,
        rt: &impl Wait,
        alloc: Global,
        classes: &[u32],
    ) -> Result<Vec<Option<MutexGuard<'a, ClassDesk<N>>>>, AllocError>
        ensures sixteen { IfOk result (λ desks. vec_len desks ≡ 16) }
        ensures held { IfOk result (λ desks. HoldsClasses classes.now desks.items) }
    {
        let mut desks = Vec::with_capacity(alloc, 16)?;
        for class in 0..16 {
            desks.push(self.lock_among(rt, classes, class))?;
        }
        Ok(desks)
    }

    // No point is put, and the pass sees the whole history.
    fn put_none(&self, rt: &impl Wait, pass: &mut StorePass<N>) -> PutCounts
        ensures puts { PutsNone N.start N.passes result pass.old pass.new }
        ensures looks { SameLooks pass.old pass.new }
    {
        self.order.lock(rt).see_all(pass);
        PutCounts::new()
    }

    /// Puts the points of a piece in order, under the locks of their classes and that of the order,
    /// which are taken once: one entry for each point, with its outcome. Their classes are found
    /// before, and no other class is locked. Want of memory ends it, and what was put before stays.
    pub fn put_all(
        &self,
        rt: &impl Wait,
        alloc: Global,
        pass: &mut StorePass<N>,
        points: &[Datum],
    ) -> PutCounts
        requires room { HasRoomFor points.now pass.old }
        ensures puts { PutsFirst N.start N.passes points.now result pass.old pass.new
            ⊎ PutsNone N.start N.passes result pass.old pass.new }
        ensures looks { SameLooks pass.old pass.new }
    {
        let Ok(classes) = classes_of(alloc, points) else {
            return self.put_none(rt, pass);
        };
        let Ok(mut desks) = self.lock_some(rt, alloc, classes.as_slice()) else {
            return self.put_none(rt, pass);
        };
        let mut guard = self.order.lock(rt);
        let order = &mut *guard;
        put_each(&mut desks, order, pass, points, classes.as_slice())
    }
}
