//! Whether the next drain of a class makes a ring file.
ghost use Rattle.std.specs.Prelude.{◌≡◌, ◌||◌, not};

use crate::class_desk::ClassDesk;
use crate::named::Named;
use crate::order_desk::OrderDesk;
use crate::store::Store;
use crate::store_pass::StorePass;
use metric_table::Known;
use outside_io::Disk;
use std::sync::{Mutex, Wait};

// Whether there is no ring file of version 2 of a metric.
fn lacks_file(known: &Known) -> bool
    ensures { result ≡ (not known.now.is_kept || known.now.is_old) }
{
    !known.is_kept || known.is_old
}

impl<N: Named> ClassDesk<N> {
    ghost use Rattle.std.specs.Prelude.{◌≡◌, true, []};
    ghost use Rattle.carbon_model.specs.Replay.{replay};
    ghost use Rattle.shared_store.specs.Passes.{Enters, SameLooks};
    ghost use Rattle.shared_store.specs.Steps.{MakesFileNext};

    /// Whether nothing is kept in version 2 of the metric that goes next, in all that the pass sees from now
    /// on. Nothing pending and want of memory count as no.
    pub(crate) fn next_is_new(
        &mut self,
        rt: &impl Wait,
        order: &Mutex<OrderDesk<N>>,
        pass: &mut StorePass<N>,
    ) -> bool
        ensures makes { result ≡ true
            → MakesFileNext (replay N.start pass.new.seen) self.old.class }
        ensures enters { Enters N.start N.passes [] pass.old pass.new }
        ensures looks { SameLooks pass.old pass.new }
    {
        order.lock(rt).see(pass, &mut self.tail);
        let Ok(Some(metric)) = self.desk.next() else {
            return false;
        };
        // Every path is legal.
        let _ = metric.path.text();
        lacks_file(&metric.known)
    }
}

impl<D: Disk, N: Named> Store<D, N> {
    ghost use Rattle.std.specs.Prelude.{◌≡◌, ◌<◌, true, []};
    ghost use Rattle.carbon_model.specs.Replay.{replay};
    ghost use Rattle.shared_store.specs.Passes.{Enters, SameLooks};
    ghost use Rattle.shared_store.specs.Steps.{MakesFileNext};

    /// Whether the drain of a class that would begin now makes a ring file: the metric that goes next has
    /// none, or one of version 1 that is made anew, in all that the pass sees from now on. A drain that is
    /// being written, nothing pending and want of memory count as no. No disk is called, and the files of
    /// the class are waited for.
    pub fn makes_file_next(&self, rt: &impl Wait, pass: &mut StorePass<N>, class: u32) -> bool
        requires class { class < 16 }
        ensures makes { result ≡ true → MakesFileNext (replay N.start pass.new.seen) class }
        ensures enters { Enters N.start N.passes [] pass.old pass.new }
        ensures looks { SameLooks pass.old pass.new }
    {
        self.next_is_new(rt, pass, class) && !self.is_writing(rt, class)
    }

    // Whether nothing is kept in version 2 of the metric of a class that goes next.
    fn next_is_new(&self, rt: &impl Wait, pass: &mut StorePass<N>, class: u32) -> bool
        requires class { class < 16 }
        ensures makes { result ≡ true → MakesFileNext (replay N.start pass.new.seen) class }
        ensures enters { Enters N.start N.passes [] pass.old pass.new }
        ensures looks { SameLooks pass.old pass.new }
    {
        let mut desk = self.lock_class(rt, class);
        desk.next_is_new(rt, &self.order, pass)
    }

    // Whether a drain of a class is being written. The lock of the desk is not held, before which that of
    // the files is taken.
    fn is_writing(&self, rt: &impl Wait, class: u32) -> bool
        requires { class < 16 }
    {
        self.lock_files(rt, class).shelved()
    }
}
