//! Reading a metric of a class that was looked at.
ghost use Rattle.std.specs.Prelude.{◌≡◌, length};

use crate::class_desk::{ClassDesk, lock_desk};
use crate::class_files::ClassFiles;
use crate::named::Named;
use crate::order_desk::OrderDesk;
use crate::store_pass::{StorePass, mark};
use carbon_model::Values;
use class_halves::{meet, renew};
use outside_io::Disk;
use ring_archive::RingFault;
use shard_core::{LookFault, Looked};
use shared_history::Event;
use std::sync::{Mutex, Wait};

impl<D: Disk, N: Named> ClassFiles<D, N> {
    ghost use Rattle.std.specs.Prelude.{◌≡◌, ◌≤◌, ◌+◌, ◌^◌, length};
    ghost use Rattle.metric_path.specs.Class.{class_of};
    ghost use Rattle.carbon_history.specs.Entries.{about_class};
    ghost use Rattle.carbon_model.specs.Replay.{replay};
    ghost use Rattle.shared_history.specs.Parts.{own_entries};
    ghost use Rattle.shared_store.specs.Asking.{HasNotMoved, IsLookAt, ReadsAt, ReadsWell};
    ghost use Rattle.shared_store.specs.Locks.{OnlyPuts};

    /// Reads a metric of the class that was looked at when the pass had seen what it sees now. The desk is
    /// locked to learn whether the metric was drained meanwhile, and given back before a file is read. A disk
    /// that fails is entered.
    pub(crate) fn read(
        &mut self,
        rt: &impl Wait,
        desks: &[Mutex<ClassDesk<N>>],
        order: &Mutex<OrderDesk<N>>,
        pass: &mut StorePass<N>,
        looked: &Looked,
    ) -> Result<Values, LookFault>
        requires here { class_of looked.now.path ≡ self.old.class }
        requires sixteen { length desks.now ≡ 16 }
        requires room { length (own_entries pass.old) + 1 ≤ 2 ^ 48 }
        requires look { IsLookAt (replay N.start pass.old.seen) looked.now }
        ensures reads { ReadsAt N.start N.told N.passes looked.now result pass.old pass.new }
        ensures still { OnlyPuts self.old.list (about_class self.old.class pass.old.seen)
            → HasNotMoved result }
        ensures same { ReadsWell result → self.new ≡ self.old }
        ensures class { self.new.class ≡ self.old.class }
    {
        let mut guard = lock_desk(rt, desks, self.files.class());
        let desk = &mut *guard;
        meet(&mut desk.half, &mut self.half);
        mark(&mut desk.tail, pass);
        let recalled = desk.desk.recall(looked);
        drop(guard);
        let kept = match recalled {
            Ok(kept) => kept,
            Err(drains) => return Err(LookFault::Moved(drains)),
        };
        match self.files.fetch_looked(looked, kept) {
            Ok(values) => return Ok(values),
            Err(RingFault::NoMemory) => return Err(LookFault::NoMemory),
            Err(RingFault::DiskFault) => {}
        }
        let mut guard = lock_desk(rt, desks, self.files.class());
        let desk = &mut *guard;
        meet(&mut desk.half, &mut self.half);
        order
            .lock(rt)
            .tell(pass, &mut desk.tail, &Some(Event::Fault));
        renew(&mut desk.half, &mut self.half, &desk.tail);
        Err(LookFault::DiskFault)
    }
}
