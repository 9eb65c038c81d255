//! What a question does under the lock of a class, and under that of the order.
use crate::class_desk::ClassDesk;
use crate::named::Named;
use crate::order_desk::OrderDesk;
use crate::store_pass::{StorePass, enter_ask, mark, see};
use crate::wanted::Wanted;
use shard_core::{FoundMetric, Looked};
use shared_history::agree;
use std::alloc::AllocError;

impl<N: Named> ClassDesk<N> {
    ghost use Rattle.std.specs.Prelude.{◌≡◌, ◌≤◌, All, IfErr, IfOk, None, Ok, false};
    ghost use Rattle.metric_index.specs.Found.{IsFitted};
    ghost use Rattle.metric_path.specs.Class.{class_of};
    ghost use Rattle.path_glob.specs.Faults.{Said};
    ghost use Rattle.carbon_history.specs.Entries.{about_class};
    ghost use Rattle.carbon_model.specs.Replay.{replay};
    ghost use Rattle.shard_core.specs.Looks.{FindsFor, Looks};
    ghost use Rattle.shared_store.specs.Asking.{IsLookAt, IsReadable, MarksClass, OnlyLooks, WasDrained};
    ghost use Rattle.shared_store.specs.Known.{KnowsHere};

    /// The entries of the class are those that the history has about it. Nothing changes.
    pub(crate) fn agree(&mut self, order: &mut OrderDesk<N>)
        ensures agree { self.old.list ≡ about_class self.old.class order.old }
        ensures desk { self.new ≡ self.old }
        ensures order { order.new ≡ order.old }
    {
        agree(&mut order.order, &mut self.tail);
    }

    /// The pass looks at the class.
    pub(crate) fn mark(&mut self, pass: &mut StorePass<N>)
        ensures marks { MarksClass self.old.class self.old.list pass.old pass.new }
        ensures desk { self.new ≡ self.old }
    {
        mark(&mut self.tail, pass);
    }

    /// The version of what is kept of a metric of the class that was looked at when the pass had seen what it
    /// sees now, `None` where nothing is. At `Err` it was drained since. The pass looks at the class.
    pub(crate) fn recall(
        &mut self,
        pass: &mut StorePass<N>,
        looked: &Looked,
    ) -> Result<Option<u32>, u64>
        requires here { class_of looked.now.path ≡ self.old.class }
        requires look { IsLookAt (replay N.start pass.old.seen) looked.now }
        ensures looks { OnlyLooks pass.old pass.new }
        ensures bare { result ≡ Ok None
            → (replay N.start pass.old.seen).kept looked.now.path ≡ None }
        ensures moved { IfErr result (λ _. WasDrained looked.now.path pass.new) }
        ensures desk { self.new ≡ self.old }
    {
        mark(&mut self.tail, pass);
        self.desk.recall(looked)
    }

    /// Whether something is kept of a metric of the class that was looked at.
    pub(crate) fn keeps(&self, looked: &Looked) -> bool
        requires here { class_of looked.now.path ≡ self.now.class }
        requires look { IsLookAt (replay N.start self.now.list) looked.now }
        ensures bare { result ≡ false → (replay N.start self.now.list).kept looked.now.path ≡ None }
    {
        match self.desk.recall(looked) {
            Ok(None) => return false,
            _ => return true,
        }
    }

    /// The known metrics of the class that a need's glob fits, in byte order of their paths.
    pub(crate) fn find<'a>(
        &'a self,
        wanted: &'a Wanted<'_>,
    ) -> Result<Vec<FoundMetric<'a>>, AllocError>
        requires known { KnowsHere N.start self.now wanted.now.names }
        ensures { IfOk result (λ found. FindsFor self.now.class (replay N.start self.now.list)
            (IsFitted wanted.now.need.glob) found.items) }
    {
        self.desk.find_again(wanted.searched(self.class()))
    }

    /// What there is to say of those of these metrics of which a question has buckets, which its glob found, in byte
    /// order of their paths. The disk is not read.
    pub(crate) fn look_at(
        &self,
        found: &[FoundMetric<'_>],
        from: u64,
        until: u64,
        now: u32,
    ) -> Result<Vec<Looked>, AllocError>
        requires order { from ≤ until }
        requires now { now ≤ 4_000_000_000 }
        ensures looks { IfOk result (λ looked. (glob : Said)
            → FindsFor self.now.class (replay N.start self.now.list) (IsFitted glob) found.now
            → Looks self.now.class (replay N.start self.now.list) (IsFitted glob) now from until
            looked.items) }
        ensures readable { IfOk result (λ looked. All IsReadable looked.items) }
    {
        self.desk.look_at(found, from, until, u64::from(now))
    }
}

impl<N: Named> OrderDesk<N> {
    ghost use Rattle.std.specs.Prelude.{◌≡◌, []};
    ghost use Rattle.shared_history.specs.Events.{MayAsk, ask_by};
    ghost use Rattle.shared_store.specs.Asking.{EntersTry};
    ghost use Rattle.shared_store.specs.Passes.{Enters, SameLooks};

    /// The pass sees the whole history.
    pub(crate) fn see_all(&mut self, pass: &mut StorePass<N>)
        ensures enters { Enters N.start N.passes [] pass.old pass.new }
        ensures seen { pass.new.seen ≡ self.old }
        ensures looks { SameLooks pass.old pass.new }
    {
        see(&mut self.order, pass);
    }

    /// Enters a try of a question of the pass.
    pub(crate) fn enter_try(&mut self, pass: &mut StorePass<N>, attempt: u32, now: u32)
        requires may { MayAsk pass.old attempt }
        ensures { EntersTry N.start N.passes self.old (ask_by pass.old attempt now) pass.old pass.new }
    {
        enter_ask(&mut self.order, pass, attempt, u64::from(now));
    }
}
