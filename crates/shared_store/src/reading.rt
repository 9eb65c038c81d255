//! Reading what a question found.
ghost use Rattle.std.specs.Prelude.{◌≢◌, ◌≤◌, IfOk, length};
ghost use Rattle.series_fetch.specs.Window.{HasBuckets, IsWindow};
ghost use Rattle.series_fetch.specs.declared.range.Window.TheVariants.{Empty};
ghost use Rattle.found_rows.specs.Rows.{most_points};
ghost use Rattle.shared_store.specs.Asking.{EndsAs, IsSeriesOf, buckets_of};

use crate::ask_fault::AskFault;
use crate::bare_reading::values_of_pending;
use crate::class_files::ClassFiles;
use crate::found_set::FoundSet;
use crate::named::Named;
use crate::store::Store;
use crate::store_pass::StorePass;
use crate::try_end::TryEnd;
use carbon_model::Values;
use outside_io::Disk;
use series_fetch::Window;
use series_set::{Series, SeriesRows, SeriesSet, readings};
use shard_core::{LookFault, Looked};
use std::alloc::{AllocError, Global};
use std::sync::{MutexGuard, Wait};

// How a read ended.
fn end_of(read: Result<Values, LookFault>, class: u32) -> Result<Values, TryEnd>
    ensures { EndsAs class read result }
{
    match read {
        Ok(values) => Ok(values),
        Err(LookFault::Moved(_)) => Err(TryEnd::Moved),
        Err(LookFault::DiskFault) => Err(TryEnd::Ended(AskFault::DiskFault(class))),
        Err(LookFault::NoMemory) => Err(TryEnd::Ended(AskFault::NoMemory)),
    }
}

// The series of a metric that was looked at and has these values. Its name is its path.
fn series_of(alloc: Global, looked: &Looked, values: Values) -> Result<Series, AllocError>
    requires some { looked.now.window ≢ Empty }
    requires window { IsWindow looked.now.layout looked.now.window }
    requires count { HasBuckets looked.now.layout looked.now.window (length values) }
    requires few { buckets_of looked.now ≤ most_points }
    ensures { IfOk result (IsSeriesOf looked.now values) }
{
    let Window::Range(i, first, _) = looked.window else {
        unreachable!()
    };
    let step = u64::from(looked.layout.archive(i).step);
    let name = looked.path.as_str().to_string(alloc)?;
    let path = looked.path.as_str().to_string(alloc)?;
    let values = readings(alloc, values.into_vec())?;
    Ok(Series::from_legal(name, path, first, step, values))
}

impl<D: Disk, N: Named> Store<D, N> {
    ghost use Rattle.std.specs.Prelude.{◌≡◌, ◌<◌, ◌≤◌, ◌+◌, ◌^◌, All, IfErr, IfOk, None, Ok, length, vec_len};
    ghost use Rattle.metric_path.specs.Class.{class_of};
    ghost use Rattle.carbon_model.specs.Replay.{replay};
    ghost use Rattle.shared_history.specs.Parts.{own_entries};
    ghost use Rattle.shared_store.specs.Asking.{IsLookAt, IsNoMove, IsShortLook, OnlyLooks, ReadsAll, ReadsOne, ReadsSet, WasDrained};
    ghost use Rattle.shared_store.specs.Held.{AreFilesOf, IsCovered, IsHeld, IsPlaceOf, KeepsFilesHeld};

    // Reads a metric where no lock is held. Where nothing is kept of it, the files of its class are not waited for.
    fn read_free(
        &self,
        rt: &impl Wait,
        alloc: Global,
        pass: &mut StorePass<N>,
        looked: &Looked,
    ) -> Result<Values, TryEnd>
        requires room { length (own_entries pass.old) + 1 ≤ 2 ^ 48 }
        requires look { IsLookAt (replay N.start pass.old.seen) looked.now }
        ensures { ReadsOne N.start N.told N.passes looked.now result pass.old pass.new }
    {
        match self.recall(rt, pass, looked) {
            Ok(Some(_version)) => self.read_files(rt, pass, looked),
            Ok(None) => Ok(values_of_pending(alloc, looked)?),
            Err(_drains) => Err(TryEnd::Moved),
        }
    }

    // The version of what is kept of a metric that was looked at. At `Err` it was drained since.
    fn recall(
        &self,
        rt: &impl Wait,
        pass: &mut StorePass<N>,
        looked: &Looked,
    ) -> Result<Option<u32>, u64>
        requires look { IsLookAt (replay N.start pass.old.seen) looked.now }
        ensures looks { OnlyLooks pass.old pass.new }
        ensures bare { result ≡ Ok None
            → (replay N.start pass.old.seen).kept looked.now.path ≡ None }
        ensures moved { IfErr result (λ _. WasDrained looked.now.path pass.new) }
    {
        let mut desk = self.lock_class(rt, looked.path.class());
        desk.recall(pass, looked)
    }

    // Reads a metric under the lock of the files of its class alone.
    fn read_files(
        &self,
        rt: &impl Wait,
        pass: &mut StorePass<N>,
        looked: &Looked,
    ) -> Result<Values, TryEnd>
        requires room { length (own_entries pass.old) + 1 ≤ 2 ^ 48 }
        requires look { IsLookAt (replay N.start pass.old.seen) looked.now }
        ensures { ReadsOne N.start N.told N.passes looked.now result pass.old pass.new }
    {
        let class = looked.path.class();
        let read = self
            .lock_files(rt, class)
            .read(rt, self.desks.as_slice(), &self.order, pass, looked);
        end_of(read, class)
    }

    // Reads a metric that has not moved: the lock of the files of its class is held since the look, in this place,
    // or nothing was kept of it then.
    fn read_place(
        &self,
        rt: &impl Wait,
        alloc: Global,
        place: &mut Option<MutexGuard<'_, ClassFiles<D, N>>>,
        pass: &mut StorePass<N>,
        looked: &Looked,
    ) -> Result<Values, TryEnd>
        requires room { length (own_entries pass.old) + 1 ≤ 2 ^ 48 }
        requires look { IsLookAt (replay N.start pass.old.seen) looked.now }
        requires place { IsPlaceOf (class_of looked.now.path) pass.old.seen place.old }
        requires bare { place.old ≡ None → (replay N.start pass.old.seen).kept looked.now.path ≡ None }
        ensures reads { ReadsOne N.start N.told N.passes looked.now result pass.old pass.new }
        ensures still { IsNoMove result }
        ensures place { IfOk result (λ values. IsPlaceOf (class_of looked.now.path) pass.old.seen place.new) }
        ensures none { place.new ≡ None → place.old ≡ None }
    {
        let Some(files) = place else {
            return Ok(values_of_pending(alloc, looked)?);
        };
        let read = files.read(rt, self.desks.as_slice(), &self.order, pass, looked);
        end_of(read, looked.path.class())
    }

    // Reads a metric where the locks of the files of all classes that it takes are held since the look.
    fn read_held(
        &self,
        rt: &impl Wait,
        alloc: Global,
        held: &mut Vec<Option<MutexGuard<'_, ClassFiles<D, N>>>>,
        pass: &mut StorePass<N>,
        looked: &Looked,
    ) -> Result<Values, TryEnd>
        requires room { length (own_entries pass.old) + 1 ≤ 2 ^ 48 }
        requires look { IsLookAt (replay N.start pass.old.seen) looked.now }
        requires held { AreFilesOf pass.old.seen held.old.items }
        requires sixteen { vec_len held.old ≡ 16 }
        requires covered { IsCovered (replay N.start pass.old.seen) held.old.items looked.now }
        ensures reads { ReadsOne N.start N.told N.passes looked.now result pass.old pass.new }
        ensures still { IsNoMove result }
        ensures held { IfOk result (λ values. KeepsFilesHeld pass.old.seen held.old.items held.new.items) }
    {
        let place = &mut held[looked.path.class() as usize];
        self.read_place(rt, alloc, place, pass, looked)
    }

    // Reads a metric, under the locks that are held where there are some.
    fn read_one(
        &self,
        rt: &impl Wait,
        alloc: Global,
        held: &mut Vec<Option<MutexGuard<'_, ClassFiles<D, N>>>>,
        pass: &mut StorePass<N>,
        looked: &Looked,
    ) -> Result<Values, TryEnd>
        requires room { length (own_entries pass.old) + 1 ≤ 2 ^ 48 }
        requires look { IsLookAt (replay N.start pass.old.seen) looked.now }
        requires held { IsHeld pass.old.seen held.old.items }
        requires covered { IsCovered (replay N.start pass.old.seen) held.old.items looked.now }
        ensures reads { ReadsOne N.start N.told N.passes looked.now result pass.old pass.new }
        ensures still { 0 < vec_len held.old → IsNoMove result }
        ensures held { IfOk result (λ values. KeepsFilesHeld pass.old.seen held.old.items held.new.items) }
    {
        if held.is_empty() {
            return self.read_free(rt, alloc, pass, looked);
        }
        self.read_held(rt, alloc, held, pass, looked)
    }

    #[tactic(auto, using(crate::proofs::AskPassLemmas::only_itself))]
    // Reads the metrics that a need found.
    fn read_set(
        &self,
        rt: &impl Wait,
        alloc: Global,
        held: &mut Vec<Option<MutexGuard<'_, ClassFiles<D, N>>>>,
        pass: &mut StorePass<N>,
        found: &[Looked],
    ) -> Result<SeriesSet, TryEnd>
        requires room { length (own_entries pass.old) + 1 ≤ 2 ^ 48 }
        requires looks { All (IsShortLook (replay N.start pass.old.seen)) found.now }
        requires held { IsHeld pass.old.seen held.old.items }
        requires covered { All (IsCovered (replay N.start pass.old.seen) held.old.items) found.now }
        ensures reads { ReadsSet N.start N.told N.passes found.now result pass.old pass.new }
        ensures still { 0 < vec_len held.old → IsNoMove result }
        ensures held { IfOk result (λ set. KeepsFilesHeld pass.old.seen held.old.items held.new.items) }
    {
        let mut set = SeriesSet::new(alloc);
        for looked in found {
            let values = self.read_one(rt, alloc, held, pass, looked)?;
            set.push(series_of(alloc, looked, values)?)?;
        }
        Ok(set)
    }

    #[tactic(auto, using(crate::proofs::AskPassLemmas::only_itself))]
    /// Reads the metrics that all needs found.
    pub(crate) fn read_all(
        &self,
        rt: &impl Wait,
        alloc: Global,
        held: &mut Vec<Option<MutexGuard<'_, ClassFiles<D, N>>>>,
        pass: &mut StorePass<N>,
        sets: &[FoundSet],
    ) -> Result<SeriesRows, TryEnd>
        requires room { length (own_entries pass.old) + 1 ≤ 2 ^ 48 }
        requires looks { All (All (IsShortLook (replay N.start pass.old.seen))) sets.now }
        requires held { IsHeld pass.old.seen held.old.items }
        requires covered { All (All (IsCovered (replay N.start pass.old.seen) held.old.items)) sets.now }
        ensures reads { ReadsAll N.start N.told N.passes sets.now result pass.old pass.new }
        ensures still { 0 < vec_len held.old → IsNoMove result }
    {
        let mut rows = SeriesRows::new(alloc);
        for found in sets {
            rows.push(self.read_set(rt, alloc, held, pass, found.as_slice())?)?;
        }
        Ok(rows)
    }
}
