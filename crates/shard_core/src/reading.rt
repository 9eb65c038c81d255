//! Reading a metric that was looked at.
ghost use Rattle.std.specs.Prelude.{◌≡◌, ℕ, true, false, All, IfOk, IsErrOf, option_map};
ghost use Rattle.outside_io.specs.Frames.{ReadsOnly};
ghost use Rattle.metric_path.specs.FileName.{file_name_of};
ghost use Rattle.fixed_num.specs.Moment.{is_moment};
ghost use Rattle.ring_format.specs.Cell.{IsVersion};
ghost use Rattle.ring_archive.specs.Ring.{IsRingFileIn, OnFile, ReadsAs, Rings, UnderPatch};
ghost use Rattle.series_fetch.specs.Shown.{shown};
ghost use Rattle.series_fetch.specs.Window.{IsWindow};
ghost use Rattle.shard_core.specs.Reads.{ShowsPending, patch_for};

use crate::desk::Desk;
use crate::files::Files;
use crate::looked::Looked;
use crate::work::Work;
use carbon_model::Values;
use fixed_num::Milli;
use metric_path::MetricPath;
use outside_io::Disk;
use ring_archive::{RingFault, RingView};
use ring_format::{Patch, VERSION};
use series_fetch::fetch;
use std::alloc::Global;

impl Desk {
    ghost use Rattle.std.specs.Prelude.{◌≡◌, ◌≢◌, IfErr, IfOk, IsSomeAnd};
    ghost use Rattle.metric_index.specs.Index.{entry_of};
    ghost use Rattle.shard_core.specs.Reads.{IsKept};
    ghost use Rattle.shard_core.specs.Table.{drains_in};

    /// The version of what is kept of a metric that was looked at, `None` where nothing is. At
    /// `Err` it was drained since, and so often in all.
    pub fn recall(&self, looked: &Looked) -> Result<Option<u32>, u64>
        requires { IsSomeAnd (entry_of self.now.table looked.now.path)
            (λ known. known.layout ≡ looked.now.layout) }
        ensures same { IfOk result
            (λ _. drains_in self.now.table looked.now.path ≡ looked.now.drains) }
        ensures kept { IfOk result (IsKept self.now.table looked.now.path) }
        ensures moved { IfErr result
            (λ drains. (drains_in self.now.table looked.now.path ≡ drains)
            × (drains ≢ looked.now.drains)) }
    {
        let Some(known) = self.table.get(&looked.path) else {
            unreachable!()
        };
        if known.drains != looked.drains {
            return Err(known.drains);
        }
        Ok(known.kept_version())
    }
}

impl<D: Disk> Files<D> {
    ghost use Rattle.std.specs.Prelude.{◌≡◌, None, IfOk, IsErrOf};
    ghost use Rattle.outside_io.specs.Frames.{ReadsOnly};
    ghost use Rattle.shard_core.specs.Halves.{DeskInside, both, files_of};
    ghost use Rattle.shard_core.specs.Reads.{MayBeFetched, MayFetch, Shows};
    ghost use Rattle.shard_core.specs.Table.{kept_form};

    /// The values of a metric that was looked at, of which the desk says what is kept:
    /// the looked points over what is kept, which is its file, read through the patch that is being
    /// written where that is the metric's. A metric of which nothing is kept reads no disk.
    pub fn fetch_looked(&mut self, looked: &Looked, kept: Option<u32>) -> Result<Values, RingFault>
        requires { MayBeFetched (files_of self.old) looked.now kept }
        ensures shows { IfOk result (λ values. (desk : DeskInside)
            → MayFetch desk (files_of self.old) looked.now kept
            → Shows (both desk (files_of self.old)) looked.now values) }
        ensures unread { (desk : DeskInside) → MayFetch desk (files_of self.old) looked.now kept
            → kept_form desk.table looked.now.path ≡ None → self.new.disk ≡ self.old.disk }
        ensures same { files_of self.new ≡ files_of self.old }
        ensures frame { ReadsOnly D.Disk self.old.disk self.new.disk
            (IsErrOf result RingFault.DiskFault) }
    {
        match self.fetch_values(looked, kept) {
            Ok(values) => Ok(Values::new(values)),
            Err(fault) => Err(fault),
        }
    }

    // The same as a list.
    fn fetch_values(
        &mut self,
        looked: &Looked,
        kept: Option<u32>,
    ) -> Result<Vec<Option<Milli>>, RingFault>
        requires { MayBeFetched (files_of self.old) looked.now kept }
        ensures shows { IfOk result (λ values. (desk : DeskInside)
            → MayFetch desk (files_of self.old) looked.now kept
            → Shows (both desk (files_of self.old)) looked.now values.items) }
        ensures unread { (desk : DeskInside) → MayFetch desk (files_of self.old) looked.now kept
            → kept_form desk.table looked.now.path ≡ None → self.new.disk ≡ self.old.disk }
        ensures same { files_of self.new ≡ files_of self.old }
        ensures frame { ReadsOnly D.Disk self.old.disk self.new.disk
            (IsErrOf result RingFault.DiskFault) }
    {
        // A path is legal.
        let _ = looked.path.text();
        match patch_for(&self.work, &looked.path) {
            Some(patch) => fetch_under(self.alloc, &mut self.disk, patch, looked, VERSION),
            None => {
                let path = looked.path.copy()?;
                let patch = Patch::new(self.alloc, path, looked.layout, kept.is_none());
                let version = kept.unwrap_or(VERSION);
                fetch_under(self.alloc, &mut self.disk, &patch, looked, version)
            }
        }
    }
}

// The patch that is being written, where it is that of a path.
fn patch_for<'a>(work: &'a Work, path: &MetricPath) -> Option<&'a Patch>
    ensures { option_map (λ patch. patch.now) result ≡ patch_for work.now.shelf path.now }
{
    let patch = work.patch()?;
    if patch.path() == path {
        return Some(patch);
    }
    None
}

// The values of a metric that was looked at, whose file is read through a patch.
fn fetch_under<D: Disk>(
    alloc: Global,
    disk: &mut D,
    patch: &Patch,
    looked: &Looked,
    version: u32,
) -> Result<Vec<Option<Milli>>, RingFault>
    requires version { IsVersion version }
    requires layout { patch.now.layout ≡ looked.now.layout }
    requires window { IsWindow looked.now.layout looked.now.window }
    requires moments { All (λ p. is_moment p.0 ≡ true) looked.now.pending }
    requires file { patch.now.fresh ≡ false
        → OnFile (D.image disk.old) (file_name_of looked.now.path)
        (IsRingFileIn version looked.now.layout) }
    ensures pending { IfOk result
        (λ values. ShowsPending looked.now.layout looked.now.pending looked.now.window
        values.items) }
    ensures told { IfOk result
        (λ values. UnderPatch patch.now.fresh (D.image disk.old) (file_name_of looked.now.path)
        (λ file. (rings : Rings) → ReadsAs patch.now file rings
        → values.items ≡ shown looked.now.layout rings looked.now.pending looked.now.window)) }
    ensures unread { patch.now.fresh ≡ true → disk.new ≡ disk.old }
    ensures frame { ReadsOnly D.Disk disk.old disk.new (IsErrOf result RingFault.DiskFault) }
{
    let name = looked.path.file_name()?;
    let view = RingView::new(&name, looked.layout, version);
    fetch(
        alloc,
        &view,
        disk,
        patch,
        looked.window,
        looked.pending.list(),
    )
}
