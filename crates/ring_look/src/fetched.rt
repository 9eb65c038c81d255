//! What a ring file shows.
ghost use Rattle.std.specs.Prelude.{IfOk, IsErrOf, false};
ghost use Rattle.outside_io.specs.Frames.{ReadsOnly};
ghost use Rattle.ring_archive.specs.View.{IsThere};
ghost use Rattle.series_fetch.specs.Window.{IsWindow};
ghost use Rattle.ring_look.specs.Fetched.{FetchesFile};

use fixed_num::Milli;
use metric_path::MetricPath;
use outside_io::Disk;
use ring_archive::{RingFault, RingView};
use ring_format::Patch;
use series_fetch::{Window, fetch};
use std::alloc::Global;

/// The values that the file of a path shows in the buckets of a window, in order. The disk is read at most three times.
pub fn fetch_file<D: Disk>(
    alloc: Global,
    disk: &mut D,
    view: &RingView<'_>,
    path: MetricPath,
    window: Window,
) -> Result<Vec<Option<Milli>>, RingFault>
    requires window { IsWindow view.now.layout window }
    requires file { IsThere view.now false (D.image disk.old) }
    ensures values { IfOk result
        (λ values. FetchesFile (D.image disk.old) view.now.name.now path view.now.layout
        window values.items) }
    ensures frame { ReadsOnly D.Disk disk.old disk.new (IsErrOf result RingFault.DiskFault) }
{
    let patch = Patch::new(alloc, path, view.layout, false);
    match fetch(alloc, view, disk, &patch, window, &[]) {
        Ok(values) => return Ok(values),
        Err(fault) => return Err(fault),
    }
}
