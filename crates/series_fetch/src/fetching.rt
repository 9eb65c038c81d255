//! The values of a window.
ghost use Rattle.std.specs.Prelude.{◌≡◌, ◌≤◌, ℕ, true, All, IfOk, IsErrOf, length};
ghost use Rattle.outside_io.specs.Frames.{ReadsOnly};
ghost use Rattle.fixed_num.specs.Moment.{is_moment};
ghost use Rattle.point_cache.specs.Points.{IsRising};
ghost use Rattle.ring_archive.specs.Ring.{ReadsAs, Rings};
ghost use Rattle.ring_archive.specs.View.{IsThere, OnRing};
ghost use Rattle.series_fetch.specs.Fetched.{Fetches};
ghost use Rattle.series_fetch.specs.Window.{IsWindow};
ghost use Rattle.series_fetch.specs.Shown.{shown};

use crate::laying::with_pending;
use crate::range::Window;
use fixed_num::Milli;
use outside_io::Disk;
use ring_archive::{RingFault, RingView};
use ring_format::Patch;
use std::alloc::Global;

/// The values of a window's buckets, in order, in thousandths, of the metric whose archives the view and the patch make
/// and whose pending points, in rising time, are `cached`.
///
/// A bucket with pending points shows what they give, whatever its archive holds: in the finest archive the latest of
/// them, and in a coarser one their rollup by the layout's method with all of them known, which is `None` where the
/// exact result does not fit. A bucket without pending points shows what its archive holds. The disk is read at most
/// three times, and not at all for an empty window or under a fresh patch.
///
/// Errors: `DiskFault` where a read failed, and `NoMemory`.
pub fn fetch<D: Disk>(
    alloc: Global,
    view: &RingView<'_>,
    disk: &mut D,
    patch: &Patch,
    window: Window,
    cached: &[(u32, Milli)],
) -> Result<Vec<Option<Milli>>, RingFault>
    requires layout { patch.now.layout ≡ view.now.layout }
    requires window { IsWindow view.now.layout window }
    requires rising { IsRising cached.now }
    requires moments { All (λ p. is_moment p.0 ≡ true) cached.now }
    requires file { IsThere view.now patch.now.fresh (D.image disk.old) }
    ensures fetches { IfOk result (λ values.
        Fetches view.now patch.now (D.image disk.old) cached.now window values.items) }
    ensures unread { patch.now.fresh ≡ true → disk.new ≡ disk.old }
    ensures frame { ReadsOnly D.Disk disk.old disk.new (IsErrOf result RingFault.DiskFault) }
{
    let Window::Range(archive, first, end) = window else {
        return Ok(Vec::new(alloc));
    };
    let step = view.layout.archive(archive).step;
    let (first, end) = (first as u32, end as u32);
    let count = (end - first) / step;
    let values = view.cells(alloc, disk, patch, archive, first, count)?;
    let shown = with_pending(alloc, values, &view.layout, archive, first, step, cached)?;
    Ok(shown)
}
