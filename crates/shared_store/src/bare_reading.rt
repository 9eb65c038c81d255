//! Reading a metric of which nothing is kept.
ghost use Rattle.std.specs.Prelude.{IfOk};
ghost use Rattle.shared_store.specs.Asking.{IsReadable, ShowsBare};

use carbon_model::Values;
use outside_io::MemDisk;
use ring_archive::RingView;
use ring_format::{Patch, VERSION};
use series_fetch::fetch;
use shard_core::Looked;
use std::alloc::{AllocError, Global};

/// What the pending points show of a metric that was looked at, where nothing is kept of it. No file is read: a file that
/// is yet to be made, on a disk without files, stands for it.
pub(crate) fn values_of_pending(alloc: Global, looked: &Looked) -> Result<Values, AllocError>
    requires { IsReadable looked.now }
    ensures { IfOk result (ShowsBare looked.now) }
{
    let patch = Patch::new(alloc, looked.path.copy()?, looked.layout, true);
    let view = RingView::new("", looked.layout, VERSION);
    let mut empty = MemDisk::new(alloc, 0);
    let pending = looked.pending.list();
    match fetch(alloc, &view, &mut empty, &patch, looked.window, pending) {
        Ok(values) => Ok(Values::new(values)),
        Err(_) => Err(AllocError),
    }
}
