//! Copies of known paths.
ghost use Rattle.std.specs.Prelude.{IfOk};
ghost use mathlib.Core.List.{IsPrefix};
ghost use Rattle.metric_index.specs.Index.{paths_of};

use metric_path::MetricPath;
use std::alloc::{AllocError, Global};
use std::collections::btree_map::Range;

/// Copies of the first paths of a range, `most` at most.
pub(crate) fn first_of<V: Drop>(
    alloc: Global,
    entries: Range<'_, MetricPath, V>,
    most: usize,
) -> Result<Vec<MetricPath>, AllocError>
    ensures { IfOk result (λ paths. IsPrefix paths.items (paths_of entries.entry)) }
{
    let mut paths = Vec::new(alloc);
    for (path, _) in entries {
        if paths.len() >= most {
            return Ok(paths);
        }
        paths.push(path.copy()?)?;
    }
    Ok(paths)
}
