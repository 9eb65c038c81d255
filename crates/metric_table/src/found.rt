//! What a search finds.
ghost use Rattle.std.specs.Prelude.{◌≡◌, ◌<◌, All, IfOk, length, map};
ghost use Rattle.metric_index.specs.Found.{seen as hit_seen};
ghost use Rattle.metric_table.specs.Numbered.{known_by_all};
ghost use Rattle.metric_table.specs.Table.{seen};

use crate::entry::Entry;
use crate::found_metric::FoundMetric;
use crate::layout_list::LayoutList;
use metric_index::Hit;
use std::alloc::{AllocError, Global};

/// What is known of the metrics of some hits, in their order.
pub(crate) fn metrics_of<'a>(
    alloc: Global,
    layouts: &'a LayoutList,
    hits: &[Hit<'a, Entry>],
) -> Result<Vec<FoundMetric<'a>>, AllocError>
    requires { All (λ hit. hit.entry.now.layout < length layouts.now) hits.now }
    ensures { IfOk result (λ found. map seen found.items
        ≡ known_by_all layouts.now (map hit_seen hits.now)) }
{
    let mut found = Vec::with_capacity(alloc, hits.len())?;
    for hit in hits {
        let layout = layouts.get(hit.entry.layout);
        found.push(FoundMetric {
            path: hit.path,
            layout,
            is_kept: hit.entry.is_kept,
            is_old: hit.entry.is_old,
            drains: hit.entry.drains,
        })?;
    }
    Ok(found)
}
