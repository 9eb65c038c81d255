//! Series that are grouped by parts of their paths.

use crate::combining::read_combine;
use crate::early::are_combinable;
use crate::notation::{set_at, write_found};
use crate::room::plenty;
use case_lines::{Case, Told, push_item, read_small_signed};
use series_funcs::{NodeNumbers, Regroup, regroup};
use series_set::SeriesSet;
use std::alloc::Global;

/// `regroup SET FUNCTION ARGUMENT..`: the series of its groups, or why there are none. `groupByNode` has a node's number and how a group is
/// combined, `sumSeriesWithWildcards` and `averageSeriesWithWildcards` have numbers of nodes.
pub fn tell_groups(alloc: Global, told: &mut Told, case: &Case) {
    let set = set_at(alloc, case, 0, told);
    if let Some(kind) = read_regroup(alloc, case, told) {
        write_groups(alloc, told, &kind, &set);
    }
}

fn write_groups(alloc: Global, told: &mut Told, kind: &Regroup, set: &SeriesSet) {
    if !are_combinable(set.as_slice()) {
        return told.malformed();
    }
    write_found(told, regroup(alloc, kind, set, &mut plenty()));
}

fn read_regroup(alloc: Global, case: &Case, told: &mut Told) -> Option<Regroup> {
    match case.text_at(1, told) {
        "groupByNode" => Some(Regroup::GroupByNode {
            node: read_small_signed(case.text_at(2, told), told),
            combine: read_combine(case.text_at(3, told), told),
        }),
        "sumSeriesWithWildcards" => Some(Regroup::SumSeriesWithWildcards {
            nodes: nodes_from(alloc, case, 2, told),
        }),
        "averageSeriesWithWildcards" => Some(Regroup::AverageSeriesWithWildcards {
            nodes: nodes_from(alloc, case, 2, told),
        }),
        _ => {
            told.malformed();
            None
        }
    }
}

// The words from a place on.
fn nodes_from(alloc: Global, case: &Case, at: usize, told: &mut Told) -> NodeNumbers {
    let mut nodes = Vec::new(alloc);
    for place in at..case.len() {
        push_item(&mut nodes, case.small_at(place, told), told);
    }
    NodeNumbers::from_vec(nodes)
}
