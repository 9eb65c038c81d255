//! The verbs of the cases.

use crate::words::layout_of;
use crate::{
    aggregates, batches, caches, carries, fetches, layouts, lookups, order_many, orders, patches,
    rollups, rules, shelves, writes,
};
use case_lines::{Calls, Case, CaseFault, Told};
use ring_format::Layout;
use std::alloc::Global;

/// The calls around ring files.
#[derive(Drop)]
pub struct RingCalls;

impl Calls for RingCalls {
    fn tell(&self, alloc: Global, case: &Case) -> Result<String, CaseFault> {
        let mut told = Told::new(alloc);
        tell_case(alloc, &mut told, case);
        told.finish()
    }
}

fn tell_case(alloc: Global, told: &mut Told, case: &Case) {
    match case.verb() {
        "layout" => layouts::tell_layout(alloc, told, case),
        "slot" => layouts::tell_slot(told, case),
        "cell" => layouts::tell_cell(told, case),
        "read-cell" => layouts::tell_read_cell(alloc, told, case),
        "read-head" => layouts::tell_read_head(alloc, told, case),
        "roll" => rollups::tell_roll(alloc, told, case),
        "enough" => rollups::tell_enough(told, case),
        "rules" => rules::tell_rules(alloc, told, case),
        "retentions" => rules::tell_retentions(alloc, told, case),
        "path-layout" => rules::tell_path_layout(alloc, told, case),
        "agg-rules" => aggregates::tell_rules(alloc, told, case),
        "agg-limits" => aggregates::tell_limits(told),
        "aggregate" => aggregates::tell_emitted(alloc, told, case),
        "aggregate-within" => aggregates::tell_within(alloc, told, case),
        "aggregate-end" => aggregates::tell_end(alloc, told, case),
        "cache" => caches::tell_cache(alloc, told, case),
        "order" => orders::tell_order(alloc, told, case),
        "order-many" => order_many::tell_many(alloc, told, case),
        _ => tell_by_layout(alloc, told, case),
    }
}

// The verbs whose first three words are a lawful layout.
fn tell_by_layout(alloc: Global, told: &mut Told, case: &Case) {
    if let Some(layout) = layout_of(alloc, case, told) {
        tell_of_file(alloc, told, case, layout);
    }
}

// What stands in a file, and in a patch over it.
fn tell_of_file(alloc: Global, told: &mut Told, case: &Case, layout: Layout) {
    match case.verb() {
        "parts" => layouts::tell_parts(told, layout),
        "old-parts" => layouts::tell_old_parts(told, layout),
        "head" => layouts::tell_head(told, layout),
        "patch-of" => patches::tell_patch(alloc, told, case, layout),
        "patch-cells" => patches::tell_cells(alloc, told, case, layout),
        "patch-cell" => patches::tell_cell_at(alloc, told, case, layout),
        "patch-from" => patches::tell_cell_from(alloc, told, case, layout),
        "bucket" => lookups::tell_bucket(alloc, told, case, layout),
        "buckets" => lookups::tell_buckets(alloc, told, case, layout),
        "based-buckets" => lookups::tell_based_buckets(alloc, told, case, layout),
        "slots" => lookups::tell_slots(alloc, told, case, layout),
        _ => tell_of_drain(alloc, told, case, layout),
    }
}

// What a file shows, and what is written to it.
fn tell_of_drain(alloc: Global, told: &mut Told, case: &Case, layout: Layout) {
    match case.verb() {
        "window" => fetches::tell_window(told, case, layout),
        "fetch" => fetches::tell_fetch(alloc, told, case, layout),
        "carry" => carries::tell_carried(alloc, told, case, layout),
        "carried-drain" => carries::tell_drained(alloc, told, case, layout),
        "batch" => batches::tell_batch(alloc, told, case, layout),
        "runs" => shelves::tell_runs(alloc, told, case, layout),
        "run-bytes" => shelves::tell_run_bytes(alloc, told, case, layout),
        "file" => writes::tell_file(alloc, told, case, layout),
        "writes" => writes::tell_writes(alloc, told, case, layout),
        "rewrites" => writes::tell_rewrites(alloc, told, case, layout),
        _ => told.malformed(),
    }
}
