//! Patches that are handed out run by run.
ghost use Rattle.std.specs.Prelude.{◌≢◌, None};

use crate::patches::patch_laying;
use crate::told::tell_bytes;
use crate::words::{is_new, path_in, place_in};
use case_lines::{Case, Told, halves, made, read_small};
use fixed_num::milli_of;
use ring_format::{CellWrite, Layout, Patch, RUN_BYTES};
use std::alloc::Global;
use write_shelf::{Run, Shelf};

// The most runs that are told.
const MOST_RUNS: u32 = 20;

/// `runs ARCHIVES METHOD FACTOR new|old ROWS`: the runs of a patch, each with the place in the file. `ROWS` is rows of neighbouring cells
/// as `ARCHIVE/SLOTxCOUNT`, with commas between. A run is `create:LENGTH`, `head`, or such a row.
pub fn tell_runs(alloc: Global, told: &mut Told, case: &Case, layout: Layout) {
    let fresh = is_new(case.text_at(3, told), told);
    if let Some(patch) = patch_of_rows(alloc, layout, fresh, case.text_at(4, told), told) {
        tell_all(told, patch);
    }
}

fn tell_all(told: &mut Told, patch: Patch) {
    let mut shelf = Shelf::empty();
    shelf.put(patch);
    for _ in 0..MOST_RUNS {
        let Some(run) = shelf.next_run() else {
            return;
        };
        told.push_blank();
        tell_run(told, run, shelf.run_at());
        shelf.mark_written();
    }
    told.push_str(" ..");
}

fn patch_of_rows(
    alloc: Global,
    layout: Layout,
    fresh: bool,
    text: &str,
    told: &mut Told,
) -> Option<Patch> {
    let path = made(path_in(alloc, b"a"), told)?;
    let mut patch = Patch::new(alloc, path, layout, fresh);
    lay_rows(&mut patch, text, told);
    Some(patch)
}

fn lay_rows(patch: &mut Patch, text: &str, told: &mut Told) {
    if text.is_empty() {
        return;
    }
    for row in text.split(',') {
        lay_row(patch, row, told);
    }
}

fn lay_row(patch: &mut Patch, text: &str, told: &mut Told) {
    let (place, count) = halves(text, 'x', told);
    let first = place_in(place, told);
    for k in 0..read_small(count, told) {
        let slot = first.at.saturating_add(k);
        if !patch.layout().has_slot(first.archive, slot) {
            return told.malformed();
        }
        told.keep(patch.lay(CellWrite {
            archive: first.archive,
            slot,
            bucket: 60,
            value: milli_of(1),
        }));
    }
}

fn tell_run(told: &mut Told, run: Run, at: u64) {
    match run {
        Run::Create { length } => write!(told, "create:{length}@{at}"),
        Run::Cells {
            archive,
            slot,
            count,
        } => write!(told, "{archive}/{slot}x{count}@{at}"),
        Run::Head => write!(told, "head@{at}"),
    }
}

/// `run-bytes ARCHIVES METHOD FACTOR new|old LAID`: the runs of a patch, each with the place in the file, the number of cells that the
/// patch has by then, and the bytes; `empty` at the end where the shelf has neither a run nor a patch.
pub fn tell_run_bytes(alloc: Global, told: &mut Told, case: &Case, layout: Layout) {
    let fresh = is_new(case.text_at(3, told), told);
    if let Some(patch) = patch_laying(alloc, b"a", layout, fresh, case.text_at(4, told), told) {
        tell_all_bytes(told, patch);
    }
}

fn tell_all_bytes(told: &mut Told, patch: Patch) {
    let mut shelf = Shelf::empty();
    shelf.put(patch);
    for _ in 0..MOST_RUNS {
        let Some(run) = shelf.next_run() else {
            break;
        };
        tell_run(told, run, shelf.run_at());
        tell_bytes_of_next(told, &shelf);
        shelf.mark_written();
    }
    tell_end(told, &shelf);
}

fn tell_bytes_of_next(told: &mut Told, shelf: &Shelf)
    requires { shelf.now ≢ None }
{
    let mut bytes = [7; RUN_BYTES];
    let count = shelf.run_bytes(&mut bytes);
    tell_patch_cells(told, shelf);
    tell_bytes(told, bytes.get(..count).unwrap_or(&[]));
    told.push_str("; ");
}

fn tell_patch_cells(told: &mut Told, shelf: &Shelf) {
    match shelf.patch() {
        Some(patch) => write!(told, " of {} cells: ", patch.cell_count()),
        None => told.push_str(" of no patch: "),
    }
}

fn tell_end(told: &mut Told, shelf: &Shelf) {
    if shelf.next_run().is_none() && shelf.patch().is_none() {
        return told.push_str("empty");
    }
    told.push_str("..");
}
