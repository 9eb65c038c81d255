// Tables of a few metrics, and the layouts that they share.
use metric_path::MetricPath;
use metric_table::*;
use path_glob::Glob;
use ring_format::{Archive, Layout, Method};
use std::alloc::Global;
use std::process::Abort;
use std::test::Fail;

// A layout with one archive of ten points.
fn layout_of(step: u32) -> Result<Layout, Fail> {
    let archives = [Archive { step, points: 10 }];
    Ok(Layout::new(&archives, Method::Average, 500_000)?)
}

fn insert(
    alloc: Global,
    table: &mut MetricTable,
    text: &[u8],
    step: u32,
    is_kept: bool,
) -> Result<(), Fail> {
    let layout = layout_of(step)?;
    let path = MetricPath::new(alloc, text)?;
    Ok(table.insert(path, layout, is_kept, false)?)
}

// A path, the step of its layout, and whether something is kept of it.
const KNOWN: [(&[u8], u32, bool); 4] = [
    (b"b.cpu", 60, false),
    (b"a.cpu", 10, true),
    (b"a.load", 60, false),
    (b"c", 10, true),
];

fn known_table(alloc: Global) -> Result<MetricTable, Fail> {
    let mut table = MetricTable::new(alloc);
    for (text, step, is_kept) in KNOWN {
        insert(alloc, &mut table, text, step, is_kept)?;
    }
    Ok(table)
}

fn drain(table: &mut MetricTable, path: &MetricPath) {
    if let Some(known) = table.get(path) {
        if known.drains < u64::MAX {
            table.note_drain(path);
        }
    }
}

fn is_known(
    table: &MetricTable,
    path: &MetricPath,
    layout: &Layout,
    is_kept: bool,
    drains: u64,
) -> bool {
    match table.get(path) {
        Some(known) => {
            known.layout == *layout && known.is_kept == is_kept && known.drains == drains
        }
        None => false,
    }
}

// Whether a metric with a layout is known without a drain, is kept after two, and is not known once it is taken out, so that three are left.
fn drain_and_remove(table: &mut MetricTable, path: &MetricPath, layout: &Layout) -> [bool; 4] {
    let is_new = is_known(table, path, layout, false, 0);
    drain(table, path);
    drain(table, path);
    let is_drained = is_known(table, path, layout, true, 2);
    table.remove(path);
    [
        is_new,
        is_drained,
        table.get(path).is_none(),
        table.len() == 3,
    ]
}

#[test]
fn a_metric_is_drained_and_taken_out(rt: HostRuntime) -> Result<(), Fail> {
    let mut table = known_table(rt.alloc())?;
    let path = MetricPath::new(rt.alloc(), b"a.load")?;
    let found = drain_and_remove(&mut table, &path, &layout_of(60)?);
    assert!(rt; found == [true; 4], "{found:?}");
    Ok(())
}

// What is found, as `path=drains` with a blank behind each.
fn text_of(alloc: Global, found: &[FoundMetric<'_>]) -> Result<Vec<u8>, Fail> {
    let mut text = Vec::new(alloc);
    for metric in found {
        text.extend_from_slice(metric.path.text())?;
        let drains = format!(in alloc; "={} ", metric.drains)?;
        text.extend_from_slice(drains.as_bytes())?;
    }
    Ok(text)
}

fn found(alloc: Global, table: &MetricTable, glob: &[u8]) -> Result<Vec<u8>, Fail> {
    let glob = Glob::new(alloc, glob)?;
    let found = table.find(alloc, &Verdicts::none(alloc, &glob))?;
    text_of(alloc, &found)
}

const FOUND: [(&[u8], &[u8]); 3] = [
    (b"*.cpu", b"a.cpu=0 b.cpu=1 "),
    (b"a.*", b"a.cpu=0 a.load=0 "),
    (b"a", b""),
];

fn assert_found(
    rt: &impl Abort,
    alloc: Global,
    table: &MetricTable,
    glob: &[u8],
    wanted: &[u8],
) -> Result<(), Fail> {
    let text = found(alloc, table, glob)?;
    assert!(rt; text.as_slice() == wanted, "{glob:?}");
    Ok(())
}

#[test]
fn metrics_that_fit_are_found_in_byte_order(rt: HostRuntime) -> Result<(), Fail> {
    let mut table = known_table(rt.alloc())?;
    drain(&mut table, &MetricPath::new(rt.alloc(), b"b.cpu")?);
    for (glob, wanted) in FOUND {
        assert_found(&rt, rt.alloc(), &table, glob, wanted)?;
    }
    Ok(())
}

// How many layouts a table keeps once the metrics of these steps were put into it, too.
fn layouts_after(alloc: Global, steps: &[u32]) -> Result<usize, Fail> {
    let mut table = MetricTable::new(alloc);
    for step in 1..=60 {
        insert(alloc, &mut table, b"a", step, false)?;
    }
    for step in steps {
        insert(alloc, &mut table, b"b", *step, false)?;
    }
    Ok(table.layout_count())
}

// Each layout is added once, as long as fewer than 64 others came after it: here 60 others at most.
#[test]
fn layouts_are_shared(rt: HostRuntime) -> Result<(), Fail> {
    let rows: [(&[u32], usize); 3] = [(&[], 60), (&[1, 2, 1, 60, 1], 60), (&[61, 1], 61)];
    for (steps, wanted) in rows {
        assert!(rt; layouts_after(rt.alloc(), steps)? == wanted, "{steps:?}");
    }
    Ok(())
}
