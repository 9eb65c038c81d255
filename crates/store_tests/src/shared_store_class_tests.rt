// A metric of each class is drained to the disk of its class.
use crate::shared_store_ends::{End, Row, assert_both};
use crate::shared_store_kit::{Deed, RULES, Ran};
use crate::shared_store_tests::{Case, run_case};
use metric_path::CLASSES;
use outside_io::{Disk, MemDisk};
use point_cache::Put;
use shard_core::Wrote;
use std::alloc::Global;
use std::process::Abort;
use std::sync::Wait;
use std::test::Fail;
use std::thread::Threads;
use std::time::Clock;

// A metric of each class and its file, in order of class.
static METRICS: [(&str, &str); 16] = [
    ("p.c", "p/c.ring"),
    ("p.h", "p/h.ring"),
    ("p.e", "p/e.ring"),
    ("p.b", "p/b.ring"),
    ("p.o", "p/o.ring"),
    ("p.d", "p/d.ring"),
    ("p.a", "p/a.ring"),
    ("p.n", "p/n.ring"),
    ("p.k", "p/k.ring"),
    ("p.p", "p/p.ring"),
    ("p.m", "p/m.ring"),
    ("p.j", "p/j.ring"),
    ("p.g", "p/g.ring"),
    ("p.l", "p/l.ring"),
    ("p.i", "p/i.ring"),
    ("p.f", "p/f.ring"),
];

// How many files of this name a disk has, and how many others.
fn count_files(disk: &mut MemDisk, file: &str) -> Result<(usize, usize), Fail> {
    match disk.names() {
        Ok(names) => {
            let found = names.iter().filter(|name| name.as_str() == file).count();
            Ok((found, names.len() - found))
        }
        Err(_fault) => Err(Fail::new("the names are read")),
    }
}

// Whether the disk of the class has this file, and no disk another one.
fn is_only_file(disks: &mut [MemDisk], class: usize, file: &str) -> Result<bool, Fail> {
    for (k, disk) in disks.iter_mut().enumerate() {
        let (found, others) = count_files(disk, file)?;
        if (found == 1) != (k == class) || others > 0 {
            return Ok(false);
        }
    }
    Ok(true)
}

// What a store leaves when a caller has done these rows.
fn ran_behind<R: Threads + Wait + Clock + Sync>(
    rt: &R,
    alloc: Global,
    rows: &[Row],
) -> Result<Ran<MemDisk>, Fail> {
    let case = Case {
        schemas: RULES,
        limit: 10,
        class: CLASSES,
        writes: 0,
        reads: 0,
        first: rows,
        second: &[],
    };
    run_case(rt, alloc, &case)
}

// Whether each of these rows has ended so, and the disk of the class alone has a file, which is this one.
fn leaves_file(
    rt: &impl Abort,
    ran: &mut Ran<MemDisk>,
    rows: &[Row],
    class: u32,
    file: &str,
) -> Result<bool, Fail> {
    assert_both(rt, ran.jobs.as_slice(), &[], rows, &[])?;
    is_only_file(ran.closed.disks.as_mut_slice(), class as usize, file)
}

// A file is created, its cells are written, and then its head.
fn drains_metric<R: Abort + Threads + Wait + Clock + Sync>(
    rt: &R,
    alloc: Global,
    class: u32,
    path: &'static str,
    file: &str,
) -> Result<bool, Fail> {
    let rows: [Row; 9] = [
        (Deed::Put(path, 0, 1), End::Put(Put::Stored)),
        (Deed::Put(path, 0, 1), End::Put(Put::Replaced)),
        (Deed::Plan(class), End::Planned(path)),
        (Deed::Plan(class), End::Planned("busy")),
        (Deed::Write(class), End::Wrote(Wrote::Run)),
        (Deed::Write(class), End::Wrote(Wrote::Run)),
        (Deed::Write(class), End::Wrote(Wrote::Finished)),
        (Deed::Write(class), End::Wrote(Wrote::Nothing)),
        (Deed::Plan(class), End::Planned("idle")),
    ];
    let mut ran = ran_behind(rt, alloc, &rows)?;
    leaves_file(rt, &mut ran, &rows, class, file)
}

fn assert_drains<R: Abort + Threads + Wait + Clock + Sync>(
    rt: &R,
    alloc: Global,
    class: u32,
    path: &'static str,
    file: &str,
) -> Result<(), Fail> {
    let is_drained = drains_metric(rt, alloc, class, path, file)?;
    assert!(rt; is_drained, "class {class}");
    Ok(())
}

#[test]
fn each_class_drains_to_its_own_disk(rt: HostRuntime) -> Result<(), Fail> {
    for (class, (path, file)) in (0..CLASSES).zip(METRICS.iter()) {
        assert_drains(&rt, rt.alloc(), class, path, file)?;
    }
    Ok(())
}
