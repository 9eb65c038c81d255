//! The end of a store.
ghost use Rattle.std.specs.Prelude.{◌≡◌, ◌<◌, ◌≤◌, length, vec_capacity, vec_len};
ghost use Rattle.shared_history.specs.Parts.{PassesOfTable};
ghost use Rattle.shared_store.specs.Closes.{AllLook, EndsBelow, EndsClass};

use crate::class_desk::ClassDesk;
use crate::class_files::ClassFiles;
use crate::named::Named;
use crate::order_desk::OrderDesk;
use crate::room::Room;
use crate::store::Store;
use crate::tally::Tally;
use class_halves::meet;
use metric_path::CLASSES;
use outside_io::Disk;
use shared_history::{History, Pass, Tail, close, mark};
use std::sync::{Mutex, Wait};

/// What a store ends as: its history, the counts of the entries, and the disks in order of class.
#[derive(Drop)]
pub struct Closed<D: Disk> {
    /// The history.
    pub history: History,
    /// How many entries of each kind it has.
    pub tally: Tally,
    /// The disks.
    pub disks: Vec<D>,
}

// The disk of a class and its entries.
#[derive(Drop)]
struct ClassEnd<D: Disk> {
    disk: D,
    tail: Tail,
}

// Those of all classes.
#[derive(Drop)]
struct Ends<D: Disk> {
    disks: Vec<D>,
    tails: Vec<Tail>,
}

// Each pass looks at the class.
fn look_all(tail: &mut Tail, passes: &mut [Pass])
    requires one { PassesOfTable tail.old.table passes.old }
    ensures look { AllLook tail.old passes.old passes.new }
    ensures tail { tail.new ≡ tail.old }
{
    for pass in passes.iter_mut() {
        mark(tail, pass);
    }
}

// What the lock of a desk kept. A lock at another place than that of its class, which no store has, would be
// waited for without end.
fn take_desk<N: Named>(rt: &impl Wait, desk: Mutex<ClassDesk<N>>, class: u32) -> ClassDesk<N>
    ensures { result.class ≡ class }
{
    let desk = desk.into_inner();
    if desk.class() == class {
        return desk;
    }
    for _ in rt.forever() {}
    unreachable!()
}

// What the lock of the files kept.
fn take_files<D: Disk, N: Named>(
    rt: &impl Wait,
    files: Mutex<ClassFiles<D, N>>,
    class: u32,
) -> ClassFiles<D, N>
    ensures { result.class ≡ class }
{
    let files = files.into_inner();
    if files.class() == class {
        return files;
    }
    for _ in rt.forever() {}
    unreachable!()
}

// What both locks of a class kept.
fn end_class<D: Disk, N: Named>(
    rt: &impl Wait,
    desk: Mutex<ClassDesk<N>>,
    files: Mutex<ClassFiles<D, N>>,
    class: u32,
    passes: &mut [Pass],
) -> ClassEnd<D>
    requires one { PassesOfTable N.table passes.old }
    ensures ends { EndsClass D.Disk N.table N.told N.start N.faults class result.disk result.tail }
    ensures look { AllLook result.tail passes.old passes.new }
{
    let ClassDesk {
        desk: _,
        mut tail,
        half: mut desk_half,
        of: _,
    } = take_desk(rt, desk, class);
    let ClassFiles {
        files,
        half: mut files_half,
        of: _,
    } = take_files(rt, files, class);
    meet(&mut desk_half, &mut files_half);
    look_all(&mut tail, passes);
    ClassEnd {
        disk: files.finish(),
        tail,
    }
}

// The locks of all classes, in order.
#[derive(Drop)]
struct Kept<D: Disk, N: Named> {
    desks: Vec<Mutex<ClassDesk<N>>>,
    files: Vec<Mutex<ClassFiles<D, N>>>,
}

fn end_classes<D: Disk + Drop, N: Named>(
    rt: &impl Wait,
    kept: Kept<D, N>,
    ends: Ends<D>,
    passes: &mut [Pass],
) -> Ends<D>
    requires sixteen { (vec_len kept.desks ≡ 16) × (vec_len kept.files ≡ 16) }
    requires none { (vec_len ends.disks ≡ 0) × (vec_len ends.tails ≡ 0) }
    requires room { (16 ≤ vec_capacity ends.disks) × (16 ≤ vec_capacity ends.tails) }
    requires one { PassesOfTable N.table passes.old }
    ensures { EndsBelow D.Disk N.table N.told N.start N.faults 16
        result.disks.items result.tails.items passes.old passes.new }
{
    let Kept {
        mut desks,
        mut files,
    } = kept;
    let mut ends = ends;
    desks.reverse();
    files.reverse();
    for class in 0..CLASSES {
        let Some(desk) = desks.pop() else {
            unreachable!()
        };
        let Some(files) = files.pop() else {
            unreachable!()
        };
        let end = end_class(rt, desk, files, class, passes);
        ends.put(end);
    }
    ends
}

impl<D: Disk + Drop> Ends<D> {
    ghost use Rattle.std.specs.Prelude.{◌≡◌, ◌<◌, ◌≤◌, ◌∷◌, ◌++◌, [], vec_capacity, vec_len};

    // One class more, which has room.
    fn put(&mut self, end: ClassEnd<D>)
        requires disk_room { vec_len self.old.disks < vec_capacity self.old.disks }
        requires tail_room { vec_len self.old.tails < vec_capacity self.old.tails }
        ensures disks { self.new.disks.items ≡ self.old.disks.items ++ end.disk ∷ [] }
        ensures tails { self.new.tails.items ≡ self.old.tails.items ++ end.tail ∷ [] }
        ensures disk_room { vec_capacity self.old.disks ≤ vec_capacity self.new.disks }
        ensures tail_room { vec_capacity self.old.tails ≤ vec_capacity self.new.tails }
    {
        let ClassEnd { disk, tail } = end;
        match self.disks.push(disk) {
            Ok(()) => {}
            Err(_) => unreachable!(),
        }
        match self.tails.push(tail) {
            Ok(()) => {}
            Err(_) => unreachable!(),
        }
    }
}

impl<D: Disk + Drop, N: Named> Store<D, N> {
    ghost use Rattle.shared_history.specs.Parts.{PassesOfTable};
    ghost use Rattle.shared_store.specs.Closes.{Closes};

    /// Ends the store. The history is legal, and each disk stands for what it keeps, but for a
    /// drain that was not written whole. No memory is taken.
    pub fn close(self, rt: &impl Wait, passes: Vec<Pass>) -> Closed<D>
        requires one { PassesOfTable N.table passes.items }
        ensures { Closes D.Disk N.passes N.told N.start N.faults passes.items result }
    {
        let mut passes = passes;
        let Store {
            order,
            desks,
            files,
            room,
        } = self;
        let Room { disks, tails } = room.into_inner();
        let Ends { disks, tails } = end_classes(
            rt,
            Kept { desks, files },
            Ends { disks, tails },
            passes.as_mut_slice(),
        );
        let OrderDesk {
            order,
            tally,
            of: _,
        } = order.into_inner();
        Closed {
            history: close(order, tails, passes),
            tally,
            disks,
        }
    }
}
