// A plan for whose metric a point comes at each of its first eight tries: at the ninth it keeps the desk of its class
// while it reads.
use crate::shared_store_ends::{End, Row, Shown};
use crate::shared_store_kit::Deed;
use crate::shared_store_wait_kit::{Case, Stop, assert_among};
use point_cache::Put;
use shard_core::Wrote;
use shared_store::{DrainEnd, PutCounts, Tally};
use std::test::Fail;

// Each try reads the first cell of the file of `b`, which is of class 5. At its n-th read, from 0 on, the disk puts up
// the flag 2n, and waits for the next one.
static STOPS: [Stop; 9] = [
    Stop::Read(5, 0),
    Stop::Next(5),
    Stop::Next(5),
    Stop::Next(5),
    Stop::Next(5),
    Stop::Next(5),
    Stop::Next(5),
    Stop::Next(5),
    Stop::Next(5),
];

// ---- the caller that plans

// `b` is drained, and put anew.
static BEFORE: [Row; 6] = [
    (Deed::Put("b", 0, 1), End::Put(Put::Stored)),
    (Deed::Plan(5), End::Planned("b")),
    (Deed::Write(5), End::Wrote(Wrote::Run)),
    (Deed::Write(5), End::Wrote(Wrote::Run)),
    (Deed::Write(5), End::Wrote(Wrote::Finished)),
    (Deed::Put("b", 1, 2), End::Put(Put::Stored)),
];

const B: Shown = Shown {
    path: "b",
    values: &[Some(1_000), Some(10_000), Some(20_000), None, None],
};

// The plan takes the points of its last try. The point that waited for it is drained then, after the drains of the
// other classes were written.
static PLANS: [Row; 5] = [
    (Deed::Plan(5), End::Planned("b")),
    (Deed::Write(5), End::Wrote(Wrote::Finished)),
    (Deed::Await(18), End::Up),
    (Deed::DrainAll, End::Drained(DrainEnd::Done(1))),
    (Deed::Ask(&[b"b"]), End::Shown(&[&[B]], 1)),
];

// ---- what others do meanwhile

// A metric of each other class.
const PIECE: &[(&str, u32, u32)] = &[
    ("e", 0, 2),
    ("n", 0, 2),
    ("c", 0, 2),
    ("d", 0, 2),
    ("i", 0, 2),
    ("g", 0, 2),
    ("h", 0, 2),
    ("m", 0, 2),
    ("f", 0, 2),
    ("k", 0, 2),
    ("l", 0, 2),
    ("a", 0, 2),
    ("j", 0, 2),
    ("o", 0, 2),
    ("p", 0, 2),
];

const ALL_STORED: PutCounts = PutCounts {
    done: 15,
    stored: 15,
    replaced: 0,
    full: 0,
};

// A point of `b` is put at each of eight tries. At the ninth a piece of all other classes is put, and a drain of each is
// begun, while a point of `b` waits.
static MEANWHILE: [Row; 43] = [
    (Deed::Await(0), End::Up),
    (Deed::Put("b", 1, 3), End::Put(Put::Replaced)),
    (Deed::Raise(1), End::Up),
    (Deed::Await(2), End::Up),
    (Deed::Put("b", 1, 4), End::Put(Put::Replaced)),
    (Deed::Raise(3), End::Up),
    (Deed::Await(4), End::Up),
    (Deed::Put("b", 1, 5), End::Put(Put::Replaced)),
    (Deed::Raise(5), End::Up),
    (Deed::Await(6), End::Up),
    (Deed::Put("b", 1, 6), End::Put(Put::Replaced)),
    (Deed::Raise(7), End::Up),
    (Deed::Await(8), End::Up),
    (Deed::Put("b", 1, 7), End::Put(Put::Replaced)),
    (Deed::Raise(9), End::Up),
    (Deed::Await(10), End::Up),
    (Deed::Put("b", 1, 8), End::Put(Put::Replaced)),
    (Deed::Raise(11), End::Up),
    (Deed::Await(12), End::Up),
    (Deed::Put("b", 1, 9), End::Put(Put::Replaced)),
    (Deed::Raise(13), End::Up),
    (Deed::Await(14), End::Up),
    (Deed::Put("b", 1, 10), End::Put(Put::Replaced)),
    (Deed::Raise(15), End::Up),
    (Deed::Await(16), End::Up),
    (Deed::PutAll(PIECE), End::PutAll(ALL_STORED)),
    (Deed::Plan(0), End::Planned("e")),
    (Deed::Plan(1), End::Planned("n")),
    (Deed::Plan(2), End::Planned("c")),
    (Deed::Plan(3), End::Planned("d")),
    (Deed::Plan(4), End::Planned("i")),
    (Deed::Plan(6), End::Planned("g")),
    (Deed::Plan(7), End::Planned("h")),
    (Deed::Plan(8), End::Planned("m")),
    (Deed::Plan(9), End::Planned("f")),
    (Deed::Plan(10), End::Planned("k")),
    (Deed::Plan(11), End::Planned("l")),
    (Deed::Plan(12), End::Planned("a")),
    (Deed::Plan(13), End::Planned("j")),
    (Deed::Plan(14), End::Planned("o")),
    (Deed::Plan(15), End::Planned("p")),
    (Deed::Watch(18), End::Down),
    (Deed::Raise(17), End::Up),
];

// A point of the class whose desk is kept.
static WAITS: [Row; 3] = [
    (Deed::Await(16), End::Up),
    (Deed::Put("b", 2, 20), End::Put(Put::Stored)),
    (Deed::Raise(18), End::Up),
];

// Of the 45 entries 44 are puts and drains, and one is of the question.
#[test]
fn a_ninth_try_keeps_the_desk_of_its_class_and_no_other(rt: HostRuntime) -> Result<(), Fail> {
    let case = Case {
        stops: &STOPS,
        before: &BEFORE,
        first: &PLANS,
        second: &MEANWHILE,
        entries: 45,
        tally: Tally {
            stored: 18,
            replaced: 8,
            full: 0,
            drains: 18,
        },
    };
    assert_among(&rt, rt.alloc(), &case, &[&WAITS])
}
