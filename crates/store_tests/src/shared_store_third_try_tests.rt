// A question whose metric is drained at two tries: the third one holds the files of the classes of which it shows
// what is kept, beside a class whose disk hangs.
use crate::shared_store_ends::{End, Row, Shown};
use crate::shared_store_kit::Deed;
use crate::shared_store_wait_kit::{Case, Kept, Stop, assert_kept};
use point_cache::Put;
use shard_core::Wrote;
use shared_store::{DrainEnd, PutCounts, Tally};
use std::test::Fail;

// The disk of `a` waits as each of three tries begins to read its file, at its reads 0, 2 and 4: a try reads the first
// cell, and then those that it shows, for which it does not wait, since their flags are up before. That of `i`
// waits at a create.
static STOPS: [Stop; 6] = [
    Stop::Read(12, 0),
    Stop::Next(12),
    Stop::Next(12),
    Stop::Next(12),
    Stop::Next(12),
    Stop::Create(4),
];

// ---- what is done: the path `a` is of class 12, `b` of class 5, `d` of class 3, and `i` and `y` of class 4

// `a` and `b` are drained, and put anew, and the disk of class 4 hangs.
static BEFORE: [Row; 15] = [
    (Deed::Put("a", 0, 4), End::Put(Put::Stored)),
    (Deed::Plan(12), End::Planned("a")),
    (Deed::Write(12), End::Wrote(Wrote::Run)),
    (Deed::Write(12), End::Wrote(Wrote::Run)),
    (Deed::Write(12), End::Wrote(Wrote::Finished)),
    (Deed::Put("b", 0, 1), End::Put(Put::Stored)),
    (Deed::Plan(5), End::Planned("b")),
    (Deed::Write(5), End::Wrote(Wrote::Run)),
    (Deed::Write(5), End::Wrote(Wrote::Run)),
    (Deed::Write(5), End::Wrote(Wrote::Finished)),
    (Deed::Put("a", 1, 5), End::Put(Put::Stored)),
    (Deed::Put("b", 1, 2), End::Put(Put::Stored)),
    (Deed::Raise(3), End::Up),
    (Deed::Raise(7), End::Up),
    (Deed::Await(10), End::Up),
];

// The file of `i` is not made before the flag 11 is up. Nothing of `y`, of the same class, is drained by then.
static HANGS: [Row; 7] = [
    (Deed::Put("i", 0, 11), End::Put(Put::Stored)),
    (Deed::Plan(4), End::Planned("i")),
    (Deed::Put("y", 0, 6), End::Put(Put::Stored)),
    (Deed::Write(4), End::Wrote(Wrote::Run)),
    (Deed::Write(4), End::Wrote(Wrote::Run)),
    (Deed::Write(4), End::Wrote(Wrote::Finished)),
    (Deed::Raise(14), End::Up),
];

// What is kept and pending of the metrics as the third try begins.
const THIRD_A: Shown = Shown {
    path: "a",
    values: &[Some(4_000), Some(5_000), None, None, None],
};

const THIRD_B: Shown = Shown {
    path: "b",
    values: &[Some(1_000), Some(2_000), Some(3_000), Some(7_000), None],
};

const LAST_A: Shown = Shown {
    path: "a",
    values: &[Some(4_000), Some(6_000), Some(8_000), None, None],
};

const LAST_B: Shown = Shown {
    path: "b",
    values: &[
        Some(1_000),
        Some(2_000),
        Some(3_000),
        Some(10_000),
        Some(9_000),
    ],
};

const D: Shown = Shown {
    path: "d",
    values: &[Some(2_000), None, None, None, None],
};

const I: Shown = Shown {
    path: "i",
    values: &[Some(11_000), None, None, None, None],
};

const Y: Shown = Shown {
    path: "y",
    values: &[Some(6_000), None, None, None, None],
};

// The question waits in each of its three tries, and has the rows of the third, while the disk of class 4 hangs.
// When that is well again and the drain that waited for the question has ended the rest is drained.
static ASKS: [Row; 6] = [
    (
        Deed::Ask(&[b"a", b"b", b"y"]),
        End::Shown(&[&[THIRD_A], &[THIRD_B], &[Y]], 3),
    ),
    (Deed::Raise(11), End::Up),
    (Deed::Await(13), End::Up),
    (Deed::Await(14), End::Up),
    (Deed::DrainAll, End::Drained(DrainEnd::Done(2))),
    (
        Deed::Ask(&[b"?"]),
        End::Shown(&[&[LAST_A, LAST_B, D, I, Y]], 1),
    ),
];

// While `a` is read at the first and at the second try, `b` is drained and put anew. While it is
// read at the third, nothing waits but a drain of `b`: a class of which the question shows nothing is drained, and
// what is kept of it is shown to another one.
static MEANWHILE: [Row; 24] = [
    (Deed::Await(0), End::Up),
    (Deed::Plan(5), End::Planned("b")),
    (Deed::Write(5), End::Wrote(Wrote::Finished)),
    (Deed::Put("b", 2, 3), End::Put(Put::Stored)),
    (Deed::Raise(1), End::Up),
    (Deed::Await(4), End::Up),
    (Deed::Plan(5), End::Planned("b")),
    (Deed::Write(5), End::Wrote(Wrote::Finished)),
    (Deed::Put("b", 3, 7), End::Put(Put::Stored)),
    (Deed::Raise(5), End::Up),
    (Deed::Await(8), End::Up),
    (
        Deed::PutAll(&[("a", 2, 8), ("b", 4, 9), ("d", 0, 2)]),
        End::PutAll(THREE_STORED),
    ),
    (Deed::Put("a", 1, 6), End::Put(Put::Replaced)),
    (Deed::Put("b", 3, 10), End::Put(Put::Replaced)),
    (Deed::Raise(12), End::Up),
    (Deed::Plan(3), End::Planned("d")),
    (Deed::Write(3), End::Wrote(Wrote::Run)),
    (Deed::Write(3), End::Wrote(Wrote::Run)),
    (Deed::Write(3), End::Wrote(Wrote::Finished)),
    (Deed::Names, End::Names(&["a", "b", "d", "i", "y"])),
    (Deed::Ask(&[b"d", b"none"]), End::Shown(&[&[D], &[]], 1)),
    (Deed::Watch(13), End::Down),
    (Deed::Count, End::Counted(MEANWHILE_COUNTED)),
    (Deed::Raise(9), End::Up),
];

const THREE_STORED: PutCounts = PutCounts {
    done: 3,
    stored: 3,
    replaced: 0,
    full: 0,
};

// The third drain of `b` is not begun.
const MEANWHILE_COUNTED: Tally = Tally {
    stored: 11,
    replaced: 2,
    full: 0,
    drains: 6,
};

// `b` is drained once more, which waits for the third try.
static DRAINS: [Row; 4] = [
    (Deed::Await(12), End::Up),
    (Deed::Plan(5), End::Planned("b")),
    (Deed::Write(5), End::Wrote(Wrote::Finished)),
    (Deed::Raise(13), End::Up),
];

// Each point that was accepted is in its file, with the last of its values.
static KEPT: [Kept; 5] = [
    Kept {
        class: 12,
        file: "a.ring",
        numbers: &[4, 6, 8],
    },
    Kept {
        class: 5,
        file: "b.ring",
        numbers: &[1, 2, 3, 10, 9],
    },
    Kept {
        class: 3,
        file: "d.ring",
        numbers: &[2],
    },
    Kept {
        class: 4,
        file: "i.ring",
        numbers: &[11],
    },
    Kept {
        class: 4,
        file: "y.ring",
        numbers: &[6],
    },
];

// Of the 28 entries 22 are puts and drains, three are of the question that waited, two of others,
// and one is of the names.
#[test]
fn a_third_try_waits_for_no_disk_of_which_it_shows_nothing(rt: HostRuntime) -> Result<(), Fail> {
    let case = Case {
        stops: &STOPS,
        before: &BEFORE,
        first: &ASKS,
        second: &MEANWHILE,
        entries: 28,
        tally: Tally {
            stored: 11,
            replaced: 2,
            full: 0,
            drains: 9,
        },
    };
    assert_kept(&rt, rt.alloc(), &case, &[&DRAINS, &HANGS], &KEPT)
}
