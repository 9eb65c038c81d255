// The order in which locks are taken: who waits for the files of a class keeps no desk meanwhile.
use crate::shared_store_ends::{End, Row, Shown};
use crate::shared_store_kit::Deed;
use crate::shared_store_wait_kit::{Case, Stop, assert_among, assert_case};
use point_cache::Put;
use shard_core::Wrote;
use shared_store::{PutCounts, Step, Tally};
use std::test::Fail;

// ---- a question at its third try: the path `a` is of class 12, `b` of class 5, and `d` and `t` of class 3

// The disk of `a` waits as each of two tries begins to read its file: a try reads the first cell, and then those
// that it shows. That of `d` waits as its file is read.
static STOPS: [Stop; 4] = [
    Stop::Read(12, 0),
    Stop::Next(12),
    Stop::Next(12),
    Stop::Read(3, 0),
];

// All three are drained, and `b` is put anew. Another question reads `d` then.
static BEFORE: [Row; 18] = [
    (Deed::Put("a", 0, 4), End::Put(Put::Stored)),
    (Deed::Plan(12), End::Planned("a")),
    (Deed::Write(12), End::Wrote(Wrote::Run)),
    (Deed::Write(12), End::Wrote(Wrote::Run)),
    (Deed::Write(12), End::Wrote(Wrote::Finished)),
    (Deed::Put("b", 0, 1), End::Put(Put::Stored)),
    (Deed::Plan(5), End::Planned("b")),
    (Deed::Write(5), End::Wrote(Wrote::Run)),
    (Deed::Write(5), End::Wrote(Wrote::Run)),
    (Deed::Write(5), End::Wrote(Wrote::Finished)),
    (Deed::Put("d", 0, 2), End::Put(Put::Stored)),
    (Deed::Plan(3), End::Planned("d")),
    (Deed::Write(3), End::Wrote(Wrote::Run)),
    (Deed::Write(3), End::Wrote(Wrote::Run)),
    (Deed::Write(3), End::Wrote(Wrote::Finished)),
    (Deed::Put("b", 1, 2), End::Put(Put::Stored)),
    (Deed::Raise(8), End::Up),
    (Deed::Await(6), End::Up),
];

const A: Shown = Shown {
    path: "a",
    values: &[Some(4_000), Some(5_000), None, None, None],
};

const B: Shown = Shown {
    path: "b",
    values: &[Some(1_000), Some(2_000), Some(3_000), None, Some(9_000)],
};

const D: Shown = Shown {
    path: "d",
    values: &[Some(2_000), Some(3_000), None, None, None],
};

const EARLIER_D: Shown = Shown {
    path: "d",
    values: &[Some(2_000), None, None, None, None],
};

// The question has what was put while its third try waited for the files of `d`.
static ASKS: [Row; 2] = [
    (
        Deed::Ask(&[b"a", b"b", b"d"]),
        End::Shown(&[&[A], &[B], &[D]], 3),
    ),
    (Deed::Raise(9), End::Up),
];

// While `a` is read at the first and at the second try, `b` is drained. The third one waits for the files of `d`, and
// meanwhile points of all its classes are put.
static MEANWHILE: [Row; 14] = [
    (Deed::Await(0), End::Up),
    (Deed::Raise(3), End::Up),
    (Deed::Plan(5), End::Planned("b")),
    (Deed::Write(5), End::Wrote(Wrote::Finished)),
    (Deed::Put("b", 2, 3), End::Put(Put::Stored)),
    (Deed::Raise(1), End::Up),
    (Deed::Await(4), End::Up),
    (Deed::Plan(5), End::Planned("b")),
    (Deed::Write(5), End::Wrote(Wrote::Finished)),
    (Deed::Raise(5), End::Up),
    (Deed::Await(11), End::Up),
    (Deed::Watch(9), End::Down),
    (
        Deed::PutAll(&[("a", 1, 5), ("b", 4, 9), ("d", 1, 3)]),
        End::PutAll(THREE_STORED),
    ),
    (Deed::Raise(10), End::Up),
];

const THREE_STORED: PutCounts = PutCounts {
    done: 3,
    stored: 3,
    replaced: 0,
    full: 0,
};

// The question that holds the files of `d`. It wants no lock more, so that all go on behind it, whatever is held.
static READS: [Row; 2] = [
    (Deed::Await(8), End::Up),
    (Deed::Ask(&[b"d"]), End::Shown(&[&[EARLIER_D]], 1)),
];

// Who asks whether the next drain of the class makes a file waits for them too.
static FORESEES: [Row; 4] = [
    (Deed::Await(5), End::Up),
    (Deed::Put("t", 0, 7), End::Put(Put::Stored)),
    (Deed::Raise(11), End::Up),
    (Deed::MakesFile(3), End::MakesFile(true)),
];

// The file of `d` is not read before the points are put.
static OPENS: [Row; 3] = [
    (Deed::Await(5), End::Up),
    (Deed::Expect(10), End::Up),
    (Deed::Raise(7), End::Up),
];

// Of the 18 entries 14 are puts and drains, three are of the question, and one is of the other.
#[test]
fn points_are_put_while_a_third_try_waits_for_files(rt: HostRuntime) -> Result<(), Fail> {
    let case = Case {
        stops: &STOPS,
        before: &BEFORE,
        first: &ASKS,
        second: &MEANWHILE,
        entries: 18,
        tally: Tally {
            stored: 9,
            replaced: 0,
            full: 0,
            drains: 5,
        },
    };
    assert_among(&rt, rt.alloc(), &case, &[&READS, &FORESEES, &OPENS])
}

// ---- a reader between two runs of a drain

static BEGUN: [Row; 2] = [
    (Deed::Put("b", 0, 1), End::Put(Put::Stored)),
    (Deed::Plan(5), End::Planned("b")),
];

// The step makes the file, and waits. Then it gives the files of the class back, with two runs left.
static STEPS: [Row; 4] = [
    (Deed::Step(5), End::Stepped(Step::Wrote)),
    (Deed::Await(2), End::Up),
    (Deed::Write(5), End::Wrote(Wrote::Run)),
    (Deed::Write(5), End::Wrote(Wrote::Finished)),
];

const NEW_B: Shown = Shown {
    path: "b",
    values: &[Some(1_000), None, None, None, None],
};

static COMES: [Row; 4] = [
    (Deed::Await(0), End::Up),
    (Deed::Raise(1), End::Up),
    (Deed::Ask(&[b"b"]), End::Shown(&[&[NEW_B]], 1)),
    (Deed::Raise(2), End::Up),
];

#[test]
fn a_question_reads_behind_the_first_run_of_a_drain(rt: HostRuntime) -> Result<(), Fail> {
    let case = Case {
        stops: &[Stop::Create(5)],
        before: &BEGUN,
        first: &STEPS,
        second: &COMES,
        entries: 3,
        tally: Tally {
            stored: 1,
            replaced: 0,
            full: 0,
            drains: 1,
        },
    };
    assert_case(&rt, rt.alloc(), &case)
}
