// Two callers of a store, of which one waits in a disk while the other goes on.
use crate::shared_store_ends::{End, Row, Shown};
use crate::shared_store_kit::Deed;
use crate::shared_store_wait_kit::{Case, Kept, Stop, assert_case, assert_kept};
use point_cache::Put;
use shard_core::Wrote;
use shared_store::{DrainEnd, PutCounts, Tally};
use std::test::Fail;

// ---- the path `b` is of class 5, `d` of class 3, and `a` of class 12

const A: Shown = Shown {
    path: "a",
    values: &[Some(4_000), None, None, None, None],
};

const B: Shown = Shown {
    path: "b",
    values: &[Some(1_000), None, None, None, None],
};

const D: Shown = Shown {
    path: "d",
    values: &[Some(2_000), None, None, None, None],
};

const LATER_D: Shown = Shown {
    path: "d",
    values: &[Some(2_000), Some(3_000), None, None, None],
};

const LAST_D: Shown = Shown {
    path: "d",
    values: &[Some(5_000), Some(3_000), None, None, None],
};

const BOTH: &[&[u8]] = &[b"b", b"d"];

const ALL: &[&[u8]] = &[b"?"];

fn tally(stored: u64, drains: u64) -> Tally {
    Tally {
        stored,
        replaced: 0,
        full: 0,
        drains,
    }
}

// `b` is drained, and its first write waits.
static WRITES: [Row; 5] = [
    (Deed::Put("b", 0, 1), End::Put(Put::Stored)),
    (Deed::Plan(5), End::Planned("b")),
    (Deed::Write(5), End::Wrote(Wrote::Run)),
    (Deed::Write(5), End::Wrote(Wrote::Run)),
    (Deed::Write(5), End::Wrote(Wrote::Finished)),
];

static ASKS_BOTH: [Row; 1] = [(Deed::Ask(BOTH), End::Shown(&[&[B], &[D]], 1))];

// `d` is put and drained meanwhile.
static DRAINS: [Row; 7] = [
    (Deed::Await(0), End::Up),
    (Deed::Put("d", 0, 2), End::Put(Put::Stored)),
    (Deed::Plan(3), End::Planned("d")),
    (Deed::Write(3), End::Wrote(Wrote::Run)),
    (Deed::Write(3), End::Wrote(Wrote::Run)),
    (Deed::Write(3), End::Wrote(Wrote::Finished)),
    (Deed::Raise(1), End::Up),
];

#[test]
fn a_class_is_drained_while_the_disk_of_another_writes(rt: HostRuntime) -> Result<(), Fail> {
    let case = Case {
        stops: &[Stop::Write(5)],
        before: &WRITES,
        first: &ASKS_BOTH,
        second: &DRAINS,
        entries: 5,
        tally: tally(2, 2),
    };
    assert_case(&rt, rt.alloc(), &case)
}

// ---- a plan that waits

// `b` is drained, and put anew.
static PUT_AGAIN: [Row; 6] = [
    (Deed::Put("b", 0, 1), End::Put(Put::Stored)),
    (Deed::Plan(5), End::Planned("b")),
    (Deed::Write(5), End::Wrote(Wrote::Run)),
    (Deed::Write(5), End::Wrote(Wrote::Run)),
    (Deed::Write(5), End::Wrote(Wrote::Finished)),
    (Deed::Put("b", 1, 2), End::Put(Put::Stored)),
];

// Its next drain reads the file, and waits.
static PLANS_AGAIN: [Row; 2] = [
    (Deed::Plan(5), End::Planned("b")),
    (Deed::Write(5), End::Wrote(Wrote::Finished)),
];

#[test]
fn a_point_is_put_while_a_plan_waits(rt: HostRuntime) -> Result<(), Fail> {
    let case = Case {
        stops: &[Stop::Read(5, 0)],
        before: &PUT_AGAIN,
        first: &PLANS_AGAIN,
        second: &PUTS,
        entries: 5,
        tally: tally(3, 2),
    };
    assert_case(&rt, rt.alloc(), &case)
}

// ---- questions that wait

// `b` is drained, and `d` is put.
static PUT: [Row; 6] = [
    (Deed::Put("b", 0, 1), End::Put(Put::Stored)),
    (Deed::Plan(5), End::Planned("b")),
    (Deed::Write(5), End::Wrote(Wrote::Run)),
    (Deed::Write(5), End::Wrote(Wrote::Run)),
    (Deed::Write(5), End::Wrote(Wrote::Finished)),
    (Deed::Put("d", 0, 2), End::Put(Put::Stored)),
];

// The first question reads `b`, and waits. It has the point of `d` alone that was put before.
static ASKS: [Row; 2] = [
    (Deed::Ask(BOTH), End::Shown(&[&[B], &[D]], 1)),
    (Deed::Ask(BOTH), End::Shown(&[&[B], &[LATER_D]], 1)),
];

static PUTS: [Row; 3] = [
    (Deed::Await(0), End::Up),
    (Deed::Put("d", 1, 3), End::Put(Put::Stored)),
    (Deed::Raise(1), End::Up),
];

#[test]
fn a_question_that_waits_has_the_rows_of_its_entry(rt: HostRuntime) -> Result<(), Fail> {
    let case = Case {
        stops: &[Stop::Read(5, 0)],
        before: &PUT,
        first: &ASKS,
        second: &PUTS,
        entries: 6,
        tally: tally(3, 1),
    };
    assert_case(&rt, rt.alloc(), &case)
}

// A drain of `d` that was put anew is begun meanwhile.
static PLANS: [Row; 7] = [
    (Deed::Await(0), End::Up),
    (Deed::Put("d", 1, 3), End::Put(Put::Stored)),
    (Deed::Plan(3), End::Planned("d")),
    (Deed::Raise(1), End::Up),
    (Deed::Write(3), End::Wrote(Wrote::Run)),
    (Deed::Write(3), End::Wrote(Wrote::Run)),
    (Deed::Write(3), End::Wrote(Wrote::Finished)),
];

// The question enters once more.
static ASKS_AGAIN: [Row; 1] = [(Deed::Ask(BOTH), End::Shown(&[&[B], &[LATER_D]], 2))];

// `d` is drained, put anew and drained again.
static DRAINS_TWICE: [Row; 9] = [
    (Deed::Await(0), End::Up),
    (Deed::Plan(3), End::Planned("d")),
    (Deed::Write(3), End::Wrote(Wrote::Run)),
    (Deed::Write(3), End::Wrote(Wrote::Run)),
    (Deed::Write(3), End::Wrote(Wrote::Finished)),
    (Deed::Put("d", 1, 3), End::Put(Put::Stored)),
    (Deed::Plan(3), End::Planned("d")),
    (Deed::Write(3), End::Wrote(Wrote::Finished)),
    (Deed::Raise(1), End::Up),
];

#[test]
fn a_question_whose_metric_is_drained_meanwhile_enters_again(rt: HostRuntime) -> Result<(), Fail> {
    let table: [(&[Row], u64, u64); 2] = [(&PLANS, 7, 2), (&DRAINS_TWICE, 8, 3)];
    for (second, entries, drains) in table {
        let case = Case {
            stops: &[Stop::Read(5, 0)],
            before: &PUT,
            first: &ASKS_AGAIN,
            second,
            entries,
            tally: tally(3, drains),
        };
        assert_case(&rt, rt.alloc(), &case)?;
    }
    Ok(())
}

// `a`, `b` and `d` are drained.
static DRAINED: [Row; 15] = [
    (Deed::Put("a", 0, 4), End::Put(Put::Stored)),
    (Deed::Plan(12), End::Planned("a")),
    (Deed::Write(12), End::Wrote(Wrote::Run)),
    (Deed::Write(12), End::Wrote(Wrote::Run)),
    (Deed::Write(12), End::Wrote(Wrote::Finished)),
    (Deed::Put("b", 0, 1), End::Put(Put::Stored)),
    (Deed::Plan(5), End::Planned("b")),
    (Deed::Write(5), End::Wrote(Wrote::Run)),
    (Deed::Write(5), End::Wrote(Wrote::Run)),
    (Deed::Write(5), End::Wrote(Wrote::Finished)),
    (Deed::Put("d", 0, 2), End::Put(Put::Stored)),
    (Deed::Plan(3), End::Planned("d")),
    (Deed::Write(3), End::Wrote(Wrote::Run)),
    (Deed::Write(3), End::Wrote(Wrote::Run)),
    (Deed::Write(3), End::Wrote(Wrote::Finished)),
];

// The question waits as it reads `b`, and as it reads `a` once more.
static ASKS_TWICE: [Row; 1] = [(Deed::Ask(ALL), End::Shown(&[&[A, B, LAST_D]], 3))];

static MOVES_TWICE: [Row; 10] = [
    (Deed::Await(0), End::Up),
    (Deed::Put("d", 1, 3), End::Put(Put::Stored)),
    (Deed::Plan(3), End::Planned("d")),
    (Deed::Write(3), End::Wrote(Wrote::Finished)),
    (Deed::Raise(1), End::Up),
    (Deed::Await(2), End::Up),
    (Deed::Put("d", 0, 5), End::Put(Put::Stored)),
    (Deed::Plan(3), End::Planned("d")),
    (Deed::Write(3), End::Wrote(Wrote::Finished)),
    (Deed::Raise(3), End::Up),
];

#[test]
fn a_question_enters_a_third_time_at_most(rt: HostRuntime) -> Result<(), Fail> {
    let case = Case {
        stops: &[Stop::Read(5, 0), Stop::Read(12, 2)],
        before: &DRAINED,
        first: &ASKS_TWICE,
        second: &MOVES_TWICE,
        entries: 13,
        tally: tally(5, 5),
    };
    assert_case(&rt, rt.alloc(), &case)
}

// ---- a class whose own disk waits: the path `r` is of class 5 too

const R: Shown = Shown {
    path: "r",
    values: &[Some(3_000), None, None, None, None],
};

const LATER_B: Shown = Shown {
    path: "b",
    values: &[Some(1_000), Some(2_000), None, None, None],
};

const LAST_B: Shown = Shown {
    path: "b",
    values: &[Some(1_000), Some(2_000), Some(7_000), None, None],
};

const ONLY_B: &[&[u8]] = &[b"b"];

const B_AND_R: &[&[u8]] = &[b"b", b"r"];

static ASKS_B_AND_R: [Row; 1] = [(Deed::Ask(B_AND_R), End::Shown(&[&[LATER_B], &[R]], 1))];

const ONLY_R: &[&[u8]] = &[b"r"];

// Points of the drained metric and of another one are put meanwhile, and their names are asked for, the series
// of the other one, of which nothing is kept, and one that is not there.
static PUTS_HERE: [Row; 7] = [
    (Deed::Await(0), End::Up),
    (Deed::Put("b", 1, 2), End::Put(Put::Stored)),
    (Deed::PutAll(&[("r", 0, 3)]), End::PutAll(ONE_STORED)),
    (Deed::Names, End::Names(&["b", "r"])),
    (Deed::Ask(ONLY_R), End::Shown(&[&[R]], 1)),
    (Deed::Ask(&[b"none"]), End::Shown(&[&[]], 1)),
    (Deed::Raise(1), End::Up),
];

const ONE_STORED: PutCounts = PutCounts {
    done: 1,
    stored: 1,
    replaced: 0,
    full: 0,
};

#[test]
fn points_of_a_class_are_put_and_shown_while_its_disk_makes_or_writes_a_file(
    rt: HostRuntime,
) -> Result<(), Fail> {
    for stop in [Stop::Create(5), Stop::Write(5)] {
        let case = Case {
            stops: &[stop],
            before: &WRITES,
            first: &ASKS_B_AND_R,
            second: &PUTS_HERE,
            entries: 8,
            tally: tally(3, 1),
        };
        assert_case(&rt, rt.alloc(), &case)?;
    }
    Ok(())
}

// The next drain reads the file, and waits. The point that comes meanwhile is drained with it. Meanwhile a metric of
// which nothing is kept is asked for.
static PLANS_WITH_LATER: [Row; 4] = [
    (Deed::Plan(5), End::Planned("b")),
    (Deed::Write(5), End::Wrote(Wrote::Finished)),
    (Deed::Plan(5), End::Planned("r")),
    (Deed::Ask(ONLY_B), End::Shown(&[&[LAST_B]], 1)),
];

static PUTS_LATER: [Row; 6] = [
    (Deed::Await(0), End::Up),
    (Deed::Put("b", 2, 7), End::Put(Put::Stored)),
    (Deed::Names, End::Names(&["b"])),
    (Deed::Put("r", 0, 3), End::Put(Put::Stored)),
    (Deed::Ask(ONLY_R), End::Shown(&[&[R]], 1)),
    (Deed::Raise(1), End::Up),
];

#[test]
fn a_point_is_put_while_the_plan_of_its_metric_reads(rt: HostRuntime) -> Result<(), Fail> {
    let case = Case {
        stops: &[Stop::Read(5, 0)],
        before: &PUT_AGAIN,
        first: &PLANS_WITH_LATER,
        second: &PUTS_LATER,
        entries: 10,
        tally: tally(4, 3),
    };
    assert_case(&rt, rt.alloc(), &case)
}

// The first question reads `b`, and waits. The point that comes meanwhile is the next one's.
static ASKS_B: [Row; 2] = [
    (Deed::Ask(ONLY_B), End::Shown(&[&[B]], 1)),
    (Deed::Ask(ONLY_B), End::Shown(&[&[LATER_B]], 1)),
];

static PUTS_B: [Row; 3] = [
    (Deed::Await(0), End::Up),
    (Deed::Put("b", 1, 2), End::Put(Put::Stored)),
    (Deed::Raise(1), End::Up),
];

#[test]
fn a_point_is_put_while_a_question_reads_its_metric(rt: HostRuntime) -> Result<(), Fail> {
    let case = Case {
        stops: &[Stop::Read(5, 0)],
        before: &WRITES,
        first: &ASKS_B,
        second: &PUTS_B,
        entries: 5,
        tally: tally(2, 1),
    };
    assert_case(&rt, rt.alloc(), &case)
}

// ---- each call of a class's disk that may wait

// `a` is drained. The drain of `b` has begun, and `b` is put again.
static BEGUN: [Row; 8] = [
    (Deed::Put("a", 0, 4), End::Put(Put::Stored)),
    (Deed::Plan(12), End::Planned("a")),
    (Deed::Write(12), End::Wrote(Wrote::Run)),
    (Deed::Write(12), End::Wrote(Wrote::Run)),
    (Deed::Write(12), End::Wrote(Wrote::Finished)),
    (Deed::Put("b", 0, 1), End::Put(Put::Stored)),
    (Deed::Plan(5), End::Planned("b")),
    (Deed::Put("b", 1, 5), End::Put(Put::Stored)),
];

// The same, where the drain of `b` is written.
static WRITTEN: [Row; 11] = [
    (Deed::Put("a", 0, 4), End::Put(Put::Stored)),
    (Deed::Plan(12), End::Planned("a")),
    (Deed::Write(12), End::Wrote(Wrote::Run)),
    (Deed::Write(12), End::Wrote(Wrote::Run)),
    (Deed::Write(12), End::Wrote(Wrote::Finished)),
    (Deed::Put("b", 0, 1), End::Put(Put::Stored)),
    (Deed::Plan(5), End::Planned("b")),
    (Deed::Write(5), End::Wrote(Wrote::Run)),
    (Deed::Write(5), End::Wrote(Wrote::Run)),
    (Deed::Write(5), End::Wrote(Wrote::Finished)),
    (Deed::Put("b", 1, 5), End::Put(Put::Stored)),
];

// What is asked for, as it was before anything came meanwhile.
const HELD_B: Shown = Shown {
    path: "b",
    values: &[Some(1_000), Some(5_000), None, None, None],
};

const MOST_B: Shown = Shown {
    path: "b",
    values: &[Some(1_000), Some(6_000), Some(2_000), None, None],
};

const TWO_R: Shown = Shown {
    path: "r",
    values: &[Some(4_000), Some(6_000), None, None, None],
};

// Points of the class are put meanwhile, and one of another. Of the metrics that are asked for one is all pending in
// the class that waits, one is all pending in another class, one is in its file there, and one is not there.
static MEANWHILE: [Row; 10] = [
    (Deed::Await(0), End::Up),
    (Deed::Put("b", 2, 2), End::Put(Put::Stored)),
    (Deed::Put("b", 1, 6), End::Put(Put::Replaced)),
    (
        Deed::PutAll(&[("r", 0, 3), ("r", 1, 6), ("r", 0, 4)]),
        End::PutAll(TWO_AND_ONE),
    ),
    (Deed::Put("d", 0, 2), End::Put(Put::Stored)),
    (Deed::Ask(ONLY_R), End::Shown(&[&[TWO_R]], 1)),
    (
        Deed::Ask(&[b"d", b"a", b"none"]),
        End::Shown(&[&[D], &[A], &[]], 1),
    ),
    (Deed::Names, End::Names(&["a", "b", "d", "r"])),
    (Deed::Count, End::Counted(SEVEN_AND_TWO)),
    (Deed::Raise(1), End::Up),
];

const TWO_AND_ONE: PutCounts = PutCounts {
    done: 3,
    stored: 2,
    replaced: 1,
    full: 0,
};

// Two drains had begun before.
const SEVEN_AND_TWO: Tally = Tally {
    stored: 7,
    replaced: 2,
    full: 0,
    drains: 2,
};

const ALL_SHOWN: End = End::Shown(&[&[A, MOST_B, D, TWO_R]], 1);

// The file of `b` is made and written; then all that came is drained and shown.
static WRITES_ON: [Row; 5] = [
    (Deed::Write(5), End::Wrote(Wrote::Run)),
    (Deed::Write(5), End::Wrote(Wrote::Run)),
    (Deed::Write(5), End::Wrote(Wrote::Finished)),
    (Deed::DrainAll, End::Drained(DrainEnd::Done(3))),
    (Deed::Ask(ALL), ALL_SHOWN),
];

// The drain of `b` takes what came meanwhile.
static PLANS_ON: [Row; 4] = [
    (Deed::Plan(5), End::Planned("b")),
    (Deed::Write(5), End::Wrote(Wrote::Finished)),
    (Deed::DrainAll, End::Drained(DrainEnd::Done(2))),
    (Deed::Ask(ALL), ALL_SHOWN),
];

static ASKS_ON: [Row; 3] = [
    (Deed::Ask(ONLY_B), End::Shown(&[&[HELD_B]], 1)),
    (Deed::DrainAll, End::Drained(DrainEnd::Done(3))),
    (Deed::Ask(ALL), ALL_SHOWN),
];

// Each point that was accepted is in its file, with the last of its values.
static ALL_KEPT: [Kept; 4] = [
    Kept {
        class: 12,
        file: "a.ring",
        numbers: &[4],
    },
    Kept {
        class: 5,
        file: "b.ring",
        numbers: &[1, 6, 2],
    },
    Kept {
        class: 3,
        file: "d.ring",
        numbers: &[2],
    },
    Kept {
        class: 5,
        file: "r.ring",
        numbers: &[4, 6],
    },
];

#[test]
fn points_of_a_class_are_put_shown_and_counted_whatever_its_disk_waits_for(
    rt: HostRuntime,
) -> Result<(), Fail> {
    // the call that waits, what comes before it, it and what comes behind it, and the entries
    let table: [(Stop, &[Row], &[Row], u64); 4] = [
        (Stop::Create(5), &BEGUN, &WRITES_ON, 18),
        (Stop::Write(5), &BEGUN, &WRITES_ON, 18),
        (Stop::Read(5, 0), &WRITTEN, &PLANS_ON, 18),
        (Stop::Read(5, 0), &WRITTEN, &ASKS_ON, 19),
    ];
    for (stop, before, first, entries) in table {
        let case = Case {
            stops: &[stop],
            before,
            first,
            second: &MEANWHILE,
            entries,
            tally: Tally {
                stored: 7,
                replaced: 2,
                full: 0,
                drains: 5,
            },
        };
        assert_kept(&rt, rt.alloc(), &case, &[], &ALL_KEPT)?;
    }
    Ok(())
}

// ---- a disk that does not answer while the limit fills

// Of the ten points that may be pending in the class there is one. What is full takes new values of its pending
// points, and other classes take theirs.
static FILLS: [Row; 6] = [
    (Deed::Await(0), End::Up),
    (Deed::PutAll(NINE), End::PutAll(NINE_STORED)),
    (Deed::Put("r", 1, 9), End::Put(Put::Full)),
    (
        Deed::PutAll(&[("b", 1, 6), ("r", 2, 9), ("d", 0, 2)]),
        End::PutAll(ONE_OF_EACH),
    ),
    (Deed::Count, End::Counted(FULL_TWICE)),
    (Deed::Raise(1), End::Up),
];

const NINE: &[(&str, u32, u32)] = &[
    ("b", 2, 2),
    ("b", 3, 3),
    ("b", 4, 4),
    ("b2", 0, 11),
    ("b2", 1, 12),
    ("b2", 2, 13),
    ("b2", 3, 14),
    ("b2", 4, 15),
    ("r", 0, 3),
];

const NINE_STORED: PutCounts = PutCounts {
    done: 9,
    stored: 9,
    replaced: 0,
    full: 0,
};

const ONE_OF_EACH: PutCounts = PutCounts {
    done: 3,
    stored: 1,
    replaced: 1,
    full: 1,
};

const FULL_TWICE: Tally = Tally {
    stored: 13,
    replaced: 1,
    full: 2,
    drains: 2,
};

// Once all is drained there is room again.
static WRITES_FULL: [Row; 6] = [
    (Deed::Write(5), End::Wrote(Wrote::Run)),
    (Deed::Write(5), End::Wrote(Wrote::Run)),
    (Deed::Write(5), End::Wrote(Wrote::Finished)),
    (Deed::DrainAll, End::Drained(DrainEnd::Done(4))),
    (Deed::Put("r", 1, 8), End::Put(Put::Stored)),
    (Deed::DrainAll, End::Drained(DrainEnd::Done(1))),
];

static PLANS_FULL: [Row; 5] = [
    (Deed::Plan(5), End::Planned("b")),
    (Deed::Write(5), End::Wrote(Wrote::Finished)),
    (Deed::DrainAll, End::Drained(DrainEnd::Done(3))),
    (Deed::Put("r", 1, 8), End::Put(Put::Stored)),
    (Deed::DrainAll, End::Drained(DrainEnd::Done(1))),
];

static ASKS_FULL: [Row; 4] = [
    (Deed::Ask(ONLY_B), End::Shown(&[&[HELD_B]], 1)),
    (Deed::DrainAll, End::Drained(DrainEnd::Done(4))),
    (Deed::Put("r", 1, 8), End::Put(Put::Stored)),
    (Deed::DrainAll, End::Drained(DrainEnd::Done(1))),
];

// No value that found its class full is in a file.
static FULL_KEPT: [Kept; 5] = [
    Kept {
        class: 12,
        file: "a.ring",
        numbers: &[4],
    },
    Kept {
        class: 5,
        file: "b.ring",
        numbers: &[1, 6, 2, 3, 4],
    },
    Kept {
        class: 5,
        file: "b2.ring",
        numbers: &[11, 12, 13, 14, 15],
    },
    Kept {
        class: 3,
        file: "d.ring",
        numbers: &[2],
    },
    Kept {
        class: 5,
        file: "r.ring",
        numbers: &[3, 8],
    },
];

#[test]
fn points_are_stored_up_to_the_limit_while_a_disk_waits(rt: HostRuntime) -> Result<(), Fail> {
    let table: [(Stop, &[Row], &[Row], u64); 4] = [
        (Stop::Create(5), &BEGUN, &WRITES_FULL, 24),
        (Stop::Write(5), &BEGUN, &WRITES_FULL, 24),
        (Stop::Read(5, 0), &WRITTEN, &PLANS_FULL, 24),
        (Stop::Read(5, 0), &WRITTEN, &ASKS_FULL, 25),
    ];
    for (stop, before, first, entries) in table {
        let case = Case {
            stops: &[stop],
            before,
            first,
            second: &FILLS,
            entries,
            tally: Tally {
                stored: 14,
                replaced: 1,
                full: 2,
                drains: 7,
            },
        };
        assert_kept(&rt, rt.alloc(), &case, &[], &FULL_KEPT)?;
    }
    Ok(())
}
