// Links over a store of a few metrics: what they bring, and what is to come of it.
ghost use Rattle.std.specs.Prelude.{◌≡◌, ◌≤◌, vec_len};
ghost use Rattle.shard_set.specs.Disks.{faults_at, told_at};
ghost use Rattle.shard_core.specs.Started.{AreReadyShards};
ghost use Rattle.shard_set.specs.OpeningState.{opening_of};
ghost use Rattle.shared_history.specs.Parts.{AreNewPasses};
ghost use Rattle.shared_store.specs.Starts.{IsFresh};

use crate::moving_clock::MovingClock;
use clock_watch::Watch;
use drain_order::Strategy;
use http_front::*;
use metric_line::read_line;
use metric_path::CLASSES;
use outside_io::{MemDisk, MemLink, MemSink, MemSource};
use point_cache::Put;
use read_trace::Reads;
use schema_rules::Rules;
use shard_set::{Setup, Started, start_all};
use shared_history::{Pass, make};
use shared_store::{Named, Parts, Store, StorePass, has_room, make_pairs};
use std::alloc::{AllocError, Global};
use std::marker::Brand;
use std::process::Abort;
use std::sync::Wait;
use std::test::Fail;

// 2023-11-14 22:13:50 UTC.
const NOW: u32 = 1_700_000_030;

// How many bytes the answer to a question may take.
const ANSWER_BYTES: u64 = 268_435_456;

// What a store is given before its links come: the file of the schemas, and metric lines.
#[derive(Clone, Copy)]
pub(crate) struct Given<'a> {
    pub(crate) schemas: &'a [u8],
    pub(crate) lines: &'a [&'a [u8]],
}

// A piece of a text, which stands there once, so many times, or with so many bytes of its front.
#[derive(Clone, Copy)]
pub(crate) enum Piece<'a> {
    One(&'a [u8]),
    Times(usize, &'a [u8]),
    Front(usize, &'a [u8]),
}

pub(crate) type Pieces<'a> = &'a [Piece<'a>];

// What a link brings, what is written to it, how it ends, and how many entries are made.
#[derive(Clone, Copy)]
pub(crate) struct Row<'a> {
    pub(crate) stream: Pieces<'a>,
    pub(crate) replies: Pieces<'a>,
    pub(crate) end: HttpEnd,
    pub(crate) entries: u64,
}

// A row, and how its bytes come and go out.
#[derive(Clone, Copy)]
pub(crate) struct Case<'a> {
    pub(crate) row: Row<'a>,
    pub(crate) way: Way<'a>,
}

// How bytes come over a link and go out.
#[derive(Clone, Copy)]
pub(crate) struct Way<'a> {
    // at which places what comes is cut
    pub(crate) cuts: &'a [usize],
    // which reads and writes fail, and the most bytes of a write
    pub(crate) reads: &'a [u64],
    pub(crate) writes: &'a [u64],
    pub(crate) most: usize,
    // by how many seconds the clock moves on whenever it is read
    pub(crate) step: u64,
}

// All at once, and nothing fails.
pub(crate) const WHOLE: Way<'static> = Way {
    cuts: &[],
    reads: &[],
    writes: &[],
    most: 1_000_000,
    step: 0,
};

// The text of these pieces.
pub(crate) fn joined(alloc: Global, pieces: Pieces<'_>) -> Result<Vec<u8>, AllocError> {
    let mut text = Vec::new(alloc);
    for piece in pieces {
        match piece {
            Piece::One(part) => text.extend_from_slice(part)?,
            Piece::Times(times, part) => push_times(&mut text, part, *times)?,
            Piece::Front(len, part) => text.extend_from_slice(part.get(..*len).unwrap_or(part))?,
        }
    }
    Ok(text)
}

fn push_times(text: &mut Vec<u8>, piece: &[u8], times: usize) -> Result<(), AllocError> {
    for _ in 0..times {
        text.extend_from_slice(piece)?;
    }
    Ok(())
}

// ---- a run

fn source_of(alloc: Global, case: &Case<'_>) -> Result<MemSource, AllocError> {
    let cuts = Vec::from_slice(alloc, case.way.cuts)?;
    let reads = Vec::from_slice(alloc, case.way.reads)?;
    let stream = joined(alloc, case.row.stream)?;
    Ok(MemSource::new(alloc, stream).cut_at(cuts).failing(reads))
}

fn link_of(alloc: Global, case: &Case<'_>) -> Result<MemLink, AllocError> {
    let source = source_of(alloc, case)?;
    let writes = Vec::from_slice(alloc, case.way.writes)?;
    let most = case.way.most.max(1);
    Ok(MemLink {
        source,
        sink: MemSink::new(alloc).at_most(most).failing(writes),
    })
}

// What came of a link.
#[derive(Drop)]
struct Came {
    written: Vec<u8>,
    end: HttpEnd,
    entries: Option<u64>,
}

fn serve_link<N: Named, R: Wait>(
    rt: &R,
    alloc: Global,
    store: &Store<MemDisk, N>,
    pass: &mut StorePass<N>,
    link: MemLink,
    step: u64,
) -> Came {
    let mut link = link;
    let before = pass.left();
    let clock = MovingClock::new(u64::from(NOW), step);
    let mut watch = Watch::new();
    let mut reads = Reads::new();
    let end = serve_http(
        rt,
        alloc,
        store,
        pass,
        &mut watch,
        &mut link,
        &mut reads,
        &clock,
        ANSWER_BYTES,
    );
    Came {
        written: link.sink.into_bytes(),
        end,
        entries: before.checked_sub(pass.left()),
    }
}

fn assert_came(
    rt: &impl Abort,
    alloc: Global,
    came: &Came,
    row: &Row<'_>,
    number: usize,
) -> Result<(), Fail> {
    let replies = joined(alloc, row.replies)?;
    assert!(rt;
        came.end == row.end && came.entries == Some(row.entries),
        "case {number}: {:?}, {:?}",
        came.end,
        came.entries
    );
    assert!(rt;
        came.written == replies,
        "case {number}: {:?}",
        came.written
    );
    Ok(())
}

fn assert_case<N: Named, R: Wait + Abort>(
    rt: &R,
    alloc: Global,
    store: &Store<MemDisk, N>,
    pass: &mut StorePass<N>,
    case: &Case<'_>,
    number: usize,
) -> Result<(), Fail> {
    let link = link_of(alloc, case)?;
    let came = serve_link(rt, alloc, store, pass, link, case.way.step);
    assert_came(rt, alloc, &came, &case.row, number)
}

// Serves each of the links.
fn assert_links<N: Named, R: Wait + Abort>(
    rt: &R,
    alloc: Global,
    store: &Store<MemDisk, N>,
    pass: &mut StorePass<N>,
    cases: &[Case<'_>],
) -> Result<(), Fail> {
    for (number, case) in cases.iter().enumerate() {
        assert_case(rt, alloc, store, pass, case, number)?;
    }
    Ok(())
}

// Puts the points of metric lines.
fn put_lines<N: Named, R: Wait + Abort>(
    rt: &R,
    alloc: Global,
    store: &Store<MemDisk, N>,
    pass: &mut StorePass<N>,
    lines: &[&[u8]],
) {
    for line in lines {
        put_line(rt, alloc, store, pass, line);
    }
}

// Puts the point of a metric line.
fn put_line<N: Named, R: Wait + Abort>(
    rt: &R,
    alloc: Global,
    store: &Store<MemDisk, N>,
    pass: &mut StorePass<N>,
    line: &[u8],
) {
    let Ok(datum) = read_line(alloc, line, NOW) else {
        return;
    };
    if has_room(pass) {
        assert!(rt; store.put(rt, pass, &datum) == Put::Stored);
    }
}

// Drains all that is pending.
fn drain<N: Named, R: Wait>(rt: &R, store: &Store<MemDisk, N>, pass: &mut StorePass<N>) {
    if has_room(pass) {
        let _ = store.drain_all(rt, pass, NOW);
    }
}

// Serves each of the links over a store into which lines were put, and gives the disks back.
fn serve_store<N: Named, R: Wait + Abort>(
    rt: &R,
    alloc: Global,
    store: Store<MemDisk, N>,
    passes: Vec<Pass>,
    lines: &[&[u8]],
    cases: &[Case<'_>],
) -> Result<Vec<MemDisk>, Fail>
    requires one { vec_len passes ≡ 1 }
    requires passes { N.passes ≡ 1 }
    requires new { AreNewPasses N.table passes.items }
{
    let mut passes = passes;
    let Some(pass) = passes.pop() else {
        unreachable!()
    };
    let mut pass = StorePass::new(pass);
    put_lines(rt, alloc, &store, &mut pass, lines);
    assert_links(rt, alloc, &store, &mut pass, cases)?;
    drain(rt, &store, &mut pass);
    passes.push(pass.into_pass())?;
    Ok(store.close(rt, passes).disks)
}

fn serve_parts<N: Named, R: Wait + Abort>(
    rt: &R,
    alloc: Global,
    parts: Parts<MemDisk>,
    passes: Vec<Pass>,
    lines: &[&[u8]],
    cases: &[Case<'_>],
) -> Result<Vec<MemDisk>, Fail>
    requires fresh { IsFresh N.table N.passes N.halves N.told N.start N.faults parts }
    requires one { vec_len passes ≡ 1 }
    requires passes { N.passes ≡ 1 }
    requires new { AreNewPasses N.table passes.items }
{
    match Store::<MemDisk, N>::start(alloc, parts) {
        Ok(store) => serve_store(rt, alloc, store, passes, lines, cases),
        Err(_) => Err(Fail::new("there is memory")),
    }
}

fn serve_shards<R: Wait + Abort>(
    rt: &R,
    alloc: Global,
    started: Started<MemDisk>,
    lines: &[&[u8]],
    cases: &[Case<'_>],
) -> Result<Vec<MemDisk>, Fail>
    requires { AreReadyShards (told_at started.shards.items) (opening_of started.shards.items)
        (faults_at started.shards.items) started.shards.items }
{
    let Started { shards, .. } = started;
    match make(alloc, CLASSES, 1) {
        Ok((order, tails, passes)) => {
            let parts = Parts {
                order,
                tails,
                pairs: make_pairs(alloc)?,
                shards,
            };
            serve_parts::<Brand, R>(rt, alloc, parts, passes, lines, cases)
        }
        Err(_) => Err(Fail::new("there is memory")),
    }
}

fn serve_disks<R: Wait + Abort>(
    rt: &R,
    alloc: Global,
    disks: Vec<MemDisk>,
    given: &Given<'_>,
    cases: &[Case<'_>],
) -> Result<Vec<MemDisk>, Fail> {
    if disks.len() != CLASSES as usize {
        return Err(Fail::new("there are sixteen disks"));
    }
    let setup = Setup {
        rules: Rules::read(alloc, given.schemas, b"")?,
        limit: 100,
        strategy: Strategy::Naive,
        redo: false,
    };
    match start_all(alloc, disks, &setup) {
        Ok(started) => serve_shards(rt, alloc, started, given.lines, cases),
        Err(_) => Err(Fail::new("no file is damaged")),
    }
}

fn empty_disks(alloc: Global) -> Result<Vec<MemDisk>, AllocError> {
    let mut disks = Vec::new(alloc);
    for _class in 0..CLASSES {
        disks.push(MemDisk::new(alloc, 10_000_000))?;
    }
    Ok(disks)
}

// Links over a store without files.
pub(crate) fn assert_cases<R: Wait + Abort>(
    rt: &R,
    alloc: Global,
    given: &Given<'_>,
    cases: &[Case<'_>],
) -> Result<(), Fail> {
    let disks = empty_disks(alloc)?;
    let _ = serve_disks(rt, alloc, disks, given, cases)?;
    Ok(())
}

// Links that come whole, over these disks.
pub(crate) fn assert_over<R: Wait + Abort>(
    rt: &R,
    alloc: Global,
    disks: Vec<MemDisk>,
    given: &Given<'_>,
    rows: &[Row<'_>],
) -> Result<(), Fail> {
    let mut cases = Vec::new(alloc);
    for row in rows {
        cases.push(Case {
            row: *row,
            way: WHOLE,
        })?;
    }
    let _ = serve_disks(rt, alloc, disks, given, &cases)?;
    Ok(())
}

// The same over a store without files.
pub(crate) fn assert_rows<R: Wait + Abort>(
    rt: &R,
    alloc: Global,
    given: &Given<'_>,
    rows: &[Row<'_>],
) -> Result<(), Fail> {
    let disks = empty_disks(alloc)?;
    assert_over(rt, alloc, disks, given, rows)
}

// Each of these links over a store of its own.
pub(crate) fn assert_each<R: Wait + Abort>(
    rt: &R,
    alloc: Global,
    given: &Given<'_>,
    rows: &[Row<'_>],
) -> Result<(), Fail> {
    for row in rows.chunks(1) {
        assert_rows(rt, alloc, given, row)?;
    }
    Ok(())
}

// Disks into which one point was drained.
pub(crate) fn drained_disks<R: Wait + Abort>(rt: &R, alloc: Global) -> Result<Vec<MemDisk>, Fail> {
    let disks = empty_disks(alloc)?;
    serve_disks(rt, alloc, disks, &POINT, &[])
}

// ---- what several tests bring and want

// Nothing.
pub(crate) const NONE: Given<'static> = Given {
    schemas: b"",
    lines: &[],
};

// One point.
pub(crate) const POINT: Given<'static> = Given {
    schemas: b"",
    lines: &[b"a.b 1.5 1700000000"],
};

pub(crate) const GET: &[u8] =
    b"GET /render?target=a.b&from=1699999930&until=1700000030 HTTP/1.1\r\nHost: x\r\n\r\n";

pub(crate) const FOUND: &[u8] =
    b"HTTP/1.1 200 OK\r\nContent-Type: application/json\r\nContent-Length: 54\r\n\r\n[{\"target\": \"a.b\", \"datapoints\": [[1.5, 1699999980]]}]";

pub(crate) const NO_ROUTE: &[u8] = b"GET /x HTTP/1.1\r\n\r\n";

pub(crate) const NOT_FOUND: &[u8] = b"HTTP/1.1 404 Not Found\r\nContent-Length: 0\r\n\r\n";

pub(crate) const NO_REQUEST: &[u8] =
    b"HTTP/1.1 400 Bad Request\r\nContent-Length: 0\r\nConnection: close\r\n\r\n";
