// Links in memory, whose lines go into a store over disks in memory.
ghost use Rattle.std.specs.Prelude.{◌≡◌, ◌<◌, IfOk, vec_len};
ghost use Rattle.shard_set.specs.Disks.{faults_at, told_at};
ghost use Rattle.shard_core.specs.Started.{AreReadyShards};
ghost use Rattle.shard_set.specs.OpeningState.{opening_of};
ghost use Rattle.shared_history.specs.Parts.{AreNewPasses};
ghost use Rattle.shared_store.specs.Starts.{IsFresh};

use crate::moving_clock::MovingClock;
use aggregate_front::AggRules;
use clock_watch::Watch;
use drain_order::Strategy;
use http_front::serve_http;
use line_front::*;
use line_service::{ServiceEnd, Stop};
use metric_path::CLASSES;
use outside_io::{FixedClock, MemDisk, MemLink, MemSink, MemSource};
use read_trace::Reads;
use schema_rules::Rules;
use shard_set::{Setup, Started, start_all};
use shared_history::{Pass, make};
use shared_store::{Named, Parts, Store, StorePass, Tally, make_pairs};
use std::alloc::{AllocError, Global};
use std::marker::Brand;
use std::process::Abort;
use std::sync::Wait;
use std::test::Fail;

// The moment of the clock.
const NOW: u64 = 1_700_000_030;

// The moment of a question.
const LATER: u64 = 1_700_000_430;

// How many bytes the answer to a question may take.
const ANSWER_BYTES: u64 = 1_000_000;

// What links of metric lines go into, and what is asked when they have ended.
#[derive(Clone, Copy)]
struct Given<'a> {
    // How many points of a class may be pending.
    limit: u64,
    // The file of the aggregation rules.
    rules: &'a [u8],
    // A link of requests.
    question: &'a [u8],
    // By how many seconds the clock moves on whenever it is read.
    step: u64,
}

// No rules, no question, and a clock that stands still.
const fn plain(limit: u64) -> Given<'static>
    ensures { result.limit ≡ limit }
{
    Given {
        limit,
        rules: b"",
        question: b"",
        step: 0,
    }
}

// What the links of a run came to.
#[derive(Drop)]
struct Came {
    // Why the last link ended, and its lines.
    cause: LineCause,
    counts: Counts,
    // The entries of the history.
    tally: Tally,
    // How many bytes were written to the links.
    written: usize,
    // What was written to the link of the question.
    answer: Vec<u8>,
}

// ---- a run

fn sixteen_disks(alloc: Global) -> Result<Vec<MemDisk>, AllocError>
    ensures { IfOk result (λ disks. vec_len disks ≡ 16) }
{
    let mut disks = Vec::new(alloc);
    for _k in 0..CLASSES {
        disks.push(MemDisk::new(alloc, 0))?;
    }
    Ok(disks)
}

// The shards of all classes over empty disks. So many points of a class may be pending.
fn start_shards(alloc: Global, limit: u64) -> Result<Started<MemDisk>, Fail>
    requires { 0 < limit }
    ensures { IfOk result (λ started. AreReadyShards (told_at started.shards.items)
        (opening_of started.shards.items) (faults_at started.shards.items) started.shards.items) }
{
    let setup = Setup {
        rules: Rules::read(alloc, b"", b"")?,
        limit,
        strategy: Strategy::Naive,
        redo: false,
    };
    match start_all(alloc, sixteen_disks(alloc)?, &setup) {
        Ok(started) => Ok(started),
        Err(_) => Err(Fail::new("empty disks can be started from")),
    }
}

// Serves the links one after the other, by one pass, and then the question.
fn serve_all<N: Named, R: Wait>(
    rt: &R,
    alloc: Global,
    store: &Store<MemDisk, N>,
    pass: StorePass<N>,
    links: Vec<MemLink>,
    rules: &AggRules,
    given: &Given<'_>,
) -> Result<Came, AllocError> {
    let clock = MovingClock::new(NOW, given.step);
    let mut pass = pass;
    let mut watch = Watch::new();
    let mut cause = LineCause::Closed;
    let mut counts = Counts::none();
    let mut written: usize = 0;
    for link in links {
        let mut link = link;
        let served = serve_lines(rt, alloc, store, pass, &mut watch, &mut link, &clock, rules);
        pass = served.pass;
        cause = served.cause;
        counts = served.counts;
        written = written.saturating_add(link.sink.bytes().len());
    }
    let tally = store.tally(rt, &mut pass);
    let answer = ask(rt, alloc, store, &mut pass, given.question)?;
    Ok(Came {
        cause,
        counts,
        tally,
        written,
        answer,
    })
}

// What is written to a link of requests.
fn ask<N: Named, R: Wait>(
    rt: &R,
    alloc: Global,
    store: &Store<MemDisk, N>,
    pass: &mut StorePass<N>,
    question: &[u8],
) -> Result<Vec<u8>, AllocError> {
    let mut link = link_of(alloc, source_of(alloc, question)?);
    let clock = FixedClock::new(LATER);
    let mut watch = Watch::new();
    let mut reads = Reads::new();
    let _ = serve_http(
        rt,
        alloc,
        store,
        pass,
        &mut watch,
        &mut link,
        &mut reads,
        &clock,
        ANSWER_BYTES,
    );
    Ok(link.sink.into_bytes())
}

fn run_store<N: Named, R: Wait>(
    rt: &R,
    alloc: Global,
    parts: Parts<MemDisk>,
    passes: Vec<Pass>,
    links: Vec<MemLink>,
    rules: &AggRules,
    given: &Given<'_>,
) -> Result<Came, Fail>
    requires fresh { IsFresh N.table N.passes N.halves N.told N.start N.faults parts }
    requires new { AreNewPasses N.table passes.items }
{
    let mut passes = passes;
    let Some(pass) = passes.pop() else {
        return Err(Fail::new("there is a pass"));
    };
    let pass = StorePass::new(pass);
    match Store::<MemDisk, N>::start(alloc, parts) {
        Ok(store) => Ok(serve_all(rt, alloc, &store, pass, links, rules, given)?),
        Err(_) => Err(Fail::new("there is memory for a store")),
    }
}

// Serves the links into a store that keeps nothing yet, and then the question.
fn run_links<R: Wait>(
    rt: &R,
    alloc: Global,
    links: Vec<MemLink>,
    rules: &AggRules,
    given: &Given<'_>,
) -> Result<Came, Fail>
    requires { 0 < given.now.limit }
{
    let Started { shards, .. } = start_shards(alloc, given.limit)?;
    let (order, tails, passes) = make(alloc, CLASSES, 1)?;
    let parts = Parts {
        order,
        tails,
        pairs: make_pairs(alloc)?,
        shards,
    };
    run_store::<Brand, R>(rt, alloc, parts, passes, links, rules, given)
}

fn read_rules(alloc: Global, text: &[u8]) -> Result<AggRules, Fail> {
    match AggRules::read(alloc, text) {
        Ok(rules) => Ok(rules),
        Err(_) => Err(Fail::new("the rules can be read")),
    }
}

fn run<R: Wait>(rt: &R, alloc: Global, given: &Given<'_>, links: Vec<MemLink>) -> Result<Came, Fail>
    requires { 0 < given.now.limit }
{
    let rules = read_rules(alloc, given.rules)?;
    run_links(rt, alloc, links, &rules, given)
}

// ---- links

fn link_of(alloc: Global, source: MemSource) -> MemLink {
    MemLink {
        source,
        sink: MemSink::new(alloc),
    }
}

fn source_of(alloc: Global, text: &[u8]) -> Result<MemSource, AllocError> {
    Ok(MemSource::new(alloc, Vec::from_slice(alloc, text)?))
}

fn run_one<R: Wait>(rt: &R, alloc: Global, limit: u64, source: MemSource) -> Result<Came, Fail>
    requires { 0 < limit }
{
    let mut links = Vec::new(alloc);
    links.push(link_of(alloc, source))?;
    run(rt, alloc, &plain(limit), links)
}

// ---- what is wanted

// The link ended so, with these counts, and its puts alone were entered.
fn assert_came(rt: &impl Abort, came: &Came, cause: LineCause, counts: Counts, case: usize) {
    let tally = Tally {
        stored: counts.stored,
        replaced: counts.replaced,
        full: counts.full,
        drains: 0,
    };
    assert!(rt; came.cause == cause && came.written == 0, "{case}");
    assert_eq!(rt; came.counts, counts, "{case}");
    assert!(rt; came.tally == tally, "{case}");
}

fn stored(count: u64) -> Counts {
    let mut counts = Counts::none();
    counts.stored = count;
    counts
}

// ---- the tests

// Two points that are stored, each replaced by the next; the clock gives the moment of the second.
// Then two lines that have not three fields, one without a legal path, one without a value, two
// without a time, and one that has not ended when the link ends.
const LINES: &[u8] = b"a.b 1500 1700000000\na.b 7 1700000000.9\na.b 1 -1\r\na.b 2 1700000030\n\n\
    a b\na..b 1 1\na.b x 1700000000\na.b 1 x\na.b 1 5000000000\na.c 5 1700000000";

fn assert_cut<R: Wait + Abort>(rt: &R, alloc: Global, cut: usize) -> Result<(), Fail> {
    let source = source_of(alloc, LINES)?.cut_at(Vec::from_slice(alloc, &[cut])?);
    let came = run_one(rt, alloc, 1_000, source)?;
    let counts = Counts {
        stored: 2,
        replaced: 2,
        full: 0,
        fields: 2,
        path: 1,
        value: 1,
        time: 2,
        long: 0,
    };
    assert_came(rt, &came, LineCause::Closed, counts, cut);
    Ok(())
}

#[test]
fn lines_are_put_or_counted_wherever_the_link_is_cut(rt: HostRuntime) -> Result<(), Fail> {
    for cut in 0..=LINES.len() {
        assert_cut(&rt, rt.alloc(), cut)?;
    }
    Ok(())
}

// Two lines of 15 bytes each, of which a read brings two bytes.
const PAIRS: &[u8] = b"a 1 1700000000\nb 1 1700000000\n";

// The lines that have ended before the read with this number are stored, if it fails.
fn assert_failing<R: Wait + Abort>(rt: &R, alloc: Global, read: u64) -> Result<(), Fail> {
    let failing = Vec::from_slice(alloc, &[read])?;
    let source = source_of(alloc, PAIRS)?.at_most(2).failing(failing);
    let came = run_one(rt, alloc, 1_000, source)?;
    let lines = match read {
        0..=8 => 0,
        9..=15 => 1,
        _ => 2,
    };
    assert_came(
        rt,
        &came,
        LineCause::ReadFault,
        stored(lines),
        read as usize,
    );
    Ok(())
}

#[test]
fn a_failed_read_ends_the_link_behind_its_lines(rt: HostRuntime) -> Result<(), Fail> {
    for read in 1..=16 {
        assert_failing(&rt, rt.alloc(), read)?;
    }
    Ok(())
}

// A line of so many bytes, and then one that is stored.
fn assert_long<R: Wait + Abort>(
    rt: &R,
    alloc: Global,
    size: usize,
    fields: u64,
    long: u64,
) -> Result<(), Fail> {
    let mut text = vec![in alloc; b'x'; size]?;
    text.extend_from_slice(b"\na 1 1700000000\n")?;
    let came = run_one(rt, alloc, 1_000, MemSource::new(alloc, text))?;
    let mut counts = stored(1);
    counts.fields = fields;
    counts.long = long;
    assert_came(rt, &came, LineCause::Closed, counts, size);
    Ok(())
}

#[test]
fn a_line_that_is_too_long_is_counted(rt: HostRuntime) -> Result<(), Fail> {
    for (size, fields, long) in [(16_384, 1, 0), (16_385, 0, 1), (200_000, 0, 1)] {
        assert_long(&rt, rt.alloc(), size, fields, long)?;
    }
    Ok(())
}

#[test]
fn a_point_that_finds_its_class_full_is_counted(rt: HostRuntime) -> Result<(), Fail> {
    let text = b"a 1 1700000000\na 2 1700000000\na 3 1700000060\n";
    let came = run_one(&rt, rt.alloc(), 1, source_of(rt.alloc(), text)?)?;
    let mut counts = stored(1);
    counts.replaced = 1;
    counts.full = 1;
    assert_came(&rt, &came, LineCause::Closed, counts, 0);
    Ok(())
}

// Serves so many copies of some lines, of which at most so many bytes come at once, with a line that has not three fields
// behind the second copy.
fn run_copies<R: Wait>(
    rt: &R,
    alloc: Global,
    limit: u64,
    lines: &[u8],
    copies: usize,
    most: usize,
) -> Result<Came, Fail>
    requires limit { 0 < limit }
    requires most { 0 < most }
{
    let mut text = Vec::new(alloc);
    for k in 0..copies {
        if k == 2 {
            text.extend_from_slice(b"a b\n")?;
        }
        text.extend_from_slice(lines)?;
    }
    run_one(rt, alloc, limit, MemSource::new(alloc, text).at_most(most))
}

// Ten points of ten metrics.
const TEN: &[u8] = b"a.a 1 1700000000\na.b 1 1700000000\na.c 1 1700000000\na.d 1 1700000000\n\
    a.e 1 1700000000\na.f 1 1700000000\na.g 1 1700000000\na.h 1 1700000000\n\
    a.i 1 1700000000\na.j 1 1700000000\n";

#[test]
fn many_lines_of_a_piece_are_handled_as_if_one_by_one(rt: HostRuntime) -> Result<(), Fail> {
    let cases = [
        (4, 65_536, 30),
        (30, 65_536, 290),
        (30, 700, 290),
        (30, 64, 290),
    ];
    for (copies, most, replaced) in cases {
        let came = run_copies(&rt, rt.alloc(), 1_000, TEN, copies, most)?;
        let mut counts = stored(10);
        counts.replaced = replaced;
        counts.fields = 1;
        assert_came(&rt, &came, LineCause::Closed, counts, most);
    }
    Ok(())
}

#[test]
fn points_of_a_piece_that_find_their_class_full_are_counted(rt: HostRuntime) -> Result<(), Fail> {
    let lines = b"a 1 1700000000\na 2 1700000060\n";
    let came = run_copies(&rt, rt.alloc(), 1, lines, 40, 65_536)?;
    let mut counts = stored(1);
    counts.replaced = 39;
    counts.full = 40;
    counts.fields = 1;
    assert_came(&rt, &came, LineCause::Closed, counts, 0);
    Ok(())
}

// Two links one after the other.
fn run_two<R: Wait>(rt: &R, alloc: Global, first: &[u8], second: &[u8]) -> Result<Came, Fail> {
    let mut links = Vec::new(alloc);
    links.push(link_of(alloc, source_of(alloc, first)?))?;
    links.push(link_of(alloc, source_of(alloc, second)?))?;
    run(rt, alloc, &plain(1_000), links)
}

#[test]
fn a_pass_serves_one_link_after_the_other(rt: HostRuntime) -> Result<(), Fail> {
    let came = run_two(
        &rt,
        rt.alloc(),
        b"a 1 1700000000\nx\n",
        b"a 2 1700000000\na 3 -1\n",
    )?;
    let mut counts = stored(1);
    counts.replaced = 1;
    assert_eq!(rt; came.counts, counts);
    assert!(rt; came.tally.stored == 2 && came.tally.replaced == 1);
    Ok(())
}

// What the minutes from that of the clock's first moment on have.
const MINUTES: &[u8] =
    b"GET /render?target=a.b&format=raw&from=1699999930&until=1700000150 HTTP/1.1\r\nHost: x\r\n\r\n";

#[test]
fn a_line_without_a_time_has_the_moment_at_which_it_is_read(rt: HostRuntime) -> Result<(), Fail> {
    let given = Given {
        question: MINUTES,
        step: 60,
        ..plain(1_000)
    };
    let alloc = rt.alloc();
    let mut links = Vec::new(alloc);
    links.push(link_of(alloc, source_of(alloc, b"a.b 1 -1\na.b 2 -1\n")?))?;
    links.push(link_of(alloc, source_of(alloc, b"a.b 4 -1\n")?))?;
    let came = run(&rt, alloc, &given, links)?;
    assert!(rt; came.counts == stored(1) && came.tally.stored == 3);
    assert!(rt;
        came.answer
            .ends_with(b"\r\n\r\na.b,1699999980,1700000160,60|1.0,2.0,4.0\n"),
        "{:?}",
        came.answer
    );
    Ok(())
}

// So many links of so many lines without a time each, of which at most so many bytes come at once.
fn bare_links(
    alloc: Global,
    links: usize,
    lines: usize,
    most: usize,
) -> Result<Vec<MemLink>, AllocError>
    requires { 0 < most }
{
    let mut all = Vec::new(alloc);
    for _link in 0..links {
        let mut text = Vec::new(alloc);
        for _line in 0..lines {
            text.extend_from_slice(b"a.b 1 -1\n")?;
        }
        all.push(link_of(alloc, MemSource::new(alloc, text).at_most(most)))?;
    }
    Ok(all)
}

// All lines were stored: a point at the moment of another one would have replaced it.
fn assert_moments<R: Wait + Abort>(
    rt: &R,
    alloc: Global,
    links: Vec<MemLink>,
    points: u64,
) -> Result<(), Fail> {
    let given = Given {
        step: 1,
        ..plain(1_000)
    };
    let came = run(rt, alloc, &given, links)?;
    assert!(rt;
        came.tally.stored == points && came.tally.replaced == 0,
        "{points}"
    );
    Ok(())
}

#[test]
fn each_line_without_a_time_has_a_moment_of_its_own(rt: HostRuntime) -> Result<(), Fail> {
    // one by one, as a batch, as several batches, cut anyhow, and on several links
    let cases = [
        (1, 3, 65_536, 3),
        (1, 40, 65_536, 40),
        (1, 600, 65_536, 600),
        (1, 500, 7, 500),
        (4, 70, 300, 280),
    ];
    for (links, lines, most, points) in cases {
        let links = bare_links(rt.alloc(), links, lines, most)?;
        assert_moments(&rt, rt.alloc(), links, points)?;
    }
    Ok(())
}

// ---- rules

// The requests of all hosts of an application, by the minute.
const RULES: &[u8] = b"all.<app>.requests (60) = sum web.<app>.*.requests\n";

// What the rule writes for the application `x`, at its first minute.
const QUESTION: &[u8] =
    b"GET /render?target=all.x.requests&from=1700000050&until=1700000150 HTTP/1.1\r\nHost: x\r\n\r\n";

// Points of six minutes one after the other: the sixth minute has the first emitted.
const SIX: &[u8] =
    b"web.x.h1.requests 1 1700000100\nweb.x.h1.requests 1 1700000160\nweb.x.h1.requests 1 1700000220\n\
    web.x.h1.requests 1 1700000280\nweb.x.h1.requests 1 1700000340\nweb.x.h1.requests 1 1700000400\n";

// Links by the rule, and what is to come of them.
#[derive(Clone, Copy)]
struct Row<'a> {
    links: &'a [&'a [u8]],
    // Which reads of each link fail.
    failing: &'a [u64],
    // How the last link ends, and how many of its lines were stored and how many replaced a point.
    cause: LineCause,
    stored: u64,
    replaced: u64,
    // The same of all that was put, also of what the rule emitted.
    all_stored: u64,
    all_replaced: u64,
    // How the answer to the question ends.
    answer: &'a [u8],
}

fn links_of(alloc: Global, row: &Row<'_>) -> Result<Vec<MemLink>, AllocError> {
    let mut links = Vec::new(alloc);
    for text in row.links {
        let failing = Vec::from_slice(alloc, row.failing)?;
        let source = source_of(alloc, text)?.failing(failing);
        links.push(link_of(alloc, source))?;
    }
    Ok(links)
}

fn run_row<R: Wait>(rt: &R, alloc: Global, row: &Row<'_>) -> Result<Came, Fail> {
    let given = Given {
        rules: RULES,
        question: QUESTION,
        ..plain(1_000)
    };
    run(rt, alloc, &given, links_of(alloc, row)?)
}

fn assert_row_came(rt: &impl Abort, came: &Came, row: &Row<'_>, number: usize) {
    let mut counts = stored(row.stored);
    counts.replaced = row.replaced;
    let tally = Tally {
        stored: row.all_stored,
        replaced: row.all_replaced,
        full: 0,
        drains: 0,
    };
    assert!(rt; came.cause == row.cause && came.written == 0, "{number}");
    assert!(rt;
        came.counts == counts && came.tally == tally,
        "{number}: {:?}",
        came.counts
    );
    assert!(rt;
        came.answer.ends_with(row.answer),
        "{number}: {:?}",
        came.answer
    );
}

fn assert_row<R: Wait + Abort>(
    rt: &R,
    alloc: Global,
    row: &Row<'_>,
    number: usize,
) -> Result<(), Fail> {
    let came = run_row(rt, alloc, row)?;
    assert_row_came(rt, &came, row, number);
    Ok(())
}

// Two hosts of one minute, in one link and in two.
const SUM: Row<'static> = Row {
    links: &[b"web.x.h1.requests 1 1700000100\nweb.x.h2.requests 2 1700000110\n"],
    failing: &[],
    cause: LineCause::Closed,
    stored: 2,
    replaced: 0,
    all_stored: 3,
    all_replaced: 0,
    answer: b"[[3.0, 1700000100]]}]",
};

const APART: Row<'static> = Row {
    links: &[
        b"web.x.h1.requests 1 1700000100\n",
        b"web.x.h2.requests 2 1700000110\n",
    ],
    stored: 1,
    all_replaced: 1,
    answer: b"[[2.0, 1700000100]]}]",
    ..SUM
};

// A read that fails behind the lines, of one minute and of six.
const FAILED: Row<'static> = Row {
    failing: &[2],
    cause: LineCause::ReadFault,
    all_stored: 2,
    answer: b"\r\n\r\n[]",
    ..SUM
};

const SIX_FAILED: Row<'static> = Row {
    links: &[SIX],
    failing: &[2],
    cause: LineCause::ReadFault,
    stored: 6,
    replaced: 0,
    all_stored: 7,
    all_replaced: 0,
    answer: b"[[1.0, 1700000100]]}]",
};

#[test]
fn what_rules_emit_is_put_and_not_counted(rt: HostRuntime) -> Result<(), Fail> {
    let rows = [SUM, APART, FAILED, SIX_FAILED];
    for (number, row) in rows.iter().enumerate() {
        assert_row(&rt, rt.alloc(), row, number)?;
    }
    Ok(())
}

// Serves the points of six minutes and one line more.
fn assert_behind_six<R: Wait + Abort>(
    rt: &R,
    alloc: Global,
    line: &[u8],
    answer: &[u8],
) -> Result<(), Fail> {
    let mut text = Vec::from_slice(alloc, SIX)?;
    text.extend_from_slice(line)?;
    let row = Row {
        links: &[&text],
        failing: &[],
        cause: LineCause::Closed,
        stored: 6,
        replaced: 1,
        all_stored: 12,
        all_replaced: 1,
        answer,
    };
    assert_row(rt, alloc, &row, 0)
}

// The point is put, and comes to no minute: its own was emitted.
#[test]
fn a_point_of_a_minute_that_was_emitted_is_passed_over(rt: HostRuntime) -> Result<(), Fail> {
    let line = b"web.x.h1.requests 9 1700000100\n";
    assert_behind_six(&rt, rt.alloc(), line, b"[[1.0, 1700000100]]}]")
}

// It replaces what the sixth line had emitted, and is counted as one that does.
#[test]
fn what_a_line_emits_is_put_before_the_next_line(rt: HostRuntime) -> Result<(), Fail> {
    let line = b"all.x.requests 5 1700000100\n";
    assert_behind_six(&rt, rt.alloc(), line, b"[[5.0, 1700000100]]}]")
}

// ---- many lines by rules

// 600 points of seven hosts, each three seconds behind the one before: those of thirty minutes, of
// which twenty-five are emitted as the lines come.
fn many_lines(alloc: Global) -> Result<Vec<u8>, AllocError> {
    let mut text = Vec::new(alloc);
    for k in 0..600_u32 {
        let time = 1_700_000_100 + 3 * k;
        let line = format!(in alloc; "web.x.h{}.requests {k} {time}\n", k % 7)?;
        text.extend_from_slice(line.as_bytes())?;
    }
    Ok(text)
}

// Serves a link, of which at most so many bytes come at once.
fn run_text<R: Wait>(
    rt: &R,
    alloc: Global,
    given: &Given<'_>,
    text: Vec<u8>,
    most: usize,
) -> Result<Came, Fail>
    requires limit { 0 < given.now.limit }
    requires most { 0 < most }
{
    let mut links = Vec::new(alloc);
    let source = MemSource::new(alloc, text).at_most(most);
    links.push(link_of(alloc, source))?;
    run(rt, alloc, given, links)
}

// Serves them.
fn run_many<R: Wait>(rt: &R, alloc: Global, most: usize) -> Result<Came, Fail>
    requires { 0 < most }
{
    let given = Given {
        rules: RULES,
        question: QUESTION,
        ..plain(1_000)
    };
    run_text(rt, alloc, &given, many_lines(alloc)?, most)
}

// The first minute has the values 0 to 19.
static MANY: Row<'static> = Row {
    links: &[],
    stored: 600,
    all_stored: 630,
    answer: b"[[190.0, 1700000100]]}]",
    ..SUM
};

#[test]
fn many_lines_of_a_piece_come_to_the_rules_as_if_one_by_one(rt: HostRuntime) -> Result<(), Fail> {
    for most in [65_536, 700, 20] {
        let came = run_many(&rt, rt.alloc(), most)?;
        assert_row_came(&rt, &came, &MANY, most);
    }
    Ok(())
}

// ---- many points of one line

// Twenty rules for the requests of an application.
fn twenty_rules(alloc: Global) -> Result<Vec<u8>, AllocError> {
    let mut text = Vec::new(alloc);
    for k in 0..20_u32 {
        let rule = format!(in alloc; "r{k}.<app>.requests (60) = sum web.<app>.*.requests\n")?;
        text.extend_from_slice(rule.as_bytes())?;
    }
    Ok(text)
}

// Points of six minutes, of which the sixth has one emitted for each rule. One of the same metric
// and time as such a point stands before them, and one for each behind them.
fn around_six(alloc: Global) -> Result<Vec<u8>, AllocError> {
    let mut text = Vec::from_slice(alloc, b"r3.x.requests 4 1700000100\n")?;
    text.extend_from_slice(SIX)?;
    for k in 0..20_u32 {
        let line = format!(in alloc; "r{k}.x.requests 5 1700000100\n")?;
        text.extend_from_slice(line.as_bytes())?;
    }
    Ok(text)
}

fn run_around<R: Wait>(rt: &R, alloc: Global, most: usize) -> Result<Came, Fail>
    requires { 0 < most }
{
    let rules = twenty_rules(alloc)?;
    let given = Given {
        rules: &rules,
        question: b"GET /render?target=r3.x.requests&from=1700000050&until=1700000150 HTTP/1.1\r\nHost: x\r\n\r\n",
        ..plain(1_000)
    };
    run_text(rt, alloc, &given, around_six(alloc)?, most)
}

// The point before them is replaced by the emitted one, and each emitted one by that behind it. Of
// each rule five minutes are open at the end.
static AROUND: Row<'static> = Row {
    links: &[],
    stored: 7,
    replaced: 20,
    all_stored: 126,
    all_replaced: 21,
    answer: b"[[5.0, 1700000100]]}]",
    ..SUM
};

#[test]
fn all_that_a_line_emits_is_put_between_the_lines(rt: HostRuntime) -> Result<(), Fail> {
    for most in [65_536, 700, 20] {
        let came = run_around(&rt, rt.alloc(), most)?;
        assert_row_came(&rt, &came, &AROUND, most);
    }
    Ok(())
}

// A point of each of 300 applications.
fn many_applications(alloc: Global) -> Result<Vec<u8>, AllocError> {
    let mut text = Vec::new(alloc);
    for k in 0..300_u32 {
        let line = format!(in alloc; "web.x{k}.h1.requests {k} 1700000100\n")?;
        text.extend_from_slice(line.as_bytes())?;
    }
    Ok(text)
}

fn run_applications<R: Wait>(rt: &R, alloc: Global) -> Result<Came, Fail> {
    let given = Given {
        rules: RULES,
        question: b"GET /render?target=all.x299.requests&from=1700000050&until=1700000150 HTTP/1.1\r\nHost: x\r\n\r\n",
        ..plain(1_000)
    };
    run_text(rt, alloc, &given, many_applications(alloc)?, 65_536)
}

// As many outputs are open at the end.
static APPLICATIONS: Row<'static> = Row {
    links: &[],
    stored: 300,
    all_stored: 600,
    answer: b"[[299.0, 1700000100]]}]",
    ..SUM
};

#[test]
fn all_that_is_open_at_the_end_of_a_link_is_put(rt: HostRuntime) -> Result<(), Fail> {
    let came = run_applications(&rt, rt.alloc())?;
    assert_row_came(&rt, &came, &APPLICATIONS, 300);
    Ok(())
}
