// Links that come in pieces, take little at a time, or fail.
use crate::http_front_kit::Piece::{Front, One, Times};
use crate::http_front_kit::{
    Case, FOUND, GET, Given, NO_REQUEST, NO_ROUTE, NONE, NOT_FOUND, POINT, Pieces, Row, WHOLE, Way,
    assert_cases, assert_over, drained_disks, joined,
};
use http_front::HttpEnd;
use itoa::Buffer;
use outside_io::MemDisk;
use std::alloc::{AllocError, Global};
use std::mem;
use std::process::Abort;
use std::sync::Wait;
use std::test::Fail;

// The class of `a.b`.
const CLASS: usize = 12;

fn cut_at<'a>(row: Row<'a>, cuts: &'a [usize]) -> Case<'a> {
    Case {
        row,
        way: Way { cuts, ..WHOLE },
    }
}

// A link that comes whole, cut at all of these places, and cut at each in turn.
fn cut_cases<'a>(
    alloc: Global,
    row: Row<'a>,
    places: &'a [usize],
) -> Result<Vec<Case<'a>>, AllocError> {
    let mut cases = vec![in alloc; cut_at(row, &[]), cut_at(row, places)]?;
    for place in places.chunks(1) {
        cases.push(cut_at(row, place))?;
    }
    Ok(cases)
}

// A link comes whole, byte by byte, and cut at each of its places in turn.
fn assert_cut<R: Wait + Abort>(
    rt: &R,
    alloc: Global,
    given: &Given<'_>,
    row: Row<'_>,
) -> Result<(), Fail> {
    let len = joined(alloc, row.stream)?.len();
    let places: Vec<usize> = (1..len).collect(alloc)?;
    let cases = cut_cases(alloc, row, &places)?;
    assert_cases(rt, alloc, given, &cases)
}

const GRAFANA: &[u8] =
    b"POST /render HTTP/1.1\r\nHost: localhost\r\nContent-Type: application/x-www-form-urlencoded\r\nContent-Length: 83\r\n\r\ntarget=alias(scale(a.*,0.001),'x')&from=-1h&until=now&format=json&maxDataPoints=100";

const HOUR_HEAD: &[u8] =
    b"HTTP/1.1 200 OK\r\nContent-Type: application/json\r\nContent-Length: 1232\r\n\r\n[{\"target\": \"x\", \"datapoints\": [";

// 59 buckets of a minute without a value.
fn empty_buckets(alloc: Global) -> Result<Vec<u8>, AllocError> {
    let mut text = Vec::new(alloc);
    let mut moment = 1_699_996_440u32;
    for _ in 0..59 {
        text.extend_from_slice(b"[null, ")?;
        text.extend_from_slice(Buffer::new().format(moment).as_bytes())?;
        text.extend_from_slice(b"], ")?;
        moment = moment.saturating_add(60);
    }
    Ok(text)
}

static ONE_AND_A_HALF: Given<'static> = Given {
    schemas: b"",
    lines: &[b"a.b 1500 1700000000"],
};

fn hour_row<'a>(replies: Pieces<'a>) -> Row<'a> {
    Row {
        stream: &[One(GRAFANA)],
        replies,
        end: HttpEnd::Closed,
        entries: 1,
    }
}

#[test]
fn a_request_may_be_cut_anywhere(rt: HostRuntime) -> Result<(), Fail> {
    let empty = empty_buckets(rt.alloc())?;
    let replies = [One(HOUR_HEAD), One(&empty), One(b"[1.5, 1699999980]]}]")];
    assert_cut(&rt, rt.alloc(), &ONE_AND_A_HALF, hour_row(&replies))
}

const NO_SERIES: &[u8] =
    b"HTTP/1.1 200 OK\r\nContent-Type: application/json\r\nContent-Length: 2\r\n\r\n[]";

// Three requests, the first one with a body; a request behind which the link ends early; one that is refused by its head.
const REQUESTS: [Row<'static>; 3] = [
    Row {
        stream: &[
            One(b"POST /render HTTP/1.1\r\nContent-Length: 10\r\n\r\ntarget=x.y"),
            One(NO_ROUTE),
            One(b"HEAD /render HTTP/1.1\r\n\r\n"),
        ],
        replies: &[
            One(NO_SERIES),
            One(NOT_FOUND),
            One(
                b"HTTP/1.1 405 Method Not Allowed\r\nAllow: GET, POST\r\nContent-Length: 0\r\n\r\n",
            ),
        ],
        end: HttpEnd::Closed,
        entries: 1,
    },
    Row {
        stream: &[One(b"GET /x HTTP/1.1\r\n\r\nGET /ren")],
        replies: &[One(NOT_FOUND), One(NO_REQUEST)],
        end: HttpEnd::Refused(400),
        entries: 0,
    },
    Row {
        stream: &[One(
            b"POST /render HTTP/1.1\r\nTransfer-Encoding: chunked\r\n\r\n5\r\nhello\r\n",
        )],
        replies: &[One(
            b"HTTP/1.1 501 Not Implemented\r\nContent-Length: 0\r\nConnection: close\r\n\r\n",
        )],
        end: HttpEnd::Refused(501),
        entries: 0,
    },
];

#[test]
fn a_row_of_requests_may_be_cut_anywhere(rt: HostRuntime) -> Result<(), Fail> {
    for row in REQUESTS {
        assert_cut(&rt, rt.alloc(), &POINT, row)?;
    }
    Ok(())
}

// A body has at most 1,048,576 bytes.
const LONGEST: Row<'static> = Row {
    stream: &[
        One(b"POST /render HTTP/1.1\r\nContent-Length: 1048576\r\n\r\n"),
        One(b"target=a.b&from=1699999930&until=1700000030&x="),
        Times(104_853, b"xxxxxxxxxx"),
        One(NO_ROUTE),
    ],
    replies: &[One(FOUND), One(NOT_FOUND)],
    end: HttpEnd::Closed,
    entries: 1,
};

// It comes in many pieces, of which none is as long as a head may be.
#[test]
fn the_longest_body_is_read(rt: HostRuntime) -> Result<(), Fail> {
    let places: Vec<usize> = (1..110usize)
        .map(|k: usize| k.saturating_mul(9_973))
        .collect(rt.alloc())?;
    assert_cases(&rt, rt.alloc(), &POINT, &[cut_at(LONGEST, &places)])
}

const TWO_REQUESTS: Pieces<'static> = &[One(GET), One(NO_ROUTE)];

const TWO_REPLIES: Pieces<'static> = &[One(FOUND), One(NOT_FOUND)];

// The first request comes in two pieces, and so does the other.
static TWO_CUT: [usize; 3] = [GET.len() - 1, GET.len(), GET.len() + 7];

// By which read fails: what is written, and how many entries are made.
const READ_FAULTS: [(u64, Pieces<'static>, u64); 5] = [
    (1, &[], 0),
    (2, &[], 0),
    (3, &[One(FOUND)], 1),
    (4, &[One(FOUND)], 1),
    (5, TWO_REPLIES, 1),
];

#[test]
fn a_read_that_fails_ends_a_link(rt: HostRuntime) -> Result<(), Fail> {
    for (read, replies, entries) in READ_FAULTS {
        let row = Row {
            stream: TWO_REQUESTS,
            replies,
            end: HttpEnd::ReadFault,
            entries,
        };
        let way = Way {
            cuts: &TWO_CUT,
            reads: &[read],
            ..WHOLE
        };
        assert_cases(&rt, rt.alloc(), &POINT, &[Case { row, way }])?;
    }
    Ok(())
}

// By which write fails: what is written, and how many entries are made.
const WRITE_FAULTS: [(u64, Pieces<'static>, u64); 3] = [
    (1, &[], 1),
    (2, &[One(FOUND)], 2),
    (3, &[Times(2, FOUND)], 2),
];

#[test]
fn a_write_that_fails_ends_a_link(rt: HostRuntime) -> Result<(), Fail> {
    for (write, replies, entries) in WRITE_FAULTS {
        let row = Row {
            stream: &[Times(2, GET), One(b"GET /ren")],
            replies,
            end: HttpEnd::WriteFault,
            entries,
        };
        let way = Way {
            writes: &[write],
            ..WHOLE
        };
        assert_cases(&rt, rt.alloc(), &POINT, &[Case { row, way }])?;
    }
    Ok(())
}

// The same of a link that takes 50 bytes at a time: the first reply goes out in three writes, and the other one in one.
const SHORT_WRITES: [(u64, Pieces<'static>, HttpEnd); 5] = [
    (1, &[], HttpEnd::WriteFault),
    (2, &[Front(50, FOUND)], HttpEnd::WriteFault),
    (3, &[Front(100, FOUND)], HttpEnd::WriteFault),
    (4, &[One(FOUND)], HttpEnd::WriteFault),
    (5, TWO_REPLIES, HttpEnd::Closed),
];

#[test]
fn a_reply_goes_out_piece_by_piece(rt: HostRuntime) -> Result<(), Fail> {
    for (write, replies, end) in SHORT_WRITES {
        let row = Row {
            stream: TWO_REQUESTS,
            replies,
            end,
            entries: 1,
        };
        let way = Way {
            writes: &[write],
            most: 50,
            ..WHOLE
        };
        assert_cases(&rt, rt.alloc(), &POINT, &[Case { row, way }])?;
    }
    Ok(())
}

// The same disks, of which that of one class fails at its reads from a number on.
fn failing_from(
    alloc: Global,
    mut disks: Vec<MemDisk>,
    class: usize,
    first: u64,
) -> Result<Vec<MemDisk>, AllocError> {
    let calls: Vec<u64> = (first..first.saturating_add(40)).collect(alloc)?;
    if let Some(disk) = disks.get_mut(class) {
        let sound = mem::replace(disk, MemDisk::new(alloc, 0));
        *disk = sound.failing_reads(calls);
    }
    Ok(disks)
}

// The question's one try, and the fault.
static DISK_FAULT: [Row<'static>; 1] = [Row {
    stream: TWO_REQUESTS,
    replies: &[
        One(b"HTTP/1.1 500 Internal Server Error\r\nContent-Length: 0\r\n\r\n"),
        One(NOT_FOUND),
    ],
    end: HttpEnd::Closed,
    entries: 2,
}];

#[test]
fn a_disk_that_fails_is_entered(rt: HostRuntime) -> Result<(), Fail> {
    let drained = drained_disks(&rt, rt.alloc())?;
    let disks = failing_from(rt.alloc(), drained, CLASS, 5)?;
    assert_over(&rt, rt.alloc(), disks, &NONE, &DISK_FAULT)
}
