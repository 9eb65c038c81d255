// Questions that are asked and have no body for an answer.
use crate::http_front_kit::Piece::{One, Times};
use crate::http_front_kit::{Given, NO_ROUTE, NOT_FOUND, POINT, Row, assert_rows};
use http_front::HttpEnd;
use std::test::Fail;

// Three times 3,334 paths are more than 10,000 series.
static SERIES: [Row<'static>; 1] = [Row {
    stream: &[
        One(b"POST /render HTTP/1.1\r\nContent-Length: 40049\r\n\r\n"),
        One(b"target=group("),
        Times(3_333, b"a.b,"),
        One(b"a.b)"),
        One(b"&target=group("),
        Times(3_333, b"a.b,"),
        One(b"a.b)"),
        One(b"&target=group("),
        Times(3_333, b"a.b,"),
        One(b"a.b)"),
        One(NO_ROUTE),
    ],
    replies: &[
        One(
            b"HTTP/1.1 400 Bad Request\r\nContent-Type: text/plain\r\nContent-Length: 23\r\n\r\ntoo many series: 10002\n",
        ),
        One(NOT_FOUND),
    ],
    end: HttpEnd::Closed,
    entries: 1,
}];

#[test]
fn too_many_series_are_told(rt: HostRuntime) -> Result<(), Fail> {
    assert_rows(&rt, rt.alloc(), &POINT, &SERIES)
}

// 397 times a week of minutes are more than 4,000,000 values.
static VALUES: [Row<'static>; 1] = [Row {
    stream: &[
        One(b"GET /render?target=limit(group("),
        Times(396, b"a.b,"),
        One(b"a.b),0)&from=-7d HTTP/1.1\r\n\r\n"),
    ],
    replies: &[One(
        b"HTTP/1.1 400 Bad Request\r\nContent-Type: text/plain\r\nContent-Length: 25\r\n\r\ntoo many points: 4001760\n",
    )],
    end: HttpEnd::Closed,
    entries: 1,
}];

#[test]
fn too_many_values_are_told(rt: HostRuntime) -> Result<(), Fail> {
    assert_rows(&rt, rt.alloc(), &POINT, &VALUES)
}

// A step of 31,535,999 seconds and one of a minute have none in common that is not longer than a year.
static STEP: [Row<'static>; 1] = [Row {
    stream: &[One(
        b"GET /render?target=sumSeries(a.b,summarize(a.b,'31535999s')) HTTP/1.1\r\n\r\n",
    )],
    replies: &[One(
        b"HTTP/1.1 400 Bad Request\r\nContent-Type: text/plain\r\nContent-Length: 26\r\n\r\nstep too wide: 1892159940\n",
    )],
    end: HttpEnd::Closed,
    entries: 1,
}];

#[test]
fn a_step_that_is_too_wide_is_told(rt: HostRuntime) -> Result<(), Fail> {
    assert_rows(&rt, rt.alloc(), &POINT, &STEP)
}

static HOURLY: Given<'static> = Given {
    schemas: b"[all]\npattern = .*\nretentions = 1h:1y\n",
    lines: &[b"a.b 1 1700000000"],
};

static GRID: [Row<'static>; 1] = [Row {
    stream: &[One(b"GET /render?target=summarize(a.b,'1s')&from=-1y HTTP/1.1\r\n\r\n")],
    replies: &[One(
        b"HTTP/1.1 400 Bad Request\r\nContent-Type: text/plain\r\nContent-Length: 24\r\n\r\ngrid too long: 31536000\n",
    )],
    end: HttpEnd::Closed,
    entries: 1,
}];

#[test]
fn a_grid_that_is_too_long_is_told(rt: HostRuntime) -> Result<(), Fail> {
    assert_rows(&rt, rt.alloc(), &HOURLY, &GRID)
}

const UNAVAILABLE: &[u8] =
    b"HTTP/1.1 503 Service Unavailable\r\nContent-Length: 0\r\nConnection: close\r\n\r\n";

// What is built of a pattern has at most 1 MiB, and is built once the series are read. One that would have more is told as
// want of memory, and the link ends.
static PATTERN: [Row<'static>; 1] = [Row {
    stream: &[One(
        b"GET /render?target=grep(a.b,'(a%7B999%7D)%7B999%7D') HTTP/1.1\r\n\r\nGET /x HTTP/1.1\r\n\r\n",
    )],
    replies: &[One(UNAVAILABLE)],
    end: HttpEnd::NoMemory,
    entries: 1,
}];

#[test]
fn a_pattern_that_is_too_large_wants_memory(rt: HostRuntime) -> Result<(), Fail> {
    assert_rows(&rt, rt.alloc(), &POINT, &PATTERN)
}
