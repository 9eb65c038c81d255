// Links over a store of one metric, and what is written to them.
use crate::http_front_kit::Piece::{One, Times};
use crate::http_front_kit::{
    Case, FOUND, GET, NO_REQUEST, NO_ROUTE, NOT_FOUND, POINT, Row, WHOLE, Way, assert_cases,
    assert_each, assert_rows,
};
use http_front::HttpEnd;
use std::test::Fail;

const NO_TARGET: &[u8] =
    b"HTTP/1.1 400 Bad Request\r\nContent-Type: text/plain\r\nContent-Length: 10\r\n\r\nno target\n";

static REQUESTS: [Row<'static>; 12] = [
    Row {
        stream: &[One(GET)],
        replies: &[One(FOUND)],
        end: HttpEnd::Closed,
        entries: 1,
    },
    Row {
        stream: &[One(b"GET /x HTTP/1.1\r\n\r\n")],
        replies: &[One(NOT_FOUND)],
        end: HttpEnd::Closed,
        entries: 0,
    },
    Row {
        stream: &[One(b"HEAD /render HTTP/1.1\r\n\r\n")],
        replies: &[One(
            b"HTTP/1.1 405 Method Not Allowed\r\nAllow: GET, POST\r\nContent-Length: 0\r\n\r\n",
        )],
        end: HttpEnd::Closed,
        entries: 0,
    },
    Row {
        stream: &[One(b"GET /render HTTP/1.1\r\n\r\n")],
        replies: &[One(NO_TARGET)],
        end: HttpEnd::Closed,
        entries: 0,
    },
    Row {
        stream: &[One(b"GET /render?target=sum( HTTP/1.1\r\n\r\n")],
        replies: &[One(
            b"HTTP/1.1 400 Bad Request\r\nContent-Type: text/plain\r\nContent-Length: 26\r\n\r\ntarget 1: unreadable at 4\n",
        )],
        end: HttpEnd::Closed,
        entries: 0,
    },
    Row {
        stream: &[One(b"GET /render?target=a.b&from=now%2B1h HTTP/1.1\r\n\r\n")],
        replies: &[One(
            b"HTTP/1.1 400 Bad Request\r\nContent-Type: text/plain\r\nContent-Length: 17\r\n\r\nfrom after until\n",
        )],
        end: HttpEnd::Closed,
        entries: 0,
    },
    Row {
        stream: &[One(b"GET /render?target=movingAverage(a.b,10) HTTP/1.1\r\n\r\n")],
        replies: &[One(
            b"HTTP/1.1 400 Bad Request\r\nContent-Type: text/plain\r\nContent-Length: 27\r\n\r\ntarget 1: unknown function\n",
        )],
        end: HttpEnd::Closed,
        entries: 0,
    },
    Row {
        stream: &[One(b"GET /render?target=a.b&maxDataPoints=0 HTTP/1.1\r\n\r\n")],
        replies: &[One(
            b"HTTP/1.1 400 Bad Request\r\nContent-Type: text/plain\r\nContent-Length: 18\r\n\r\nbad maxDataPoints\n",
        )],
        end: HttpEnd::Closed,
        entries: 0,
    },
    // a query of more than 8,000 bytes
    Row {
        stream: &[
            One(b"GET /render?target=x.y&"),
            Times(8_000, b"y"),
            One(b" HTTP/1.1\r\n\r\n"),
        ],
        replies: &[One(
            b"HTTP/1.1 200 OK\r\nContent-Type: application/json\r\nContent-Length: 2\r\n\r\n[]",
        )],
        end: HttpEnd::Closed,
        entries: 1,
    },
    Row {
        stream: &[One(b"GET /render/?target=x.y HTTP/1.1\r\n\r\n")],
        replies: &[One(
            b"HTTP/1.1 200 OK\r\nContent-Type: application/json\r\nContent-Length: 2\r\n\r\n[]",
        )],
        end: HttpEnd::Closed,
        entries: 1,
    },
    Row {
        stream: &[One(b"GET /render?target=x.y&format=raw HTTP/1.1\r\n\r\n")],
        replies: &[One(
            b"HTTP/1.1 200 OK\r\nContent-Type: text/plain\r\nContent-Length: 0\r\n\r\n",
        )],
        end: HttpEnd::Closed,
        entries: 1,
    },
    Row {
        stream: &[One(b"GET /render?target=a.b&from=1699999930&format=csv HTTP/1.1\r\n\r\n")],
        replies: &[One(
            b"HTTP/1.1 200 OK\r\nContent-Type: text/csv\r\nContent-Length: 29\r\n\r\na.b,2023-11-14 22:13:00,1.5\r\n",
        )],
        end: HttpEnd::Closed,
        entries: 1,
    },
];

#[test]
fn a_request_has_its_reply(rt: HostRuntime) -> Result<(), Fail> {
    assert_rows(&rt, rt.alloc(), &POINT, &REQUESTS)
}

const MINUTES: &[u8] = b"GET /render?target=a.b&from=-2min&format=raw HTTP/1.1\r\n\r\n";

// The point's minute moves out of the two that are asked for.
const MOVING: Row<'static> = Row {
    stream: &[Times(3, MINUTES)],
    replies: &[
        One(RAW),
        One(b"a.b,1699999920,1700000040,60|None,1.5\n"),
        One(RAW),
        One(b"a.b,1699999980,1700000100,60|1.5,None\n"),
        One(RAW_NONE),
        One(b"a.b,1700000040,1700000160,60|None,None\n"),
    ],
    end: HttpEnd::Closed,
    entries: 3,
};

const RAW: &[u8] = b"HTTP/1.1 200 OK\r\nContent-Type: text/plain\r\nContent-Length: 38\r\n\r\n";

const RAW_NONE: &[u8] =
    b"HTTP/1.1 200 OK\r\nContent-Type: text/plain\r\nContent-Length: 39\r\n\r\n";

#[test]
fn each_request_of_a_link_has_a_moment_of_its_own(rt: HostRuntime) -> Result<(), Fail> {
    let way = Way { step: 60, ..WHOLE };
    assert_cases(&rt, rt.alloc(), &POINT, &[Case { row: MOVING, way }])
}

static UNREADABLE: [Row<'static>; 7] = [
    Row {
        stream: &[],
        replies: &[],
        end: HttpEnd::Closed,
        entries: 0,
    },
    Row {
        stream: &[One(b"GET /ren")],
        replies: &[One(NO_REQUEST)],
        end: HttpEnd::Refused(400),
        entries: 0,
    },
    Row {
        stream: &[One(b"\x00")],
        replies: &[One(NO_REQUEST)],
        end: HttpEnd::Refused(400),
        entries: 0,
    },
    Row {
        stream: &[One(b"POST /render HTTP/1.1\r\n\r\nGET /x HTTP/1.1\r\n\r\n")],
        replies: &[One(
            b"HTTP/1.1 411 Length Required\r\nContent-Length: 0\r\nConnection: close\r\n\r\n",
        )],
        end: HttpEnd::Refused(411),
        entries: 0,
    },
    Row {
        stream: &[One(b"POST /render HTTP/1.1\r\nContent-Length: 1048577\r\n\r\n")],
        replies: &[One(
            b"HTTP/1.1 413 Content Too Large\r\nContent-Length: 0\r\nConnection: close\r\n\r\n",
        )],
        end: HttpEnd::Refused(413),
        entries: 0,
    },
    Row {
        stream: &[One(b"POST /render HTTP/1.1\r\nTransfer-Encoding: chunked\r\n\r\n")],
        replies: &[One(
            b"HTTP/1.1 501 Not Implemented\r\nContent-Length: 0\r\nConnection: close\r\n\r\n",
        )],
        end: HttpEnd::Refused(501),
        entries: 0,
    },
    Row {
        stream: &[One(b"POST /render HTTP/1.1\r\nContent-Length: 9\r\n\r\ntarget=a")],
        replies: &[One(NO_REQUEST)],
        end: HttpEnd::Refused(400),
        entries: 0,
    },
];

#[test]
fn a_link_that_cannot_be_read_is_refused(rt: HostRuntime) -> Result<(), Fail> {
    assert_rows(&rt, rt.alloc(), &POINT, &UNREADABLE)
}

static IN_ONE_PIECE: [Row<'static>; 3] = [
    Row {
        stream: &[Times(2, GET)],
        replies: &[Times(2, FOUND)],
        end: HttpEnd::Closed,
        entries: 2,
    },
    Row {
        stream: &[Times(2, GET), One(NO_ROUTE)],
        replies: &[Times(2, FOUND), One(NOT_FOUND)],
        end: HttpEnd::Closed,
        entries: 2,
    },
    Row {
        stream: &[One(GET), One(b"GET /x")],
        replies: &[One(FOUND), One(NO_REQUEST)],
        end: HttpEnd::Refused(400),
        entries: 1,
    },
];

#[test]
fn requests_in_one_piece_are_answered_in_order(rt: HostRuntime) -> Result<(), Fail> {
    assert_rows(&rt, rt.alloc(), &POINT, &IN_ONE_PIECE)
}

const FIRST_LINE: &[u8] = b"GET /x HTTP/1.1\r\n";

const FIELD: &[u8] = b"A: b\r\n";

const LONG_HEAD: &[u8] = b"GET /x HTTP/1.1\r\nA: ";

const LAST: &[u8] = b"HTTP/1.1 404 Not Found\r\nContent-Length: 0\r\nConnection: close\r\n\r\n";

static LAST_REQUESTS: [Row<'static>; 4] = [
    Row {
        stream: &[One(b"GET /x HTTP/1.0\r\n\r\nGET /x HTTP/1.1\r\n\r\n")],
        replies: &[One(LAST)],
        end: HttpEnd::Closed,
        entries: 0,
    },
    Row {
        stream: &[One(b"GET /x HTTP/1.1\r\nConnection: keep-alive, Close\r\n\r\nGET /x")],
        replies: &[One(LAST)],
        end: HttpEnd::Closed,
        entries: 0,
    },
    Row {
        stream: &[One(
            b"GET /x HTTP/1.1\r\nConnection: keep-alive\r\n\r\nGET /x HTTP/1.0\r\n\r\n\x00",
        )],
        replies: &[One(NOT_FOUND), One(LAST)],
        end: HttpEnd::Closed,
        entries: 0,
    },
    Row {
        stream: &[One(b"GET /render HTTP/1.0\r\nConnection: keep-alive\r\n\r\n")],
        replies: &[One(
            b"HTTP/1.1 400 Bad Request\r\nContent-Type: text/plain\r\nContent-Length: 10\r\nConnection: close\r\n\r\nno target\n",
        )],
        end: HttpEnd::Closed,
        entries: 0,
    },
];

#[test]
fn a_link_ends_after_a_request_that_says_so(rt: HostRuntime) -> Result<(), Fail> {
    assert_rows(&rt, rt.alloc(), &POINT, &LAST_REQUESTS)
}

// A head has at most 64 fields and 16,384 bytes.
static LONG_HEADS: [Row<'static>; 4] = [
    Row {
        stream: &[One(FIRST_LINE), Times(64, FIELD), One(b"\r\n")],
        replies: &[One(NOT_FOUND)],
        end: HttpEnd::Closed,
        entries: 0,
    },
    Row {
        stream: &[One(FIRST_LINE), Times(65, FIELD), One(b"\r\n")],
        replies: &[One(NO_REQUEST)],
        end: HttpEnd::Refused(400),
        entries: 0,
    },
    Row {
        stream: &[One(LONG_HEAD), Times(16_360, b"a"), One(b"\r\n\r\n")],
        replies: &[One(NOT_FOUND)],
        end: HttpEnd::Closed,
        entries: 0,
    },
    Row {
        stream: &[One(LONG_HEAD), Times(16_361, b"a"), One(b"\r\n\r\n")],
        replies: &[One(NO_REQUEST)],
        end: HttpEnd::Refused(400),
        entries: 0,
    },
];

#[test]
fn a_head_that_is_too_long_is_refused(rt: HostRuntime) -> Result<(), Fail> {
    assert_each(&rt, rt.alloc(), &POINT, &LONG_HEADS)
}

static FORMS: [Row<'static>; 2] = [
    Row {
        stream: &[One(
            b"POST /render?target=a.b HTTP/1.1\r\nContent-Length: 32\r\n\r\nfrom=1699999930&until=1700000030",
        )],
        replies: &[One(FOUND)],
        end: HttpEnd::Closed,
        entries: 1,
    },
    Row {
        stream: &[One(b"GET /render HTTP/1.1\r\nContent-Length: 10\r\n\r\ntarget=a.b")],
        replies: &[One(NO_TARGET)],
        end: HttpEnd::Closed,
        entries: 0,
    },
];

#[test]
fn the_body_of_a_post_is_a_form(rt: HostRuntime) -> Result<(), Fail> {
    assert_rows(&rt, rt.alloc(), &POINT, &FORMS)
}
