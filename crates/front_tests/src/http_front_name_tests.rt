// Links that ask for the names of metrics.
use crate::http_front_kit::Piece::{One, Times};
use crate::http_front_kit::{
    FOUND, GET, Given, NONE, NOT_FOUND, POINT, Row, assert_each, assert_over, assert_rows,
    drained_disks,
};
use http_front::HttpEnd;
use std::test::Fail;

const BRANCH: &[u8] =
    b"HTTP/1.1 200 OK\r\nContent-Type: application/json\r\nContent-Length: 89\r\n\r\n[{\"allowChildren\": 1, \"expandable\": 1, \"leaf\": 0, \"id\": \"a\", \"text\": \"a\", \"context\": {}}]";

const LEAF: &[u8] =
    b"HTTP/1.1 200 OK\r\nContent-Type: application/json\r\nContent-Length: 91\r\n\r\n[{\"allowChildren\": 0, \"expandable\": 0, \"leaf\": 1, \"id\": \"a.b\", \"text\": \"b\", \"context\": {}}]";

const INDEX: &[u8] =
    b"HTTP/1.1 200 OK\r\nContent-Type: application/json\r\nContent-Length: 7\r\n\r\n[\"a.b\"]";

static FOUND_NAMES: [Row<'static>; 8] = [
    Row {
        stream: &[One(b"GET /metrics/find?query=* HTTP/1.1\r\n\r\n")],
        replies: &[One(BRANCH)],
        end: HttpEnd::Closed,
        entries: 1,
    },
    Row {
        stream: &[One(b"GET /metrics/find?query=x&query=a.* HTTP/1.1\r\n\r\n")],
        replies: &[One(LEAF)],
        end: HttpEnd::Closed,
        entries: 1,
    },
    Row {
        stream: &[One(b"GET /metrics/find?query=b.* HTTP/1.1\r\n\r\n")],
        replies: &[One(
            b"HTTP/1.1 200 OK\r\nContent-Type: application/json\r\nContent-Length: 2\r\n\r\n[]",
        )],
        end: HttpEnd::Closed,
        entries: 1,
    },
    Row {
        stream: &[One(b"GET /metrics/expand?query=* HTTP/1.1\r\n\r\n")],
        replies: &[One(
            b"HTTP/1.1 200 OK\r\nContent-Type: application/json\r\nContent-Length: 18\r\n\r\n{\"results\": [\"a\"]}",
        )],
        end: HttpEnd::Closed,
        entries: 1,
    },
    Row {
        stream: &[One(b"GET /metrics/expand?query=a.b&query=*&query=a.* HTTP/1.1\r\n\r\n")],
        replies: &[One(
            b"HTTP/1.1 200 OK\r\nContent-Type: application/json\r\nContent-Length: 25\r\n\r\n{\"results\": [\"a\", \"a.b\"]}",
        )],
        end: HttpEnd::Closed,
        entries: 1,
    },
    Row {
        stream: &[One(b"GET /metrics/index.json HTTP/1.1\r\n\r\n")],
        replies: &[One(INDEX)],
        end: HttpEnd::Closed,
        entries: 1,
    },
    Row {
        stream: &[One(b"GET /metrics/index.json?query= HTTP/1.1\r\n\r\n")],
        replies: &[One(INDEX)],
        end: HttpEnd::Closed,
        entries: 1,
    },
    Row {
        stream: &[One(b"POST /metrics/index.json HTTP/1.1\r\nContent-Length: 0\r\n\r\n")],
        replies: &[One(INDEX)],
        end: HttpEnd::Closed,
        entries: 1,
    },
];

#[test]
fn names_are_found(rt: HostRuntime) -> Result<(), Fail> {
    assert_rows(&rt, rt.alloc(), &POINT, &FOUND_NAMES)
}

static UNREADABLE: [Row<'static>; 10] = [
    Row {
        stream: &[One(b"GET /metrics/find HTTP/1.1\r\n\r\n")],
        replies: &[One(
            b"HTTP/1.1 400 Bad Request\r\nContent-Type: text/plain\r\nContent-Length: 9\r\n\r\nno query\n",
        )],
        end: HttpEnd::Closed,
        entries: 0,
    },
    Row {
        stream: &[One(b"GET /metrics/expand?query= HTTP/1.1\r\n\r\n")],
        replies: &[One(
            b"HTTP/1.1 400 Bad Request\r\nContent-Type: text/plain\r\nContent-Length: 9\r\n\r\nno query\n",
        )],
        end: HttpEnd::Closed,
        entries: 0,
    },
    Row {
        stream: &[One(b"GET /metrics/find HTTP/1.1\r\nContent-Length: 7\r\n\r\nquery=*")],
        replies: &[One(
            b"HTTP/1.1 400 Bad Request\r\nContent-Type: text/plain\r\nContent-Length: 9\r\n\r\nno query\n",
        )],
        end: HttpEnd::Closed,
        entries: 0,
    },
    Row {
        stream: &[One(b"GET /metrics/find?query=a.%7Bb HTTP/1.1\r\n\r\n")],
        replies: &[One(
            b"HTTP/1.1 400 Bad Request\r\nContent-Type: text/plain\r\nContent-Length: 20\r\n\r\nquery 1: unreadable\n",
        )],
        end: HttpEnd::Closed,
        entries: 0,
    },
    Row {
        stream: &[One(b"GET /metrics/expand?query=a&query=&query=b..c&query=. HTTP/1.1\r\n\r\n")],
        replies: &[One(
            b"HTTP/1.1 400 Bad Request\r\nContent-Type: text/plain\r\nContent-Length: 20\r\n\r\nquery 2: unreadable\n",
        )],
        end: HttpEnd::Closed,
        entries: 0,
    },
    Row {
        stream: &[One(b"HEAD /metrics/find?query=* HTTP/1.1\r\n\r\n")],
        replies: &[One(
            b"HTTP/1.1 405 Method Not Allowed\r\nAllow: GET, POST\r\nContent-Length: 0\r\n\r\n",
        )],
        end: HttpEnd::Closed,
        entries: 0,
    },
    Row {
        stream: &[One(b"GET /metrics/find/?query=* HTTP/1.1\r\n\r\n")],
        replies: &[One(NOT_FOUND)],
        end: HttpEnd::Closed,
        entries: 0,
    },
    Row {
        stream: &[One(b"GET /functions HTTP/1.1\r\n\r\n")],
        replies: &[One(NOT_FOUND)],
        end: HttpEnd::Closed,
        entries: 0,
    },
    Row {
        stream: &[
            One(b"GET /metrics/expand?"),
            Times(128, b"query=a&"),
            One(b" HTTP/1.1\r\n\r\n"),
        ],
        replies: &[One(
            b"HTTP/1.1 200 OK\r\nContent-Type: application/json\r\nContent-Length: 18\r\n\r\n{\"results\": [\"a\"]}",
        )],
        end: HttpEnd::Closed,
        entries: 1,
    },
    Row {
        stream: &[
            One(b"GET /metrics/expand?"),
            Times(129, b"query=a&"),
            One(b" HTTP/1.1\r\n\r\n"),
        ],
        replies: &[One(
            b"HTTP/1.1 400 Bad Request\r\nContent-Type: text/plain\r\nContent-Length: 17\r\n\r\ntoo many queries\n",
        )],
        end: HttpEnd::Closed,
        entries: 0,
    },
];

#[test]
fn queries_that_cannot_be_read_are_refused(rt: HostRuntime) -> Result<(), Fail> {
    assert_rows(&rt, rt.alloc(), &POINT, &UNREADABLE)
}

// Of many classes. Behind the same byte `-` comes before `.`, and `.` before `_`; two paths are leaves and branches.
static TREE: Given<'static> = Given {
    schemas: b"",
    lines: &[
        b"b.x.y.z 1 1700000000",
        b"a_b 1 1700000000",
        b"a.c 1 1700000000",
        b"a.b.c 1 1700000000",
        b"a 1 1700000000",
        b"a.b-c 1 1700000000",
        b"a-b 1 1700000000",
        b"a.b 1 1700000000",
        b"a-b.c 1 1700000000",
    ],
};

const JSON: &[u8] = b"HTTP/1.1 200 OK\r\nContent-Type: application/json\r\nContent-Length: ";

static TREE_NAMES: [Row<'static>; 8] = [
    Row {
        stream: &[One(b"GET /metrics/index.json HTTP/1.1\r\n\r\n")],
        replies: &[
            One(JSON),
            One(b"71\r\n\r\n"),
            One(br#"["a", "a-b", "a-b.c", "a.b", "a.b-c", "a.b.c", "a.c", "a_b", "b.x.y.z"]"#),
        ],
        end: HttpEnd::Closed,
        entries: 1,
    },
    Row {
        stream: &[One(b"GET /metrics/find?query=a* HTTP/1.1\r\n\r\n")],
        replies: &[
            One(JSON),
            One(b"457\r\n\r\n"),
            One(
                br#"[{"allowChildren": 1, "expandable": 1, "leaf": 0, "id": "a", "text": "a", "context": {}}, {"allowChildren": 0, "expandable": 0, "leaf": 1, "id": "a", "text": "a", "context": {}}, {"allowChildren": 1, "expandable": 1, "leaf": 0, "id": "a-b", "text": "a-b", "context": {}}, {"allowChildren": 0, "expandable": 0, "leaf": 1, "id": "a-b", "text": "a-b", "context": {}}, {"allowChildren": 0, "expandable": 0, "leaf": 1, "id": "a_b", "text": "a_b", "context": {}}]"#,
            ),
        ],
        end: HttpEnd::Closed,
        entries: 1,
    },
    Row {
        stream: &[One(b"GET /metrics/find?query=a.* HTTP/1.1\r\n\r\n")],
        replies: &[
            One(JSON),
            One(b"368\r\n\r\n"),
            One(
                br#"[{"allowChildren": 1, "expandable": 1, "leaf": 0, "id": "a.b", "text": "b", "context": {}}, {"allowChildren": 0, "expandable": 0, "leaf": 1, "id": "a.b", "text": "b", "context": {}}, {"allowChildren": 0, "expandable": 0, "leaf": 1, "id": "a.b-c", "text": "b-c", "context": {}}, {"allowChildren": 0, "expandable": 0, "leaf": 1, "id": "a.c", "text": "c", "context": {}}]"#,
            ),
        ],
        end: HttpEnd::Closed,
        entries: 1,
    },
    Row {
        stream: &[One(b"GET /metrics/find?query=*.x.* HTTP/1.1\r\n\r\n")],
        replies: &[
            One(JSON),
            One(b"93\r\n\r\n"),
            One(
                br#"[{"allowChildren": 1, "expandable": 1, "leaf": 0, "id": "b.x.y", "text": "y", "context": {}}]"#,
            ),
        ],
        end: HttpEnd::Closed,
        entries: 1,
    },
    Row {
        stream: &[One(b"GET /metrics/find?query=*.*.*.*.* HTTP/1.1\r\n\r\n")],
        replies: &[One(JSON), One(b"2\r\n\r\n"), One(b"[]")],
        end: HttpEnd::Closed,
        entries: 1,
    },
    Row {
        stream: &[One(b"GET /metrics/expand?query=* HTTP/1.1\r\n\r\n")],
        replies: &[
            One(JSON),
            One(b"37\r\n\r\n"),
            One(br#"{"results": ["a", "a-b", "a_b", "b"]}"#),
        ],
        end: HttpEnd::Closed,
        entries: 1,
    },
    Row {
        stream: &[One(b"GET /metrics/expand?query=*.*&query=a.b&query=* HTTP/1.1\r\n\r\n")],
        replies: &[
            One(JSON),
            One(b"76\r\n\r\n"),
            One(br#"{"results": ["a", "a-b", "a-b.c", "a.b", "a.b-c", "a.c", "a_b", "b", "b.x"]}"#),
        ],
        end: HttpEnd::Closed,
        entries: 1,
    },
    Row {
        stream: &[One(b"GET /metrics/expand?query=*.*.*.*.* HTTP/1.1\r\n\r\n")],
        replies: &[One(JSON), One(b"15\r\n\r\n"), One(br#"{"results": []}"#)],
        end: HttpEnd::Closed,
        entries: 1,
    },
];

#[test]
fn names_of_a_tree_are_found_in_byte_order(rt: HostRuntime) -> Result<(), Fail> {
    assert_each(&rt, rt.alloc(), &TREE, &TREE_NAMES)
}

// A store without metrics.
static NO_NAMES: [Row<'static>; 3] = [
    Row {
        stream: &[One(b"GET /metrics/index.json HTTP/1.1\r\n\r\n")],
        replies: &[One(JSON), One(b"2\r\n\r\n"), One(b"[]")],
        end: HttpEnd::Closed,
        entries: 1,
    },
    Row {
        stream: &[One(b"GET /metrics/find?query=* HTTP/1.1\r\n\r\n")],
        replies: &[One(JSON), One(b"2\r\n\r\n"), One(b"[]")],
        end: HttpEnd::Closed,
        entries: 1,
    },
    Row {
        stream: &[One(b"GET /metrics/expand?query=* HTTP/1.1\r\n\r\n")],
        replies: &[One(JSON), One(b"15\r\n\r\n"), One(br#"{"results": []}"#)],
        end: HttpEnd::Closed,
        entries: 1,
    },
];

#[test]
fn no_names_are_an_empty_list(rt: HostRuntime) -> Result<(), Fail> {
    assert_each(&rt, rt.alloc(), &NONE, &NO_NAMES)
}

// What a dashboard asks while a metric is picked: the nodes of each level, as a form and as a query; all paths of a glob; what it then draws. Of
// what this server has not it is told so, and goes on.
const PICK_ROOT: &[u8] =
    b"POST /metrics/find?from=1699978430&until=1700000030 HTTP/1.1\r\nHost: localhost:8080\r\nUser-Agent: Grafana/10.4.2\r\nContent-Length: 7\r\nAccept: application/json, text/plain, */*\r\nContent-Type: application/x-www-form-urlencoded\r\nX-Grafana-Org-Id: 1\r\nAccept-Encoding: gzip\r\n\r\nquery=*";

const PICK_NODE: &[u8] =
    b"POST /metrics/find?from=-6h&until=now HTTP/1.1\r\nHost: localhost:8080\r\nUser-Agent: Grafana/10.4.2\r\nContent-Length: 9\r\nAccept: application/json, text/plain, */*\r\nContent-Type: application/x-www-form-urlencoded\r\nAccept-Encoding: gzip\r\n\r\nquery=a.*";

const PICK_CODED: &[u8] =
    b"POST /metrics/find HTTP/1.1\r\nHost: localhost:8080\r\nContent-Type: application/x-www-form-urlencoded; charset=utf-8\r\nContent-Length: 34\r\n\r\nquery=a.%2A&from=-6h&until=now&_=1";

const PICK_BY_GET: &[u8] =
    b"GET /metrics/find?from=-6h&query=a.%2A&until=now HTTP/1.1\r\nHost: localhost:8080\r\nUser-Agent: Grafana/10.4.2\r\nAccept: application/json, text/plain, */*\r\nAccept-Encoding: gzip\r\n\r\n";

const PICK_PATHS: &[u8] =
    b"GET /metrics/expand?from=-6h&query=a.%2A&until=now HTTP/1.1\r\nHost: localhost:8080\r\nUser-Agent: Grafana/10.4.2\r\nAccept: application/json, text/plain, */*\r\nAccept-Encoding: gzip\r\n\r\n";

const PATHS: &[u8] =
    b"HTTP/1.1 200 OK\r\nContent-Type: application/json\r\nContent-Length: 20\r\n\r\n{\"results\": [\"a.b\"]}";

// What comes, the reply, and whether something is asked.
static PICKS: [Row<'static>; 9] = [
    Row {
        stream: &[One(b"GET /version HTTP/1.1\r\n\r\n")],
        replies: &[One(NOT_FOUND)],
        end: HttpEnd::Closed,
        entries: 0,
    },
    Row {
        stream: &[One(b"GET /functions HTTP/1.1\r\n\r\n")],
        replies: &[One(NOT_FOUND)],
        end: HttpEnd::Closed,
        entries: 0,
    },
    Row {
        stream: &[One(
            b"GET /tags/autoComplete/tags?from=-6h&tagPrefix=&until=now&limit=100 HTTP/1.1\r\n\r\n",
        )],
        replies: &[One(NOT_FOUND)],
        end: HttpEnd::Closed,
        entries: 0,
    },
    Row {
        stream: &[One(PICK_ROOT)],
        replies: &[One(BRANCH)],
        end: HttpEnd::Closed,
        entries: 1,
    },
    Row {
        stream: &[One(PICK_NODE)],
        replies: &[One(LEAF)],
        end: HttpEnd::Closed,
        entries: 1,
    },
    Row {
        stream: &[One(PICK_CODED)],
        replies: &[One(LEAF)],
        end: HttpEnd::Closed,
        entries: 1,
    },
    Row {
        stream: &[One(PICK_BY_GET)],
        replies: &[One(LEAF)],
        end: HttpEnd::Closed,
        entries: 1,
    },
    Row {
        stream: &[One(PICK_PATHS)],
        replies: &[One(PATHS)],
        end: HttpEnd::Closed,
        entries: 1,
    },
    Row {
        stream: &[One(GET)],
        replies: &[One(FOUND)],
        end: HttpEnd::Closed,
        entries: 1,
    },
];

// All of them on one link, one behind the other.
static PICKED: [Row<'static>; 1] = [Row {
    stream: &[
        One(b"GET /version HTTP/1.1\r\n\r\n"),
        One(b"GET /functions HTTP/1.1\r\n\r\n"),
        One(
            b"GET /tags/autoComplete/tags?from=-6h&tagPrefix=&until=now&limit=100 HTTP/1.1\r\n\r\n",
        ),
        One(PICK_ROOT),
        One(PICK_NODE),
        One(PICK_CODED),
        One(PICK_BY_GET),
        One(PICK_PATHS),
        One(GET),
    ],
    replies: &[
        One(NOT_FOUND),
        One(NOT_FOUND),
        One(NOT_FOUND),
        One(BRANCH),
        One(LEAF),
        One(LEAF),
        One(LEAF),
        One(PATHS),
        One(FOUND),
    ],
    end: HttpEnd::Closed,
    entries: 6,
}];

#[test]
fn a_metric_is_picked(rt: HostRuntime) -> Result<(), Fail> {
    assert_each(&rt, rt.alloc(), &POINT, &PICKS)?;
    assert_rows(&rt, rt.alloc(), &POINT, &PICKED)
}

// A name with a comma and double quotes, and a minute without a value.
static SPREADSHEET: [Row<'static>; 1] = [Row {
    stream: &[One(
        b"GET /render?target=alias(a.b,'x,%22y%22')&from=1699999870&format=csv HTTP/1.1\r\n\r\n",
    )],
    replies: &[One(
        b"HTTP/1.1 200 OK\r\nContent-Type: text/csv\r\nContent-Length: 67\r\n\r\n\"x,\"\"y\"\"\",2023-11-14 22:12:00,\r\n\"x,\"\"y\"\"\",2023-11-14 22:13:00,1.5\r\n",
    )],
    end: HttpEnd::Closed,
    entries: 1,
}];

#[test]
fn a_table_of_values_is_read_by_a_spreadsheet(rt: HostRuntime) -> Result<(), Fail> {
    assert_rows(&rt, rt.alloc(), &POINT, &SPREADSHEET)
}

// Of metrics that were written to files and have no point that is pending, too.
static FILE_NAMES: [Row<'static>; 2] = [
    Row {
        stream: &[One(b"GET /metrics/index.json HTTP/1.1\r\n\r\n")],
        replies: &[One(INDEX)],
        end: HttpEnd::Closed,
        entries: 1,
    },
    Row {
        stream: &[One(PICK_NODE)],
        replies: &[One(LEAF)],
        end: HttpEnd::Closed,
        entries: 1,
    },
];

#[test]
fn names_of_files_are_found(rt: HostRuntime) -> Result<(), Fail> {
    let disks = drained_disks(&rt, rt.alloc())?;
    assert_over(&rt, rt.alloc(), disks, &NONE, &FILE_NAMES)
}
