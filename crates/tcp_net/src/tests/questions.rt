// What an operator is told of questions for which there was no memory.
use super::kit::{Streams, connected_streams, exchange_times, millis, new_shared, seconds};
use crate::exchange::Exchange;
use crate::patience::Patience;
use crate::questions_told::QuestionsTold;
use crate::tcp_link::TcpLink;
use crate::timed_stream::TimedStream;
use outside_io::{Source, write_all};
use std::alloc::Global;
use std::fmt::Display;
use std::io;
use std::io::{Eprint, ErrorKind, Write};
use std::net::TcpStream;
use std::process::Abort;
use std::sync::Mutex;
use std::test::Fail;
use std::time::{Clock, Duration};

const UNAVAILABLE: &[u8] =
    b"HTTP/1.1 503 Service Unavailable\r\nContent-Length: 0\r\nConnection: close\r\n\r\n";

const FOUND: &[u8] = b"HTTP/1.1 200 OK\r\nContent-Length: 2\r\n\r\n[]";

// A host at a moment, and what was printed on its standard error.
#[derive(Clone, Copy, Drop)]
struct Host<'a> {
    millis: u64,
    alloc: Global,
    said: &'a Mutex<String>,
}

impl Clock for Host<'_> {
    fn monotonic(&self) -> io::Result<Duration> {
        Ok(millis(self.millis))
    }

    fn since_1970(&self) -> io::Result<Duration> {
        Ok(millis(self.millis))
    }
}

impl Eprint for Host<'_> {
    fn eprint<D: Display + Drop>(&self, value: D) -> io::Result<()> {
        let text = format!(in self.alloc; "{value}")?;
        match self.said.try_lock() {
            Some(mut said) => Ok(said.push_str(text.as_str())?),
            None => Err(io::Error::from(ErrorKind::WouldBlock)),
        }
    }

    fn eprintln<D: Display + Drop>(&self, value: D) -> io::Result<()> {
        self.eprint(value)?;
        self.eprint("\n")
    }
}

fn exchange_of(pieces: &[&[u8]]) -> Result<Exchange, Fail> {
    let mut exchange = Exchange::new(exchange_times()?);
    let now = seconds(0);
    for piece in pieces {
        exchange.note_read(piece, now);
    }
    Ok(exchange)
}

// What is told where there is no memory for the request that comes in these pieces, at each of these moments.
fn said_at(alloc: Global, pieces: &[&[u8]], moments: &[u64]) -> Result<String, Fail> {
    let exchange = exchange_of(pieces)?;
    let said = Mutex::new(String::new(alloc));
    let told = QuestionsTold::new();
    for millis in moments {
        let host = Host {
            millis: *millis,
            alloc,
            said: &said,
        };
        if let Some(unanswered) = exchange.unanswered(UNAVAILABLE) {
            told.tell(&host, unanswered);
        }
    }
    Ok(said.into_inner())
}

fn assert_said(
    rt: &impl Abort,
    alloc: Global,
    pieces: &[&[u8]],
    moments: &[u64],
    wanted: &str,
) -> Result<(), Fail> {
    let said = said_at(alloc, pieces, moments)?;
    assert!(rt; said.as_str() == wanted, "{said}");
    Ok(())
}

// 200 bytes, and one more.
const LONG: [u8; 201] = [b'x'; 201];

const LONG_LINE: &str = "carbon: out of memory, status 503: \
    xxxxxxxxxxxxxxxxxxxxxxxxxxxxxxxxxxxxxxxxxxxxxxxxxx\
    xxxxxxxxxxxxxxxxxxxxxxxxxxxxxxxxxxxxxxxxxxxxxxxxxx\
    xxxxxxxxxxxxxxxxxxxxxxxxxxxxxxxxxxxxxxxxxxxxxxxxxx\
    xxxxxxxxxxxxxxxxxxxxxxxxxxxxxxxxxxxxxxxxxxxxxxxxxx\n";

#[test]
fn a_question_is_told_by_its_first_line_and_its_body(rt: HostRuntime) -> Result<(), Fail> {
    let rows: [(&[&[u8]], &str); 6] = [
        (
            &[b"GET /render?target=a HTTP/1.1\r\nHost: x\r\n\r\n"],
            "carbon: out of memory, status 503: GET /render?target=a HTTP/1.1\n",
        ),
        (
            &[b"\r\nPOST /", b"r HTTP/1.1\nHost: x\n\ntar", b"get=a"],
            "carbon: out of memory, status 503: POST /r HTTP/1.1 target=a\n",
        ),
        (
            &[b"GET /\x1b[2J\x00\xff HTTP/1.1\r\n\r\n"],
            "carbon: out of memory, status 503: GET /\\x1b[2J\\x00\\xff HTTP/1.1\n",
        ),
        (
            &[b"GET / HTTP/1.1\r\n\r\n", b"a\r\nb"],
            "carbon: out of memory, status 503: GET / HTTP/1.1 a\\r\\nb\n",
        ),
        (&[&LONG, b"y\r\n\r\n"], LONG_LINE),
        (&[&LONG, b"\r\n\r\n", b"target=a"], LONG_LINE),
    ];
    for (pieces, wanted) in rows {
        assert_said(&rt, rt.alloc(), pieces, &[1_000], wanted)?;
    }
    Ok(())
}

#[test]
fn one_line_a_minute_tells_how_many_came_since(rt: HostRuntime) -> Result<(), Fail> {
    let request: [&[u8]; 1] = [b"GET / HTTP/1.1\r\n\r\n"];
    let rows: [(&[u64], &str); 3] = [
        (
            &[5, 6, 60_004],
            "carbon: out of memory, status 503: GET / HTTP/1.1\n",
        ),
        (
            &[5, 60_005],
            "carbon: out of memory, status 503: GET / HTTP/1.1\n\
            carbon: out of memory, status 503: GET / HTTP/1.1\n",
        ),
        (
            &[5, 6, 7, 60_005, 60_006, 120_005],
            "carbon: out of memory, status 503: GET / HTTP/1.1\n\
            carbon: out of memory, status 503: GET / HTTP/1.1 (2 questions since the last line)\n\
            carbon: out of memory, status 503: GET / HTTP/1.1 (1 questions since the last line)\n",
        ),
    ];
    for (moments, wanted) in rows {
        assert_said(&rt, rt.alloc(), &request, moments, wanted)?;
    }
    Ok(())
}

// Both ends of a connection whose link prints on a host.
#[derive(Drop)]
struct Ends<'a> {
    client: TcpStream,
    link: TcpLink<Host<'a>>,
}

fn ends_over(rt: HostRuntime, host: Host<'_>) -> io::Result<Ends<'_>> {
    let shared = new_shared(rt, 0)?;
    let Streams { client, served } = connected_streams(rt)?;
    let link = TcpLink::new(TimedStream::new(host, served, shared, Patience::for_http()));
    Ok(Ends { client, link })
}

// A request is read and has this reply.
fn exchange(ends: &mut Ends<'_>, request: &[u8], reply: &[u8]) -> io::Result<()> {
    let mut buf = [0u8; 64];
    ends.client.write_all(request)?;
    let _ = ends.link.read(&mut buf);
    let _ = write_all(&mut ends.link, reply);
    Ok(())
}

// Two requests have a reply each, behind which a third piece may be written.
fn exchange_both(ends: &mut Ends<'_>, replies: [&[u8]; 2], third: &[u8]) -> io::Result<()> {
    let [first, second] = replies;
    exchange(ends, b"GET /a HTTP/1.1\r\n\r\n", first)?;
    exchange(ends, b"GET /b HTTP/1.1\r\n\r\n", second)?;
    let _ = write_all(&mut ends.link, third);
    Ok(())
}

// What is told meanwhile.
fn said_over(rt: HostRuntime, replies: [&[u8]; 2], third: &[u8]) -> io::Result<String> {
    let said = Mutex::new(String::new(rt.alloc()));
    let host = Host {
        millis: 0,
        alloc: rt.alloc(),
        said: &said,
    };
    let mut ends = ends_over(rt, host)?;
    exchange_both(&mut ends, replies, third)?;
    drop(ends);
    Ok(said.into_inner())
}

#[test]
fn a_link_tells_the_question_whose_reply_has_the_status(rt: HostRuntime) -> Result<(), Fail> {
    let rows: [([&[u8]; 2], &[u8], &str); 4] = [
        (
            [FOUND, UNAVAILABLE],
            b"",
            "carbon: out of memory, status 503: GET /b HTTP/1.1\n",
        ),
        (
            [UNAVAILABLE, FOUND],
            b"",
            "carbon: out of memory, status 503: GET /a HTTP/1.1\n",
        ),
        (
            [FOUND, FOUND],
            UNAVAILABLE,
            "carbon: out of memory, status 503: behind GET /b HTTP/1.1\n",
        ),
        (
            [
                FOUND,
                b"HTTP/1.1 500 Internal Server Error\r\nContent-Length: 0\r\n\r\n",
            ],
            b"HTTP/1.1 503 as the body of a reply goes on",
            "",
        ),
    ];
    for (replies, third, wanted) in rows {
        let said = said_over(rt, replies, third)?;
        assert!(rt; said.as_str() == wanted, "{said}");
    }
    Ok(())
}
