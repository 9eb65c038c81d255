// The clock of the system, and both ends of connections in one process.
mod addresses;
mod kit;
mod paces;
mod questions;
mod slow;
mod stops;

use crate::patience::Patience;
use crate::port::BoundPorts;
use crate::tcp_link::TcpLink;
use crate::{NetCloser, SystemClock, TcpNet};
use kit::{
    Pair, bound_net, connect_and_end, connect_and_send, gives, is_refused, is_sent, millis,
    millis_since, new_net, seconds,
};
use libc::net::{SO_KEEPALIVE, SOL_SOCKET, getsockopt};
use outside_io::{Clock, Net, NetFailed, ReadEnd, Sink, Source, WriteEnd};
use std::io::{ErrorKind, Read, Write};
use std::net::TcpStream;
use std::os::fd::AsRawFd;
use std::process::Abort;
use std::test::Fail;
use std::thread::Threads;
use std::time::{Duration, Instant, SystemTime, UNIX_EPOCH};
use std::{io, thread};

// A clock that stands so many seconds after 1970, or cannot be read.
#[derive(Clone, Copy, Drop)]
struct StoppedAt(Option<u64>);

impl std::time::Clock for StoppedAt {
    fn monotonic(&self) -> io::Result<Duration> {
        Ok(seconds(0))
    }

    fn since_1970(&self) -> io::Result<Duration> {
        match self.0 {
            Some(moment) => Ok(seconds(moment)),
            None => Err(io::Error::from(ErrorKind::Other)),
        }
    }
}

#[test]
fn moments_are_brought_into_the_legal_range(rt: HostRuntime) -> Result<(), Fail> {
    let cases = [
        (Some(31_535_999), 31_536_000),
        (Some(1_700_000_030), 1_700_000_030),
        (Some(1_700_000_031), 1_700_000_031),
        (Some(4_000_000_001), 4_000_000_000),
        (None, 31_536_000),
    ];
    for (seconds, moment) in cases {
        let now = SystemClock::new(StoppedAt(seconds)).now();
        assert!(rt; now == moment, "{now}, not {moment}");
    }
    let paused = millis_of_pause(rt)?;
    assert!(rt;
        50 <= paused && SystemClock::new(rt).now() > 1_700_000_000,
        "{paused}"
    );
    Ok(())
}

fn millis_of_pause(rt: HostRuntime) -> io::Result<u128> {
    let begun = Instant::now(&rt)?;
    SystemClock::new(rt).pause();
    millis_since(rt, begun)
}

fn system_seconds(rt: HostRuntime) -> Result<u64, Fail> {
    let since = SystemTime::now(&rt)?.duration_since(UNIX_EPOCH);
    Ok(since.map_err(|_| ErrorKind::Other)?.as_secs())
}

#[test]
fn the_clock_tells_the_second_of_the_system(rt: HostRuntime) -> Result<(), Fail> {
    let clock = SystemClock::new(rt);
    // a second may begin between the readings
    for _ in 0..10 {
        let before = system_seconds(rt)?;
        let now = clock.now();
        if system_seconds(rt)? == before {
            assert!(rt; now == before, "{now}");
            return Ok(());
        }
    }
    Err(Fail::new("each second was too short"))
}

fn keeps_alive(link: &TcpLink<HostRuntime>) -> bool {
    let mut value = [0u8; 16];
    let mut len = 4;
    let fd = link.timed.stream.as_raw_fd();
    let status = unsafe { getsockopt(fd, SOL_SOCKET, SO_KEEPALIVE, &mut value, &mut len) };
    status == 0 && value[0] == 1
}

// How many seconds a link waits for bytes, and for room.
fn waits_for(patience: &Patience) -> (Option<u64>, u64) {
    let for_room = patience.for_room.as_secs();
    match patience.for_bytes {
        Some(time) => (Some(time.as_secs()), for_room),
        None => (None, for_room),
    }
}

// Whether a link of lines has its times, keeps its connection alive, sends at once and gives what was sent.
fn try_lines(mut link: TcpLink<HostRuntime>) -> io::Result<[bool; 4]> {
    let has_times = waits_for(&link.timed.patience) == (None, 75);
    let is_alive = keeps_alive(&link);
    let is_quick = link.timed.stream.nodelay()?;
    Ok([
        has_times,
        is_alive,
        is_quick,
        gives(&mut link, b"a.b 1.5 1700000000\n"),
    ])
}

// Whether a link for HTTP has its times, sends at once, brings the front of a request and takes a reply.
fn try_http(mut link: TcpLink<HostRuntime>) -> io::Result<[bool; 4]> {
    let has_times = waits_for(&link.timed.patience) == (Some(75), 75);
    let is_quick = link.timed.stream.nodelay()?;
    let mut method = [0u8; 3];
    let is_read = link.read(&mut method) == ReadEnd::Got(3) && method == *b"GET";
    Ok([
        has_times,
        is_quick,
        is_read,
        link.write(b"404") == WriteEnd::Took(3),
    ])
}

// Whether neither port gives a link, and both refuse.
fn is_spent(rt: HostRuntime, net: &TcpNet<HostRuntime>, ports: BoundPorts) -> bool {
    net.next_lines().is_none() && net.next_http().is_none() && is_refused(rt, ports)
}

// The one link of each port is as it is to be.
fn assert_links(
    rt: &impl Abort,
    host: HostRuntime,
    net: &TcpNet<HostRuntime>,
    ports: BoundPorts,
) -> Result<(), Fail> {
    let lines = net.next_lines().ok_or("no link of lines")?;
    let http = net.next_http().ok_or("no link for HTTP")?;
    assert!(rt; is_spent(host, net, ports));
    assert_tried(rt, lines, http)
}

fn assert_tried(
    rt: &impl Abort,
    lines: TcpLink<HostRuntime>,
    http: TcpLink<HostRuntime>,
) -> Result<(), Fail> {
    let found = [try_lines(lines)?, try_http(http)?];
    assert!(rt; found == [[true; 4]; 2], "{found:?}");
    Ok(())
}

fn send_both(rt: HostRuntime, ports: BoundPorts) -> io::Result<[TcpStream; 2]> {
    Ok([
        connect_and_end(rt, ports.lines, b"a.b 1.5 1700000000\n")?,
        connect_and_end(rt, ports.http, b"GET /x HTTP/1.1\r\n\r\n")?,
    ])
}

#[test]
fn each_port_gives_its_links_and_then_refuses(rt: HostRuntime) -> Result<(), Fail> {
    let (net, ports) = bound_net(rt, 1)?;
    let [sender, mut browser] = send_both(rt, ports)?;
    assert_links(&rt, rt, &net, ports)?;
    // a reply arrives though bytes of the request were not read
    assert!(rt; is_sent(&mut browser, b"404")?);
    drop(sender);
    Ok(())
}

#[test]
fn the_ports_are_those_that_are_asked_for(rt: HostRuntime) -> Result<(), Fail> {
    let (net, free) = bound_net(rt, 0)?;
    drop(net);
    let mut net = new_net(rt, 0)?;
    assert!(rt; net.bind(free.lines, free.http, 0) == Ok(()) && net.ports() == Some(free));
    Ok(())
}

// Whether the one fault of a net is that it cannot be bound.
fn is_not_bound(net: &mut TcpNet<HostRuntime>, http_port: u16) -> bool {
    net.bind(0, http_port, 0) == Err(NetFailed) && net.faults() == 1
}

#[test]
fn a_port_in_use_and_a_second_bind_are_faults(rt: HostRuntime) -> Result<(), Fail> {
    let (mut net, ports) = bound_net(rt, 0)?;
    let mut other = new_net(rt, 0)?;
    let found = [
        is_not_bound(&mut other, ports.http),
        is_not_bound(&mut net, 0),
    ];
    assert!(rt;
        found == [true; 2] && net.ports() == Some(ports),
        "{found:?}"
    );
    Ok(())
}

// How often 4,096 bytes are taken, up to 100,000 times.
fn count_taken(link: &mut TcpLink<HostRuntime>) -> u32 {
    let piece = [0u8; 4096];
    for count in 0..100_000 {
        if link.write(&piece) == WriteEnd::Failed {
            return count;
        }
    }
    100_000
}

// Whether a link whose other end is silent and takes nothing is at its end without a fault, and then fails to write, once.
fn is_given_up(link: &mut TcpLink<HostRuntime>) -> [bool; 2] {
    let mut buf = [0u8; 4096];
    let is_silent = link.read(&mut buf) == ReadEnd::End && link.read_faults() == 0;
    let count = count_taken(link);
    [is_silent, count < 100_000 && link.write_faults() == 1]
}

// Whether a read of a link fails whose other end is gone.
fn is_gone(link: &mut TcpLink<HostRuntime>) -> bool {
    let mut buf = [0u8; 4096];
    link.read(&mut buf) == ReadEnd::Failed && link.read_faults() == 1
}

#[test]
fn a_peer_that_is_silent_takes_nothing_or_goes_is_given_up(rt: HostRuntime) -> Result<(), Fail> {
    let patience = Patience {
        for_bytes: Some(millis(20)),
        for_room: millis(20),
        for_exchange: None,
        idle: None,
    };
    let Pair {
        client,
        mut link,
        shared: _,
    } = Pair::new(rt, patience, 0)?;
    let found = is_given_up(&mut link);
    drop(client);
    assert!(rt; found == [true; 2] && is_gone(&mut link), "{found:?}");
    Ok(())
}

// Serves the one link of lines until it is at its end.
fn serve_lines(net: &TcpNet<HostRuntime>) -> bool {
    let Some(mut link) = net.next_lines() else {
        return false
    };
    link.write(b"ready") == WriteEnd::Took(5)
        && gives(&mut link, b"early late ")
        && link.write(b"done") == WriteEnd::Took(4)
}

// Closes the net once the link is served.
fn close_when_served(
    rt: HostRuntime,
    closer: &NetCloser,
    mut client: &TcpStream,
) -> io::Result<()> {
    let mut buf = [0u8; 5];
    client.read_exact(&mut buf)?;
    closer.close(&rt);
    Ok(())
}

// Whether the net's link of lines is served to its end, and two waits for a link end, while the net is closed.
fn serve_and_close(
    threads: &impl Threads,
    net: &TcpNet<HostRuntime>,
    mut client: &TcpStream,
) -> io::Result<[bool; 3]> {
    let waiting = || net.next_http().is_none();
    let ending = || {
        let waited = thread::join(threads, waiting, waiting);
        // both ports are closed, and the link goes on for a while
        (waited, client.write_all(b"late "))
    };
    let (is_served, (waited, sent)) = thread::join(threads, || serve_lines(net), ending);
    sent?;
    Ok([is_served, waited.0, waited.1])
}

// The same, where the net is closed as soon as the link was written to.
fn serve_until_closed(
    threads: &impl Threads,
    rt: HostRuntime,
    net: &TcpNet<HostRuntime>,
    client: &TcpStream,
) -> Result<[bool; 3], Fail> {
    let closer = net.closer()?;
    let reader = client.try_clone()?;
    let closing = thread::spawn(threads, move || close_when_served(rt, &closer, &reader))?;
    let found = serve_and_close(threads, net, client);
    closing.join(threads)?;
    Ok(found?)
}

#[test]
fn a_close_ends_waits_and_idle_links(rt: HostRuntime) -> Result<(), Fail> {
    let (net, ports) = bound_net(rt, 0)?;
    let mut client = connect_and_send(rt, ports.lines, b"early ")?;
    let found = serve_until_closed(&rt, rt, &net, &client)?;
    assert!(rt;
        found == [true; 3] && is_spent(rt, &net, ports),
        "{found:?}"
    );
    assert!(rt; is_sent(&mut client, b"done")?);
    Ok(())
}
