// What a stop gives, and when it ends.
use super::kit::{
    BoundNet, Pair, bind, connect, connect_and_send, gives, is_refused, is_sent, millis_since,
    pause, settings, sip, stop_times,
};
use crate::TcpNet;
use crate::patience::Patience;
use crate::port::BoundPorts;
use crate::tcp_link::TcpLink;
use outside_io::{Net, ReadEnd, Sink, Source, WriteEnd};
use std::io::Write;
use std::net::TcpStream;
use std::test::Fail;
use std::thread::Threads;
use std::time::{Clock, Instant};
use std::{io, thread};

fn quick_net(rt: HostRuntime, links: u64) -> io::Result<BoundNet> {
    let times = stop_times(50, 300);
    bind(
        TcpNet::with_times(rt.alloc(), rt, settings(rt, 0)?, times)?,
        links,
    )
}

// Senders that wait in the queue, and have sent a line each.
fn queue_up(rt: HostRuntime, port: u16) -> io::Result<[TcpStream; 3]> {
    Ok([
        connect_and_send(rt, port, b"a 1 2\n")?,
        connect_and_send(rt, port, b"b 1 2\n")?,
        connect_and_send(rt, port, b"c 1 2\n")?,
    ])
}

// How many of these texts the next links of lines give.
fn count_given(net: &TcpNet<HostRuntime>) -> u64 {
    let mut count = 0u64;
    let texts: [&[u8]; 3] = [b"a 1 2\n", b"b 1 2\n", b"c 1 2\n"];
    for text in texts {
        if let Some(mut link) = net.next_lines() {
            if gives(&mut link, text) {
                count = count.saturating_add(1);
            }
        }
    }
    count
}

// Whether the next link for HTTP brings a request and takes a reply, and then ends.
fn answers(net: &TcpNet<HostRuntime>) -> bool {
    let Some(mut link) = net.next_http() else {
        return false
    };
    gives(&mut link, b"GET / HTTP/1.1\r\n\r\n") && link.write(b"404") == WriteEnd::Took(3)
}

// Whether as many lines are given as a port gives links, the request is answered, and then there is no link.
fn try_queue(
    net: &TcpNet<HostRuntime>,
    browser: &mut TcpStream,
    given: u64,
) -> io::Result<[bool; 4]> {
    let count = count_given(net);
    let is_answered = answers(net);
    let is_replied = is_sent(browser, b"404")?;
    Ok([
        count == given,
        is_answered,
        is_replied,
        net.next_lines().is_none(),
    ])
}

// The same of a net that is closed while they wait.
fn close_and_try(
    rt: HostRuntime,
    net: &TcpNet<HostRuntime>,
    ports: BoundPorts,
    given: u64,
) -> io::Result<([bool; 4], bool)> {
    let senders = queue_up(rt, ports.lines)?;
    let mut browser = connect_and_send(rt, ports.http, b"GET / HTTP/1.1\r\n\r\n")?;
    net.closer()?.close(&rt);
    let refuses = is_refused(rt, ports);
    let found = try_queue(net, &mut browser, given)?;
    drop(senders);
    Ok((found, refuses))
}

#[test]
fn links_that_wait_at_the_stop_are_given(rt: HostRuntime) -> Result<(), Fail> {
    // by how many links a port gives
    for (links, given) in [(0, 3), (2, 2)] {
        let (net, ports) = quick_net(rt, links)?;
        let found = close_and_try(rt, &net, ports, given)?;
        assert!(rt; found == ([true; 4], true), "{links}: {found:?}");
    }
    Ok(())
}

// Writes to the next link for HTTP until that fails, and drops it.
fn write_out(net: &TcpNet<HostRuntime>) {
    let piece = [b'x'; 4096];
    if let Some(mut link) = net.next_http() {
        for _ in 0..u64::MAX {
            if link.write(&piece) == WriteEnd::Failed {
                break;
            }
        }
    }
}

// How many milliseconds a link is written to whose other end takes little or nothing, where the net is closed at once.
fn millis_of_reply(threads: &impl Threads, rt: HostRuntime, sips: bool) -> Result<u128, Fail> {
    let (net, ports) = quick_net(rt, 0)?;
    let closer = net.closer()?;
    let client = connect(rt, ports.http)?;
    let begun = Instant::now(&rt)?;
    let writing = || {
        write_out(&net);
        millis_since(rt, begun)
    };
    let stopping = || {
        closer.close(&rt);
        if sips {
            // up to 4,096 bytes each 50 milliseconds, for a second
            sip(rt, &client, &mut [0u8; 4096], 20, 50);
        }
    };
    let (elapsed, ()) = thread::join(threads, writing, stopping);
    Ok(elapsed?)
}

#[test]
fn a_reader_that_stalls_or_sips_does_not_hold_up_the_stop(rt: HostRuntime) -> Result<(), Fail> {
    for sips in [false, true] {
        let millis = millis_of_reply(&rt, rt, sips)?;
        assert!(rt; (300..10_000).contains(&millis), "{millis}");
    }
    Ok(())
}

// How a source ends of which a piece is read each millisecond.
fn read_slowly<S: Source>(rt: HostRuntime, source: &mut S) -> ReadEnd {
    let mut buf = [0u8; 4096];
    for _ in 0..u64::MAX {
        match source.read(&mut buf) {
            ReadEnd::Got(_) => pause(rt, 1),
            end => return end,
        }
    }
    ReadEnd::Failed
}

fn send_piece(mut client: &TcpStream) -> io::Result<()> {
    client.write_all(&[b'x'; 4096])
}

// Sends while the other end is there.
fn send_on(client: &TcpStream) {
    for _ in 0..u64::MAX {
        if send_piece(client).is_err() {
            break;
        }
    }
}

// Sends what bridges the time until the sender has its thread.
fn send_ahead(client: &TcpStream) -> io::Result<()> {
    for _ in 0..25 {
        send_piece(client)?;
    }
    Ok(())
}

// How a link ends after the stop whose other end goes on to send, and after how many milliseconds.
fn end_of_sender(threads: &impl Threads, rt: HostRuntime) -> Result<(ReadEnd, u128), Fail> {
    let Pair {
        client,
        mut link,
        shared,
    } = Pair::new(rt, Patience::for_lines(0), 200)?;
    send_ahead(&client)?;
    let begun = Instant::now(&rt)?;
    shared.hang_up.give(rt.monotonic()?);
    let reading = move || {
        let end = read_slowly(rt, &mut link);
        (end, millis_since(rt, begun))
    };
    let ((end, elapsed), ()) = thread::join(threads, reading, || send_on(&client));
    Ok((end, elapsed?))
}

#[test]
fn a_sender_that_goes_on_is_ended_after_the_stop(rt: HostRuntime) -> Result<(), Fail> {
    let (end, millis) = end_of_sender(&rt, rt)?;
    assert!(rt;
        end == ReadEnd::End && (200..10_000).contains(&millis),
        "{end:?} at {millis}"
    );
    Ok(())
}

// How many milliseconds it takes to drop a link that was written to, and whose other end stays.
fn millis_of_drop(rt: HostRuntime, is_stopped: bool) -> Result<u128, Fail> {
    let Pair {
        client,
        mut link,
        shared,
    } = Pair::new(rt, Patience::for_http(), 0)?;
    if is_stopped {
        shared.hang_up.give(rt.monotonic()?);
    }
    let _ = link.write(b"404");
    let millis = millis_of_end(rt, link);
    drop(client);
    Ok(millis?)
}

fn millis_of_end(rt: HostRuntime, link: TcpLink<HostRuntime>) -> io::Result<u128> {
    let begun = Instant::now(&rt)?;
    drop(link);
    millis_since(rt, begun)
}

#[test]
fn a_last_wait_is_short_after_the_stop(rt: HostRuntime) -> Result<(), Fail> {
    for (is_stopped, range) in [(false, 1_000..10_000), (true, 0..900)] {
        let millis = millis_of_drop(rt, is_stopped)?;
        assert!(rt; range.contains(&millis), "{millis}");
    }
    Ok(())
}
