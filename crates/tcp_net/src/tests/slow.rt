// Other ends that are slow, silent or gone.
ghost use Rattle.std.specs.Prelude.{◌<◌};

use super::kit::{
    Pair, bind, bound_net, connect, connect_and_send, gives, millis, millis_since, new_net, pause,
    read_out, sip,
};
use crate::TcpNet;
use crate::pace::{Allowance, Credit, ExchangeTimes};
use crate::patience::Patience;
use crate::tcp_link::TcpLink;
use outside_io::{Net, ReadEnd, Sink, Source, WriteEnd, write_all};
use std::io::{Read, Write};
use std::net::{Shutdown, TcpStream};
use std::test::Fail;
use std::thread::Threads;
use std::time::Instant;
use std::{io, thread};

// Of a link for HTTP whose head and body have 200 milliseconds each, however many their bytes are, and whose writes may
// never wait longer, though so many bytes that are taken give a second.
fn short_patience(bytes_a_second: u64) -> Patience
    requires { 0 < bytes_a_second }
{
    let time = millis(200);
    let mut patience = Patience::for_http();
    patience.for_exchange = Some(ExchangeTimes {
        head: time,
        body: Allowance {
            at_once: time,
            bytes_a_second: u64::MAX,
        },
        reply: Credit {
            at_first: time,
            most: time,
            bytes_a_second,
        },
    });
    patience
}

// Sends a byte each 10 milliseconds, while the other end is there, for 3 seconds at most.
fn drip(rt: HostRuntime, mut client: &TcpStream) {
    for _ in 0..300 {
        if client.write_all(b"x").is_err() {
            break;
        }
        pause(rt, 10);
    }
}

// How a link ends that is sent this and then drips.
fn end_of_drips(
    threads: &impl Threads,
    rt: HostRuntime,
    first: &[u8],
) -> Result<(ReadEnd, u64), Fail> {
    let Pair {
        mut client,
        mut link,
        shared: _,
    } = Pair::new(rt, short_patience(u64::MAX), 0)?;
    client.write_all(first)?;
    let reading = move || read_out(&mut link);
    let (end, ()) = thread::join(threads, reading, || drip(rt, &client));
    Ok(end)
}

#[test]
fn a_head_or_a_body_that_drips_is_ended(rt: HostRuntime) -> Result<(), Fail> {
    let firsts: [&[u8]; 2] = [b"GET / HTTP/1.1\r\n", b"POST / HTTP/1.1\r\n\r\n"];
    for first in firsts {
        let begun = Instant::now(&rt)?;
        let (end, reads) = end_of_drips(&rt, rt, first)?;
        let millis = millis_since(rt, begun)?;
        assert!(rt; end == ReadEnd::End && 0 < reads, "{end:?} after {reads}");
        assert!(rt; (200..10_000).contains(&millis), "{millis}");
    }
    Ok(())
}

// Writes until that fails.
fn write_out<K: Sink>(out: &mut K) {
    let piece = [b'x'; 4096];
    for _ in 0..u64::MAX {
        if out.write(&piece) == WriteEnd::Failed {
            break;
        }
    }
}

// Takes 1,000 bytes so often, each 10 milliseconds.
fn sip_slowly(rt: HostRuntime, client: &TcpStream, times: u64) {
    sip(rt, client, &mut [0u8; 1_000], times, 10);
}

// How many milliseconds a link of this patience is written to whose other end sips so often, and how many faults it then
// has.
fn millis_of_sips(
    threads: &impl Threads,
    rt: HostRuntime,
    patience: Patience,
    times: u64,
) -> Result<(u128, u64), Fail> {
    let Pair {
        client,
        mut link,
        shared: _,
    } = Pair::new(rt, patience, 0)?;
    let begun = Instant::now(&rt)?;
    let writing = || {
        write_out(&mut link);
        millis_since(rt, begun)
    };
    let (elapsed, ()) = thread::join(threads, writing, || sip_slowly(rt, &client, times));
    Ok((elapsed?, link.write_faults()))
}

// A reply ends in time of which the other end takes a little and none of it counts, or of which it takes nothing and each
// byte in the buffers of the system counts as a second.
#[test]
fn a_reply_that_is_sipped_or_left_fails(rt: HostRuntime) -> Result<(), Fail> {
    for (patience, times) in [(short_patience(u64::MAX), 60), (short_patience(1), 0)] {
        let (millis, faults) = millis_of_sips(&rt, rt, patience, times)?;
        assert!(rt;
            (200..10_000).contains(&millis) && faults == 1,
            "{millis}, {faults}"
        );
    }
    Ok(())
}

// Whether the next link of lines gives a line and is then at its end, and after how many milliseconds.
fn millis_of_silence(rt: HostRuntime, net: &TcpNet<HostRuntime>) -> Result<(bool, u128), Fail> {
    match net.next_lines() {
        Some(mut link) => Ok(millis_of_line(rt, &mut link)?),
        None => Err(Fail::new("no link of lines")),
    }
}

fn millis_of_line(rt: HostRuntime, link: &mut TcpLink<HostRuntime>) -> io::Result<(bool, u128)> {
    let begun = Instant::now(&rt)?;
    let is_given = gives(link, b"a 1 2\n");
    Ok((is_given, millis_since(rt, begun)?))
}

#[test]
fn a_sender_of_lines_may_be_silent_for_so_long(rt: HostRuntime) -> Result<(), Fail> {
    let (net, ports) = bind(new_net(rt, 1)?, 0)?;
    let client = connect_and_send(rt, ports.lines, b"a 1 2\n")?;
    let (is_given, millis) = millis_of_silence(rt, &net)?;
    drop(client);
    // `gives` reads the end twice
    assert!(rt;
        is_given && (1_990..10_000).contains(&millis),
        "{is_given} {millis}"
    );
    Ok(())
}

// Whether the next link for HTTP is at its end without a byte, behind a reply or before any, and after how many
// milliseconds.
fn millis_of_idleness(
    rt: HostRuntime,
    net: &TcpNet<HostRuntime>,
    is_replied: bool,
) -> Result<(ReadEnd, u128), Fail> {
    let Some(mut link) = net.next_http() else {
        return Err(Fail::new("no link for HTTP"));
    };
    let is_written = !is_replied || write_all(&mut link, b"404").is_ok();
    if !is_written {
        return Err(Fail::new("no reply"));
    }
    Ok(millis_of_read(rt, &mut link)?)
}

// How a read of a link ends, and after how many milliseconds.
fn millis_of_read(rt: HostRuntime, link: &mut TcpLink<HostRuntime>) -> io::Result<(ReadEnd, u128)> {
    let begun = Instant::now(&rt)?;
    let end = link.read(&mut [0u8; 8]);
    Ok((end, millis_since(rt, begun)?))
}

#[test]
fn a_link_without_a_request_gives_way_to_a_connection_that_waits(
    rt: HostRuntime,
) -> Result<(), Fail> {
    for (is_replied, range) in [(false, 240..900), (true, 990..5_000)] {
        let (net, ports) = bound_net(rt, 0)?;
        let silent = connect(rt, ports.http)?;
        let other = connect_and_send(rt, ports.http, b"GET")?;
        let (end, millis) = millis_of_idleness(rt, &net, is_replied)?;
        assert!(rt;
            end == ReadEnd::End && range.contains(&millis),
            "{end:?} after {millis}"
        );
        assert!(rt; millis_of_idleness(rt, &net, false)?.0 == ReadEnd::Got(3));
        drop((silent, other));
    }
    Ok(())
}

// Connects once more after a while, and sends a byte over the first connection after another while.
fn connect_and_wait(rt: HostRuntime, port: u16, mut first: &TcpStream) -> io::Result<()> {
    pause(rt, 400);
    let second = connect(rt, port)?;
    pause(rt, 400);
    first.write_all(b"x")?;
    drop(second);
    Ok(())
}

// How a link ends that is silent while a thread is free for another connection.
fn end_beside_free_thread(threads: &impl Threads, rt: HostRuntime) -> Result<ReadEnd, Fail> {
    let (net, ports) = bound_net(rt, 0)?;
    let first = connect(rt, ports.http)?;
    let mut link = net.next_http().ok_or("no link for HTTP")?;
    let taking = || net.next_http().is_some();
    let others = || thread::join(threads, taking, || connect_and_wait(rt, ports.http, &first));
    let (end, (is_taken, done)) = thread::join(threads, || link.read(&mut [0u8; 8]), others);
    done?;
    if is_taken {
        Ok(end)
    } else {
        Err(Fail::new("no second link"))
    }
}

#[test]
fn a_link_without_a_request_stays_while_a_thread_is_free(rt: HostRuntime) -> Result<(), Fail> {
    let end = end_beside_free_thread(&rt, rt)?;
    assert!(rt; end == ReadEnd::Got(1), "{end:?}");
    Ok(())
}

// How a link ends whose other end goes away, with bytes that it has not read or with none, and how many faults it has.
fn end_of_peer(rt: HostRuntime, has_unread: bool) -> Result<(ReadEnd, u64), Fail> {
    let Pair {
        client,
        mut link,
        shared: _,
    } = Pair::new(rt, Patience::for_http(), 0)?;
    if has_unread {
        write_all(&mut link, b"unread")?;
        client.peek(&mut [0u8; 6])?;
    }
    drop(client);
    let (end, _) = read_out(&mut link);
    Ok((end, link.read_faults()))
}

#[test]
fn a_reset_is_a_failed_read(rt: HostRuntime) -> Result<(), Fail> {
    let cases = [(false, (ReadEnd::End, 0)), (true, (ReadEnd::Failed, 1))];
    for (has_unread, end) in cases {
        let found = end_of_peer(rt, has_unread)?;
        assert!(rt; found == end, "{found:?}");
    }
    Ok(())
}

// How many bytes come before the end, by 1,000 at a time, where each is the count before it modulo 251.
fn count_in_order(mut client: &TcpStream) -> usize {
    let mut buf = [0u8; 1_000];
    let mut total = 0usize;
    for _ in 0..u64::MAX {
        let count = client.read(&mut buf).unwrap_or(0);
        let Some(piece) = buf.get(..count) else { break };
        for byte in piece {
            if usize::from(*byte) != total % 251 {
                return 0;
            }
            total = total.saturating_add(1);
        }
        if count == 0 {
            break;
        }
    }
    total
}

fn pattern(rt: HostRuntime, len: usize) -> Result<Vec<u8>, Fail> {
    let mut bytes = Vec::with_capacity(rt.alloc(), len)?;
    for index in 0..len {
        bytes.push((index % 251) as u8)?;
    }
    Ok(bytes)
}

// How many writes it takes to send all of it; none where one fails.
fn send_all<K: Sink>(out: &mut K, mut bytes: &[u8]) -> u64 {
    for writes in 0..u64::MAX {
        if bytes.is_empty() {
            return writes;
        }
        let WriteEnd::Took(count) = out.write(bytes) else {
            return 0
        };
        bytes = bytes.get(count..).unwrap_or(&[]);
    }
    0
}

const LARGE: usize = 16 << 20;

// How many writes send a large reply, and how many of its bytes come in order.
fn send_large(threads: &impl Threads, rt: HostRuntime) -> Result<(u64, usize), Fail> {
    let bytes = pattern(rt, LARGE)?;
    let Pair {
        client,
        mut link,
        shared: _,
    } = Pair::new(rt, Patience::for_http(), 0)?;
    let sending = || {
        let writes = send_all(&mut link, &bytes);
        let _ = link.timed.stream.shutdown(Shutdown::Write);
        writes
    };
    Ok(thread::join(threads, sending, || count_in_order(&client)))
}

#[test]
fn a_large_reply_arrives_whole_where_it_is_taken_in_small_pieces(
    rt: HostRuntime,
) -> Result<(), Fail> {
    let (writes, count) = send_large(&rt, rt)?;
    assert!(rt;
        count == LARGE && 1 < writes,
        "{count} bytes, {writes} writes"
    );
    Ok(())
}
