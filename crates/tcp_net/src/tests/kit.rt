// Both ends of connections in one process.
use crate::net_closer::StopTimes;
use crate::pace::ExchangeTimes;
use crate::patience::Patience;
use crate::port::{BoundPorts, Port};
use crate::shared::Shared;
use crate::tcp_link::TcpLink;
use crate::timed_stream::TimedStream;
use crate::{NetSettings, TcpNet};
use outside_io::{Net, ReadEnd, Source};
use std::io::{ErrorKind, Read, Write};
use std::net::{IpAddr, Ipv4Addr, Shutdown, SocketAddr, TcpStream};
use std::sync::Arc;
use std::test::Fail;
use std::time::{Duration, Instant};
use std::{io, thread};

pub(super) const LOCAL: IpAddr = IpAddr::V4(Ipv4Addr::LOCALHOST);

pub(super) fn other_fault() -> io::Error {
    io::Error::from(ErrorKind::Other)
}

// The times of the tests are all made here, since each place that makes one is proved at some cost.
pub(super) fn millis(count: u64) -> Duration {
    Duration::from_millis(count)
}

pub(super) fn seconds(count: u64) -> Duration {
    Duration::from_secs(count)
}

pub(super) fn pause(rt: HostRuntime, count: u64) {
    thread::sleep(&rt, millis(count));
}

// How many milliseconds have gone by since then.
pub(super) fn millis_since(rt: HostRuntime, begun: Instant) -> io::Result<u128> {
    Ok(begun.elapsed(&rt)?.as_millis())
}

// The times of a link for HTTP.
pub(super) fn exchange_times() -> Result<ExchangeTimes, Fail> {
    match Patience::for_http().for_exchange {
        Some(times) => Ok(times),
        None => Err(Fail::new("no times")),
    }
}

pub(super) fn settings(rt: HostRuntime, line_patience: u32) -> io::Result<NetSettings> {
    Ok(NetSettings {
        line_addresses: vec![in rt.alloc(); LOCAL]?,
        http_addresses: vec![in rt.alloc(); LOCAL]?,
        line_patience,
    })
}

pub(super) fn new_net(rt: HostRuntime, line_patience: u32) -> io::Result<TcpNet<HostRuntime>> {
    TcpNet::new(rt.alloc(), rt, settings(rt, line_patience)?)
}

pub(super) fn stop_times(grace_millis: u64, rest_millis: u64) -> StopTimes {
    StopTimes {
        grace: millis(grace_millis),
        rest: millis(rest_millis),
    }
}

pub(super) fn connect(rt: HostRuntime, port: u16) -> io::Result<TcpStream> {
    connect_at(rt, LOCAL, port)
}

pub(super) fn connect_at(rt: HostRuntime, address: IpAddr, port: u16) -> io::Result<TcpStream> {
    TcpStream::connect(&rt, SocketAddr::from((address, port)))
}

// The client's end of a connection over which a piece was sent.
pub(super) fn connect_and_send(rt: HostRuntime, port: u16, piece: &[u8]) -> io::Result<TcpStream> {
    let mut client = connect(rt, port)?;
    client.write_all(piece)?;
    Ok(client)
}

// The same where nothing more comes.
pub(super) fn connect_and_end(rt: HostRuntime, port: u16, piece: &[u8]) -> io::Result<TcpStream> {
    let client = connect_and_send(rt, port, piece)?;
    client.shutdown(Shutdown::Write)?;
    Ok(client)
}

// Takes as many bytes as fit in the buffer, so often and with so many milliseconds behind each.
pub(super) fn sip(
    rt: HostRuntime,
    mut client: &TcpStream,
    buf: &mut [u8],
    times: u64,
    each_millis: u64,
) {
    for _ in 0..times {
        let _ = client.read(buf);
        pause(rt, each_millis);
    }
}

// Whether a source gives just this text and is then at its end.
pub(super) fn gives<S: Source>(source: &mut S, text: &[u8]) -> bool {
    let mut rest = text;
    let mut buf = [0u8; 64];
    for _ in 0..10 {
        let ReadEnd::Got(count) = source.read(&mut buf) else {
            break
        };
        let Some(left) = rest.strip_prefix(&buf[..count]) else {
            return false
        };
        rest = left;
    }
    rest.is_empty() && source.read(&mut buf) == ReadEnd::End
}

// How a source ends, and how many reads gave bytes before.
pub(super) fn read_out<S: Source>(source: &mut S) -> (ReadEnd, u64) {
    let mut buf = [0u8; 4096];
    for count in 0..u64::MAX {
        match source.read(&mut buf) {
            ReadEnd::Got(_) => {}
            end => return (end, count),
        }
    }
    (ReadEnd::Failed, u64::MAX)
}

// Whether a client is sent just this piece and then the end.
pub(super) fn is_sent(client: &mut TcpStream, piece: &[u8]) -> io::Result<bool> {
    let mut buf = [0u8; 64];
    let count = client.read(&mut buf)?;
    Ok(buf.get(..count) == Some(piece) && client.read(&mut buf)? == 0)
}

pub(super) fn is_refused(rt: HostRuntime, ports: BoundPorts) -> bool {
    connect(rt, ports.lines).is_err() && connect(rt, ports.http).is_err()
}

pub(super) type BoundNet = (TcpNet<HostRuntime>, BoundPorts);

pub(super) fn bound_net(rt: HostRuntime, links: u64) -> io::Result<BoundNet> {
    bind(new_net(rt, 0)?, links)
}

// A net that bound two free ports, which were not told before.
pub(super) fn bind(mut net: TcpNet<HostRuntime>, links: u64) -> io::Result<BoundNet> {
    let before = net.ports();
    let bound = net.bind(0, 0, links);
    match net.ports() {
        Some(ports) if before.is_none() && bound == Ok(()) => Ok((net, ports)),
        _ => Err(other_fault()),
    }
}

// Both ends of a connection.
#[derive(Drop)]
pub(super) struct Streams {
    pub(super) client: TcpStream,
    pub(super) served: TcpStream,
}

pub(super) fn connected_streams(rt: HostRuntime) -> io::Result<Streams> {
    let port = Port::open(&rt, rt.alloc(), &[LOCAL], 0, 0)?;
    let client = connect(rt, port.number())?;
    match port.next_stream(&rt) {
        Some(served) => Ok(Streams { client, served }),
        None => Err(other_fault()),
    }
}

// What a net shares with its links.
pub(super) fn new_shared(rt: HostRuntime, rest_millis: u64) -> io::Result<Arc<Shared>> {
    let shared = Shared::new(&rt, stop_times(0, rest_millis))?;
    Ok(Arc::new(rt.alloc(), shared)?)
}

// Both ends of a connection, and what the link's net would share with it.
#[derive(Drop)]
pub(super) struct Pair {
    pub(super) client: TcpStream,
    pub(super) link: TcpLink<HostRuntime>,
    pub(super) shared: Arc<Shared>,
}

impl Pair {
    pub(super) fn new(rt: HostRuntime, patience: Patience, rest_millis: u64) -> io::Result<Self> {
        let shared = new_shared(rt, rest_millis)?;
        let of_link = Arc::try_clone(&shared)?;
        let Streams { client, served } = connected_streams(rt)?;
        Ok(Pair {
            client,
            link: TcpLink::new(TimedStream::new(rt, served, of_link, patience)),
            shared,
        })
    }
}
