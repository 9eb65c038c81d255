// Ports with several addresses.
use super::kit::{
    BoundNet, LOCAL, bind, connect_at, gives, other_fault, pause, settings, stop_times,
};
use crate::port::BoundPorts;
use crate::{NetSettings, TcpNet};
use outside_io::{Net, NetFailed};
use std::io::Write;
use std::net::{IpAddr, Ipv4Addr, TcpStream};
use std::test::Fail;
use std::thread::Threads;
use std::{io, thread};

// Another address of this machine.
fn other() -> IpAddr {
    IpAddr::V4(Ipv4Addr::new(127, 0, 0, 2))
}

// An address that no machine has.
fn of_nobody() -> IpAddr {
    IpAddr::V4(Ipv4Addr::new(192, 0, 2, 1))
}

// Lines come at these addresses, HTTP at one.
fn lines_at(rt: HostRuntime, addresses: &[IpAddr]) -> io::Result<NetSettings> {
    let mut settings = settings(rt, 0)?;
    settings.line_addresses.clear();
    for address in addresses {
        settings.line_addresses.push(*address)?;
    }
    Ok(settings)
}

fn net_of_two(rt: HostRuntime) -> io::Result<BoundNet> {
    let settings = lines_at(rt, &[LOCAL, other()])?;
    let net = TcpNet::with_times(rt.alloc(), rt, settings, stop_times(50, 300))?;
    bind(net, 0)
}

fn send_line(
    rt: HostRuntime,
    address: IpAddr,
    ports: BoundPorts,
    line: &[u8],
) -> io::Result<TcpStream> {
    let mut client = connect_at(rt, address, ports.lines)?;
    client.write_all(line)?;
    Ok(client)
}

fn gives_next(net: &TcpNet<HostRuntime>, line: &[u8]) -> bool {
    let Some(mut link) = net.next_lines() else {
        return false
    };
    gives(&mut link, line)
}

// Whether the other address refuses at this port.
fn refuses_at_other(rt: HostRuntime, port: u16) -> bool {
    connect_at(rt, other(), port).is_err()
}

// Whether of three senders that wait at one address and one at the other this one is the second.
fn take_turns(rt: HostRuntime) -> io::Result<[bool; 5]> {
    let (net, ports) = net_of_two(rt)?;
    for line in [b"a 1 2\n", b"b 1 2\n", b"c 1 2\n"] {
        drop(send_line(rt, LOCAL, ports, line)?);
    }
    drop(send_line(rt, other(), ports, b"d 1 2\n")?);
    Ok([
        gives_next(&net, b"a 1 2\n"),
        gives_next(&net, b"d 1 2\n"),
        gives_next(&net, b"b 1 2\n"),
        gives_next(&net, b"c 1 2\n"),
        refuses_at_other(rt, ports.http),
    ])
}

#[test]
fn the_addresses_of_a_port_take_turns_and_no_other_is_open(rt: HostRuntime) -> Result<(), Fail> {
    let found = take_turns(rt)?;
    assert!(rt; found == [true; 5], "{found:?}");
    Ok(())
}

// Whether waits at both addresses end as the net is closed, and both then refuse.
fn close_while_waiting(threads: &impl Threads, rt: HostRuntime) -> Result<[bool; 4], Fail> {
    let (net, ports) = net_of_two(rt)?;
    let closer = net.closer()?;
    let waiting = || net.next_lines().is_none();
    let closing = move || {
        pause(rt, 50);
        closer.close(&rt);
    };
    let both = || thread::join(threads, waiting, waiting);
    let ((), waited) = thread::join(threads, closing, both);
    Ok([
        waited.0,
        waited.1,
        connect_at(rt, LOCAL, ports.lines).is_err(),
        refuses_at_other(rt, ports.lines),
    ])
}

#[test]
fn a_close_ends_waits_at_several_addresses(rt: HostRuntime) -> Result<(), Fail> {
    let found = close_while_waiting(&rt, rt)?;
    assert!(rt; found == [true; 4], "{found:?}");
    Ok(())
}

// Whether senders that wait at both addresses are given behind the close, and no more than these.
fn close_with_queues(rt: HostRuntime) -> io::Result<[bool; 4]> {
    let (net, ports) = net_of_two(rt)?;
    let here = send_line(rt, LOCAL, ports, b"a 1 2\n")?;
    let there = send_line(rt, other(), ports, b"b 1 2\n")?;
    net.closer().map_err(|_| other_fault())?.close(&rt);
    let found = [
        gives_next(&net, b"a 1 2\n"),
        gives_next(&net, b"b 1 2\n"),
        net.next_lines().is_none(),
        refuses_at_other(rt, ports.lines),
    ];
    drop((here, there));
    Ok(found)
}

#[test]
fn links_that_wait_at_several_addresses_at_the_stop_are_given(rt: HostRuntime) -> Result<(), Fail> {
    let found = close_with_queues(rt)?;
    assert!(rt; found == [true; 4], "{found:?}");
    Ok(())
}

// Whether lines cannot be had at these addresses.
fn is_not_had(rt: HostRuntime, addresses: &[IpAddr]) -> io::Result<bool> {
    let mut net = TcpNet::new(rt.alloc(), rt, lines_at(rt, addresses)?)?;
    Ok(net.bind(0, 0, 0) == Err(NetFailed) && net.ports().is_none() && net.faults() == 1)
}

#[test]
fn an_address_of_nobody_none_or_too_many_are_faults(rt: HostRuntime) -> Result<(), Fail> {
    let found = [
        is_not_had(rt, &[LOCAL, of_nobody()])?,
        is_not_had(rt, &[])?,
        is_not_had(rt, &[LOCAL; 17])?,
        is_not_had(rt, &[LOCAL; 2])?,
    ];
    assert!(rt; found == [true; 4], "{found:?}");
    Ok(())
}
