// Links and a network, with flags that are up already.
use gate_io::*;
use outside_io::{MemLink, MemSink, MemSource, Net, ReadEnd, Sink, Source, WriteEnd};
use std::alloc::{AllocError, Global};
use std::process::Abort;
use std::sync::Wait;
use std::test::Fail;
use std::time::Clock;

fn source(alloc: Global, bytes: &[u8]) -> Result<MemSource, AllocError> {
    Ok(MemSource::new(alloc, Vec::from_slice(alloc, bytes)?))
}

// The flags of a link's gate, and its mark.
#[derive(Drop)]
struct Flags {
    begun: Flag,
    opens: Flag,
    marked: Flag,
}

fn flags_down(alloc: Global) -> Result<Flags, AllocError> {
    Ok(Flags {
        begun: Flag::new(alloc)?,
        opens: Flag::new(alloc)?,
        marked: Flag::new(alloc)?,
    })
}

fn gate<R: Clock + Drop>(rt: R, flags: &Flags) -> Result<Gate<R>, AllocError> {
    let begun = flags.begun.share()?;
    Ok(Gate::new(rt, begun, flags.opens.share()?))
}

// A link without bytes, whose first write goes through the gate, and which marks its third byte.
fn gated_link<R: Wait + Clock + Copy + Drop>(
    rt: R,
    alloc: Global,
    flags: &Flags,
    sent: &Sent,
) -> Result<GateLink<R>, AllocError> {
    let gate = gate(rt, flags)?;
    let marked = flags.marked.share()?;
    let sent = sent.share()?;
    let source = source(alloc, b"")?;
    let link = GateLink::new(rt, source, sent).writing_at(gate);
    Ok(link.marking(3, marked))
}

// Two bytes are written and then a third one, which is marked.
fn assert_written<R: Wait + Abort + Clock + Drop>(
    rt: &R,
    link: &mut GateLink<R>,
    flags: &Flags,
    sent: &Sent,
) {
    let told = link.write(b"ab");
    assert!(rt; told == WriteEnd::Took(2) && flags.begun.is_up() && !flags.marked.is_up());
    let told = link.write(b"c");
    assert!(rt; told == WriteEnd::Took(1) && flags.marked.is_up());
    assert!(rt; sent.are(rt, b"abc") && sent.begin_with(rt, b"ab"));
}

#[test]
fn a_write_goes_through_an_open_gate_and_is_kept(rt: HostRuntime) -> Result<(), Fail> {
    let flags = flags_down(rt.alloc())?;
    let sent = Sent::new(rt.alloc())?;
    flags.opens.raise();
    let mut link = gated_link(rt, rt.alloc(), &flags, &sent)?;
    assert_written(&rt, &mut link, &flags, &sent);
    Ok(())
}

#[test]
fn a_read_gives_the_bytes_of_its_source(rt: HostRuntime) -> Result<(), Fail> {
    let source = source(rt.alloc(), b"x")?;
    let sent = Sent::new(rt.alloc())?;
    assert_read(&rt, &mut GateLink::new(rt, source, sent));
    Ok(())
}

fn assert_read<S: Source>(rt: &impl Abort, link: &mut S) {
    let mut buffer = [0; 4];
    let told = link.read(&mut buffer);
    assert!(rt; told == ReadEnd::Got(1) && buffer == [b'x', 0, 0, 0]);
    let told = link.read(&mut buffer);
    assert!(rt; told == ReadEnd::End && link.read_faults() == 0);
}

fn link(alloc: Global, bytes: &[u8]) -> Result<MemLink, AllocError> {
    Ok(MemLink {
        source: source(alloc, bytes)?,
        sink: MemSink::new(alloc),
    })
}

// The first byte that a link brings.
fn first_byte(link: Option<MemLink>) -> Option<u8> {
    let mut link = link?;
    let mut buffer = [0];
    match link.read(&mut buffer) {
        ReadEnd::Got(_) => Some(buffer[0]),
        _ => None,
    }
}

fn links(alloc: Global, bytes: &[u8]) -> Result<Vec<MemLink>, AllocError> {
    let mut links = Vec::new(alloc);
    for byte in bytes.chunks(1) {
        links.push(link(alloc, byte)?)?;
    }
    Ok(links)
}

// What the next links of both ports bring, and the next one for lines.
fn first_bytes<R: Wait>(net: &mut MemNet<MemLink, R>) -> [Option<u8>; 3] {
    [
        first_byte(net.next_lines()),
        first_byte(net.next_http()),
        first_byte(net.next_lines()),
    ]
}

fn has_none<R: Wait>(net: &mut MemNet<MemLink, R>) -> bool {
    net.next_lines().is_none() && net.next_http().is_none()
}

// The links that are left bring these bytes.
fn assert_given<R: Wait>(rt: &impl Abort, net: &mut MemNet<MemLink, R>) {
    assert!(rt; net.bind(2003, 8080, 0).is_ok() && net.faults() == 0);
    assert!(rt; first_bytes(net) == [Some(b'1'), Some(b'3'), Some(b'2')]);
    assert!(rt; has_none(net));
}

#[test]
fn each_port_gives_its_links_from_the_front(rt: HostRuntime) -> Result<(), Fail> {
    let lines = links(rt.alloc(), b"12")?;
    let mut net = MemNet::new(rt, lines, links(rt.alloc(), b"3")?);
    assert_given(&rt, &mut net);
    Ok(())
}

#[test]
fn a_port_that_cannot_be_had_is_counted(rt: HostRuntime) -> Result<(), Fail> {
    let alloc = rt.alloc();
    let mut net: MemNet<MemLink, HostRuntime> = MemNet::new(
        rt,
        Vec::new(alloc),
        Vec::new(alloc),
    ).failing();
    assert!(rt; net.bind(0, 0, 0).is_err() && net.faults() == 1);
    Ok(())
}
