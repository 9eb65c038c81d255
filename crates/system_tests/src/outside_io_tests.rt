// The stand-ins in memory, and the standard streams over stand-ins.
ghost use Rattle.std.specs.Prelude.{◌<◌};

use outside_io::{
    Clock, ClosedNet, Disk, DiskFailed, FailingCalls, FixedClock, MemDisk, MemLink, MemSink,
    MemSource, Net, ReadEnd, Sink, Source, StdSink, StdSource, WriteEnd, WriteFault, write_all,
};
use std::alloc::{AllocError, Allocator, Global};
use std::fmt::Display;
use std::io::{self, BufRead, ErrorKind, Input, Lines, Print, Read};
use std::process::Abort;
use std::test::Fail;

// What four reads of at most five bytes come to, and the bytes of the last one that gave any.
fn four_reads<S: Source>(source: &mut S) -> ([ReadEnd; 4], [u8; 5]) {
    let mut buf = [0u8; 5];
    let ends = [
        source.read(&mut buf),
        source.read(&mut buf),
        source.read(&mut buf),
        source.read(&mut buf),
    ];
    (ends, buf)
}

// A source of seven bytes in pieces.
fn in_pieces(alloc: Global, most: usize, cuts: &[usize]) -> Result<MemSource, AllocError>
    requires { 0 < most }
{
    let bytes = Vec::from_slice(alloc, b"abcdefg")?;
    Ok(
        MemSource::new(alloc, bytes)
            .at_most(most)
            .cut_at(Vec::from_slice(alloc, cuts)?),
    )
}

const CASES: [(usize, [usize; 2], [ReadEnd; 4]); 4] = [
    (
        9,
        [7, 7],
        [ReadEnd::Got(5), ReadEnd::Got(2), ReadEnd::End, ReadEnd::End],
    ),
    (
        3,
        [7, 7],
        [
            ReadEnd::Got(3),
            ReadEnd::Got(3),
            ReadEnd::Got(1),
            ReadEnd::End,
        ],
    ),
    (
        9,
        [1, 4],
        [
            ReadEnd::Got(1),
            ReadEnd::Got(3),
            ReadEnd::Got(3),
            ReadEnd::End,
        ],
    ),
    (
        9,
        [4, 1],
        [
            ReadEnd::Got(1),
            ReadEnd::Got(3),
            ReadEnd::Got(3),
            ReadEnd::End,
        ],
    ),
];

#[test]
fn sources_give_bytes_in_pieces(rt: HostRuntime) -> Result<(), Fail> {
    for (most, cuts, wanted) in CASES {
        let (ends, _) = four_reads(&mut in_pieces(rt.alloc(), most.max(1), &cuts)?);
        assert!(rt; ends == wanted, "at most {most}, cut at {cuts:?}");
    }
    Ok(())
}

fn assert_listed_reads(rt: &impl Abort, source: &mut MemSource) {
    let (ends, buf) = four_reads(source);
    let wanted = [
        ReadEnd::Failed,
        ReadEnd::Got(2),
        ReadEnd::Failed,
        ReadEnd::End,
    ];
    assert!(rt; ends == wanted && buf == *b"ab\0\0\0" && source.read_faults() == 2);
}

#[test]
fn listed_reads_fail_and_take_nothing(rt: HostRuntime) -> Result<(), Fail> {
    let bytes = Vec::from_slice(rt.alloc(), b"ab")?;
    let failing = Vec::from_slice(rt.alloc(), &[1, 3])?;
    assert_listed_reads(&rt, &mut MemSource::new(rt.alloc(), bytes).failing(failing));
    Ok(())
}

fn assert_whole_texts(rt: &impl Abort, sink: &mut MemSink) {
    let ends = [
        write_all(sink, b""),
        write_all(sink, b"one two"),
        write_all(sink, b" three"),
    ];
    assert!(rt; ends == [Ok(()), Ok(()), Err(WriteFault)] && sink.write_faults() == 1);
    assert!(rt; sink.bytes() == b"one two th".as_slice());
}

#[test]
fn whole_texts_are_written(rt: HostRuntime) -> Result<(), Fail> {
    let calls = Vec::from_slice(rt.alloc(), &[5])?;
    let mut sink = MemSink::with_room(rt.alloc(), 13)?
        .at_most(3)
        .failing(calls);
    assert_whole_texts(&rt, &mut sink);
    assert!(rt; sink.into_bytes().len() == 10);
    Ok(())
}

fn assert_apart(rt: &impl Abort, link: &mut MemLink) {
    let end = link.write(b"told");
    let (ends, _) = four_reads(link);
    assert!(rt; end == WriteEnd::Took(4) && ends[0] == ReadEnd::Got(3) && ends[1] == ReadEnd::End);
    assert!(rt; link.sink.bytes() == b"told".as_slice());
    assert!(rt; link.read_faults() == 0 && link.write_faults() == 0);
}

#[test]
fn links_read_and_write_apart(rt: HostRuntime) -> Result<(), Fail> {
    let asked = Vec::from_slice(rt.alloc(), b"ask")?;
    let mut link = MemLink {
        source: MemSource::new(rt.alloc(), asked),
        sink: MemSink::new(rt.alloc()),
    };
    assert_apart(&rt, &mut link);
    Ok(())
}

#[test]
fn calls_are_counted_from_one(rt: HostRuntime) -> Result<(), Fail> {
    let mut calls = FailingCalls::new(Vec::from_slice(rt.alloc(), &[2, 3])?);
    let fails = [
        calls.fails_now(),
        calls.fails_now(),
        calls.fails_now(),
        calls.fails_now(),
    ];
    assert!(rt; fails == [false, true, true, false]);
    Ok(())
}

// Whether a disk lists these names and no others.
fn lists(disk: &mut impl Disk, wanted: &[&str]) -> bool {
    let Ok(mut names) = disk.names() else {
        return false
    };
    names.sort().is_ok() && is_list(&names, wanted)
}

fn is_list(names: &[String], wanted: &[&str]) -> bool {
    names.len() == wanted.len()
        && names
            .iter()
            .zip(wanted)
            .all(|(name, wanted)| name.as_str() == *wanted)
}

// A call of a disk, and what comes of it.
#[derive(Clone, Copy)]
enum Turn {
    // A file of this length is made, or not.
    Makes(&'static str, u64),
    MakesNot(&'static str, u64),
    // A file has this length, or is not there; or that is not told.
    Has(&'static str, Option<u64>),
    Untold(&'static str),
    // These files are listed, in any order.
    Lists(&'static [&'static str]),
    // So many calls have failed.
    Faults(u64),
}

fn takes<D: Disk>(disk: &mut D, turn: Turn) -> bool {
    match turn {
        Turn::Makes(name, len) => disk.create(name, len) == Ok(()),
        Turn::MakesNot(name, len) => disk.create(name, len) == Err(DiskFailed),
        Turn::Has(name, len) => disk.length(name) == Ok(len),
        Turn::Untold(name) => disk.length(name) == Err(DiskFailed),
        Turn::Lists(names) => lists(disk, names),
        Turn::Faults(count) => disk.faults() == count,
    }
}

fn assert_turns<D: Disk>(rt: &impl Abort, disk: &mut D, turns: &[Turn]) {
    for (n, turn) in turns.iter().enumerate() {
        assert!(rt; takes(disk, *turn), "turn {n}");
    }
}

// The second goes beyond the room, and the third makes the first one shorter.
static MADE: [Turn; 5] = [
    Turn::Makes("b/c", 6),
    Turn::MakesNot("a", 5),
    Turn::Makes("b/c", 3),
    Turn::Makes("a", 5),
    Turn::Faults(1),
];

static KEPT: [Turn; 3] = [
    Turn::Has("b/c", Some(3)),
    Turn::Has("d", None),
    Turn::Lists(&["a", "b/c", "c"]),
];

#[test]
fn disks_keep_files(rt: HostRuntime) -> Result<(), Fail> {
    let whole = Vec::from_slice(rt.alloc(), b"whole")?;
    let mut disk = MemDisk::new(rt.alloc(), 10);
    assert_turns(&rt, &mut disk, &MADE);
    disk.put_file("c", whole)?;
    assert_turns(&rt, &mut disk, &KEPT);
    Ok(())
}

// A disk of which the second of the calls that make or write fails, and the first and the third of
// those that read.
fn failing_disk(alloc: Global) -> Result<MemDisk, AllocError> {
    let calls = Vec::from_slice(alloc, &[2])?;
    let reads = Vec::from_slice(alloc, &[1, 3])?;
    Ok(MemDisk::new(alloc, 10).failing(calls).failing_reads(reads))
}

static FAILED: [Turn; 6] = [
    Turn::Makes("a", 4),
    Turn::MakesNot("b", 4),
    Turn::Untold("a"),
    Turn::Has("b", None),
    Turn::Untold("a"),
    Turn::Faults(3),
];

static MENDED: [Turn; 1] = [Turn::Lists(&["a"])];

#[test]
fn listed_calls_of_a_disk_fail_and_are_counted(rt: HostRuntime) -> Result<(), Fail> {
    let mut disk = failing_disk(rt.alloc())?;
    assert_turns(&rt, &mut disk, &FAILED);
    disk.mend();
    assert_turns(&rt, &mut disk, &MENDED);
    let calls = disk.calls();
    assert!(rt; calls.names == 1 && calls.reading() == 4 && calls.writing() == 2);
    Ok(())
}

// A disk with a file of four bytes, of which the second write fails: the bytes afterwards.
fn written_twice(disk: &mut MemDisk) -> Result<[u8; 4], DiskFailed> {
    let mut buf = [9u8; 4];
    disk.create("a", 4)?;
    disk.write_at("a", 1, b"xy")?;
    match disk.write_at("a", 0, b"zz") {
        Ok(()) => {}
        Err(DiskFailed) => disk.read_at("a", 0, &mut buf)?,
    }
    Ok(buf)
}

#[test]
fn listed_writes_fail_and_change_nothing_or_tear(rt: HostRuntime) -> Result<(), Fail> {
    for (tears, wanted) in [(false, *b"\0xy\0"), (true, *b"\xff\xffy\0")] {
        let mut disk = MemDisk::new(rt.alloc(), 4).failing(Vec::from_slice(rt.alloc(), &[3])?);
        if tears {
            disk = disk.tearing();
        }
        assert!(rt; written_twice(&mut disk) == Ok(wanted), "tears {tears}");
    }
    Ok(())
}

// The second call is a sync that fails.
fn assert_synced(rt: &impl Abort, disk: &mut MemDisk) {
    let ends = [disk.create("a", 4), disk.sync(), disk.sync()];
    assert!(rt; ends == [Ok(()), Err(DiskFailed), Ok(())]);
    assert!(rt; disk.moments() == 2 && disk.faults() == 1);
    let calls = disk.calls();
    assert!(rt; calls.syncs == 2 && calls.writing() == 1);
}

#[test]
fn a_sync_is_counted_with_the_writes(rt: HostRuntime) -> Result<(), Fail> {
    let mut disk = MemDisk::new(rt.alloc(), 4).failing(Vec::from_slice(rt.alloc(), &[2])?);
    assert_synced(&rt, &mut disk);
    Ok(())
}

#[test]
fn clocks_stand_and_nets_are_closed(rt: HostRuntime) {
    let clock = FixedClock::new(1_700_000_030);
    clock.pause();
    let mut net = ClosedNet;
    let bound = net.bind(2003, 8080, 0);
    assert!(rt; clock.now() == 1_700_000_030 && bound == Ok(()) && net.faults() == 0);
    assert!(rt; net.next_lines().is_none() && net.next_http().is_none());
}

// A process whose input gives "ab", fails, gives "c" and ends, and whose output takes two bytes at once and
// then nothing.
struct FaultyStreams;

#[derive(Drop)]
struct FaultyReader {
    turn: u64,
}

impl Read for FaultyReader {
    fn read(&mut self, buf: &mut [u8]) -> io::Result<usize> {
        self.turn = self.turn.saturating_add(1);
        let piece: &[u8] = match self.turn {
            1 => b"ab",
            2 => return Err(io::Error::from(ErrorKind::TimedOut)),
            3 => b"c",
            _ => b"",
        };
        let count = piece.len().min(buf.len());
        buf[..count].copy_from_slice(&piece[..count]);
        Ok(count)
    }
}

impl BufRead for FaultyReader {
    fn fill_buf(&mut self) -> io::Result<&[u8]> {
        Ok(&[])
    }

    fn consume(&mut self, _amount: usize) {}
}

impl Input for FaultyStreams {
    type Reader = FaultyReader;

    fn read_line<A: Allocator + Clone>(&self, buf: &mut String<A>) -> io::Result<usize> {
        self.reader().read_line(buf)
    }

    fn lines<A: Allocator>(&self, alloc: A) -> Lines<FaultyReader, A> {
        self.reader().lines(alloc)
    }

    fn reader(&self) -> FaultyReader {
        FaultyReader { turn: 0 }
    }
}

impl Print for FaultyStreams {
    fn print<D: Display + Drop>(&self, _value: D) -> io::Result<()> {
        Ok(())
    }

    fn println<D: Display + Drop>(&self, _value: D) -> io::Result<()> {
        Ok(())
    }

    fn write_all(&self, _bytes: &[u8]) -> io::Result<()> {
        Err(io::Error::from(ErrorKind::BrokenPipe))
    }

    fn write_some(&self, bytes: &[u8]) -> io::Result<usize> {
        match bytes {
            [] | [_] => Err(io::Error::from(ErrorKind::BrokenPipe)),
            [_, _] => Ok(0),
            _ => Ok(2),
        }
    }
}

#[test]
fn standard_input_is_read_to_its_end(rt: HostRuntime) {
    let mut source = StdSource::new(&FaultyStreams);
    let mut buf = [0u8; 4];
    let first = source.read(&mut buf);
    assert!(rt; first == ReadEnd::Got(2) && buf == *b"ab\0\0");
    let (ends, _) = four_reads(&mut source);
    let wanted = [ReadEnd::Failed, ReadEnd::Got(1), ReadEnd::End, ReadEnd::End];
    assert!(rt; ends == wanted && source.read_faults() == 1);
}

#[test]
fn standard_output_fails_where_nothing_is_taken(rt: HostRuntime) {
    let mut sink = StdSink::new(&FaultyStreams);
    let ends = [sink.write(b"abc"), sink.write(b"ab"), sink.write(b"a")];
    let wanted = [WriteEnd::Took(2), WriteEnd::Failed, WriteEnd::Failed];
    assert!(rt; ends == wanted && sink.write_faults() == 2);
}
