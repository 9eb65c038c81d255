//! Servers over networks in memory, whose links and disks wait for one another.
ghost use Rattle.std.specs.Prelude.{◌≡◌, IfOk, vec_len};

use crate::moving_clock::MovingClock;
use carbon_run::{Report, run};
use gate_io::{Bound, Flag, Gate, GateDisk, GateLink, MemNet, Sent};
use outside_io::{Disk, MemDisk, MemSink, MemSource};
use std::alloc::{AllocError, Global};
use std::mem;
use std::process::Abort;
use std::sync::Wait;
use std::test::Fail;
use std::thread::Threads;
use std::time::Clock;

// The moment of the clock.
const NOW: u64 = 1_700_000_030;

// ---- what a case says

// The flags of a case.
#[derive(Clone, Copy)]
enum Sign {
    // up from the start
    Open,
    // down at the start
    Left,
    Right,
    // waited for by no one
    Unheard,
    // one for each class, down at the start
    Class(u32),
}

// A call that puts one flag up as it begins, and waits for another.
#[derive(Clone, Copy)]
struct Meeting {
    tells: Sign,
    waits_for: Sign,
}

// One that waits for a flag.
fn behind(waits_for: Sign) -> Meeting {
    Meeting {
        tells: Sign::Unheard,
        waits_for,
    }
}

// Two calls that meet: each goes on once the other has come so far.
const LEFT_MEETS: Meeting = Meeting {
    tells: Sign::Left,
    waits_for: Sign::Right,
};

const RIGHT_MEETS: Meeting = Meeting {
    tells: Sign::Right,
    waits_for: Sign::Left,
};

// One that waits for the first of them.
const BEHIND_LEFT: Meeting = Meeting {
    tells: Sign::Unheard,
    waits_for: Sign::Left,
};

// Those that wait for nothing.
const TELLS_LEFT: Meeting = Meeting {
    tells: Sign::Left,
    waits_for: Sign::Open,
};

const TELLS_RIGHT: Meeting = Meeting {
    tells: Sign::Right,
    waits_for: Sign::Open,
};

// Which calls of a link wait.
#[derive(Clone, Copy)]
enum LinkWaits {
    Never,
    // its first read
    Read(Meeting),
    // the same, until a flag is up
    Behind(Sign),
    // its first write
    Write(Meeting),
    // its first write, and the flag goes up once the reply was written
    Replying(Meeting, Sign),
}

// What a link brings, and what is written to it.
#[derive(Clone, Copy)]
struct LinkCase {
    brings: &'static [u8],
    waits: LinkWaits,
    reply: &'static [u8],
}

// Which calls of the disks wait: the first writes of these classes; the first creates of some and the first writes of others; the first writes of all
// classes, where each puts up the flag of its class, and that of class 12 waits for that of class 15; or, over disks that a server left which drained a
// point of class 12, the read of that class behind that of its file's head, or none. That server's clock moved on by so many seconds whenever it was read.
#[derive(Clone, Copy)]
enum DiskWaits {
    Writes(&'static [(u32, Meeting)]),
    CreatesAndWrites(&'static [(u32, Meeting)], &'static [(u32, Meeting)]),
    WritesInTurn,
    Read(Meeting),
    NeverBehind(u64),
}

// The words of a server, its links and how it ends.
struct ServerCase {
    words: &'static str,
    disk: DiskWaits,
    lines: &'static [LinkCase],
    http: &'static [LinkCase],
    ports: Option<Bound>,
    text: &'static [u8],
}

const PORTS: Option<Bound> = Some(Bound {
    line_port: 2003,
    http_port: 8080,
    links: 0,
});

const LINE: LinkCase = LinkCase {
    brings: b"a.b 1.5 1700000000\n",
    waits: LinkWaits::Never,
    reply: b"",
};

// A link that brings a line of class 3 once the left flag is up, and one behind it, which puts the right flag up as it is read: with one receiver,
// once that line was put.
const LATE_LINE: LinkCase = LinkCase {
    brings: b"d 2 1700000000\n",
    waits: LinkWaits::Read(BEHIND_LEFT),
    reply: b"",
};

const BEHIND_LATE: LinkCase = LinkCase {
    brings: b"",
    waits: LinkWaits::Read(TELLS_RIGHT),
    reply: b"",
};

const GET_NO_ROUTE: &[u8] = b"GET /x HTTP/1.1\r\nHost: localhost\r\n\r\n";

const NO_ROUTE: LinkCase = LinkCase {
    brings: GET_NO_ROUTE,
    waits: LinkWaits::Never,
    reply: NOT_FOUND,
};

// The whole reply to it.
const NOT_FOUND: &[u8] = b"HTTP/1.1 404 Not Found\r\nContent-Length: 0\r\n\r\n";

// ---- a run

fn sixteen_flags(alloc: Global) -> Result<Vec<Flag>, AllocError> {
    let mut flags = Vec::new(alloc);
    for class in 0..16u32 {
        let _ = class;
        flags.push(Flag::new(alloc)?)?;
    }
    Ok(flags)
}

#[derive(Drop)]
struct Flags {
    open: Flag,
    left: Flag,
    right: Flag,
    unheard: Flag,
    // those of the classes
    classes: Vec<Flag>,
}

impl Flags {
    fn new(alloc: Global) -> Result<Flags, AllocError> {
        let open = Flag::new(alloc)?;
        open.raise();
        Ok(Flags {
            open,
            left: Flag::new(alloc)?,
            right: Flag::new(alloc)?,
            unheard: Flag::new(alloc)?,
            classes: sixteen_flags(alloc)?,
        })
    }

    fn share_of(&self, class: u32) -> Result<Flag, AllocError> {
        match self.classes.get(class as usize) {
            Some(flag) => flag.share(),
            None => self.unheard.share(),
        }
    }

    fn share(&self, sign: Sign) -> Result<Flag, AllocError> {
        match sign {
            Sign::Open => self.open.share(),
            Sign::Left => self.left.share(),
            Sign::Right => self.right.share(),
            Sign::Unheard => self.unheard.share(),
            Sign::Class(class) => self.share_of(class),
        }
    }

    fn gate<R: Clock + Drop>(&self, rt: R, meeting: Meeting) -> Result<Gate<R>, AllocError> {
        let tells = self.share(meeting.tells)?;
        Ok(Gate::new(rt, tells, self.share(meeting.waits_for)?))
    }
}

fn sixteen_disks<R: Clock + Drop>(alloc: Global) -> Result<Vec<GateDisk<R>>, AllocError>
    ensures { IfOk result (λ disks. vec_len disks ≡ 16) }
{
    let mut disks = Vec::with_capacity(alloc, 16)?;
    for class in 0..16u32 {
        let _ = class;
        disks.push(GateDisk::new(MemDisk::new(alloc, 10_000_000)))?;
    }
    Ok(disks)
}

// A link that waits for nothing.
fn open_link<R: Wait + Clock + Drop>(
    rt: R,
    alloc: Global,
    brings: &[u8],
    sent: &Sent,
) -> Result<GateLink<R>, AllocError> {
    let source = MemSource::new(alloc, Vec::from_slice(alloc, brings)?);
    Ok(GateLink::new(rt, source, sent.share()?))
}

fn reading<R: Wait + Clock + Copy + Drop>(
    rt: R,
    link: GateLink<R>,
    flags: &Flags,
    meeting: Meeting,
) -> Result<GateLink<R>, AllocError> {
    let gate = flags.gate(rt, meeting)?;
    Ok(link.reading_at(gate))
}

fn writing<R: Wait + Clock + Copy + Drop>(
    rt: R,
    link: GateLink<R>,
    flags: &Flags,
    meeting: Meeting,
) -> Result<GateLink<R>, AllocError> {
    let gate = flags.gate(rt, meeting)?;
    Ok(link.writing_at(gate))
}

fn marking<R: Wait + Clock + Copy + Drop>(
    link: GateLink<R>,
    flags: &Flags,
    length: usize,
    sign: Sign,
) -> Result<GateLink<R>, AllocError> {
    let flag = flags.share(sign)?;
    Ok(link.marking(length, flag))
}

fn link_of<R: Wait + Clock + Copy + Drop>(
    rt: R,
    alloc: Global,
    flags: &Flags,
    case: &LinkCase,
    sent: &Sent,
) -> Result<GateLink<R>, AllocError> {
    let link = open_link(rt, alloc, case.brings, sent)?;
    match case.waits {
        LinkWaits::Never => Ok(link),
        LinkWaits::Read(meeting) => reading(rt, link, flags, meeting),
        LinkWaits::Behind(sign) => reading(rt, link, flags, behind(sign)),
        LinkWaits::Write(meeting) => writing(rt, link, flags, meeting),
        LinkWaits::Replying(meeting, sign) => {
            let link = marking(link, flags, case.reply.len(), sign)?;
            writing(rt, link, flags, meeting)
        }
    }
}

fn links_of<R: Wait + Clock + Copy + Drop>(
    rt: R,
    alloc: Global,
    flags: &Flags,
    cases: &[LinkCase],
    sent: &[Sent],
) -> Result<Vec<GateLink<R>>, AllocError> {
    let mut links = Vec::new(alloc);
    for (case, sent) in cases.iter().zip(sent) {
        links.push(link_of(rt, alloc, flags, case, sent)?)?;
    }
    Ok(links)
}

fn sent_of(alloc: Global, cases: &[LinkCase]) -> Result<Vec<Sent>, AllocError> {
    let mut sent = Vec::new(alloc);
    for _ in 0..cases.len() {
        sent.push(Sent::new(alloc)?)?;
    }
    Ok(sent)
}

// What is sent to the links of both kinds.
#[derive(Drop)]
struct Replies {
    lines: Vec<Sent>,
    http: Vec<Sent>,
}

impl Replies {
    fn new(alloc: Global, case: &ServerCase) -> Result<Replies, AllocError> {
        let lines = sent_of(alloc, case.lines)?;
        Ok(Replies {
            lines,
            http: sent_of(alloc, case.http)?,
        })
    }

    // The network of a case. Its ports cannot be had where none are wanted.
    fn net<R: Wait + Clock + Copy + Drop>(
        &self,
        rt: R,
        alloc: Global,
        flags: &Flags,
        case: &ServerCase,
    ) -> Result<MemNet<GateLink<R>, R>, AllocError> {
        let lines = links_of(rt, alloc, flags, case.lines, &self.lines)?;
        let http = links_of(rt, alloc, flags, case.http, &self.http)?;
        Ok(net_of(rt, lines, http, case.ports))
    }
}

fn net_of<R: Wait + Clock + Copy + Drop>(
    rt: R,
    lines: Vec<GateLink<R>>,
    http: Vec<GateLink<R>>,
    ports: Option<Bound>,
) -> MemNet<GateLink<R>, R> {
    let net = MemNet::new(rt, lines, http);
    match ports {
        Some(_) => net,
        None => net.failing(),
    }
}

fn words_of(alloc: Global, text: &str) -> Result<Vec<String>, AllocError> {
    let mut words = Vec::new(alloc);
    for word in text.split(' ') {
        words.push(String::from_str(alloc, word)?)?;
    }
    Ok(words)
}

fn run_server<R: Threads + Wait + Clock + Send + Sync + Drop>(
    rt: &R,
    alloc: Global,
    words: &[String],
    disks: Vec<GateDisk<R>>,
    net: &mut MemNet<GateLink<R>, R>,
    clock: &MovingClock,
    out: &mut MemSink,
) -> Report<GateDisk<R>>
    requires { vec_len disks ≡ 16 }
    ensures { vec_len result.disks ≡ 16 }
{
    let mut input = MemSource::new(alloc, Vec::new(alloc));
    let mut conf: GateDisk<R> = GateDisk::new(MemDisk::new(alloc, 0));
    run(
        rt, alloc, words, &mut input, out, &mut conf, disks, clock, net,
    )
}

// A network of one link, which brings a line of a point of class 12.
fn line_net<R: Wait + Clock + Copy + Drop>(
    rt: R,
    alloc: Global,
) -> Result<MemNet<GateLink<R>, R>, AllocError> {
    let sent = Sent::new(alloc)?;
    let link = open_link(rt, alloc, LINE.brings, &sent)?;
    let mut lines = Vec::new(alloc);
    lines.push(link)?;
    Ok(MemNet::new(rt, lines, Vec::new(alloc)))
}

// Disks that a server left which drained a point of class 12, by a clock that moved on by so many
// seconds whenever it was read.
fn drained_disks<R: Threads + Wait + Clock + Copy + Send + Sync + Drop>(
    rt: R,
    alloc: Global,
    step: u64,
) -> Result<Vec<GateDisk<R>>, AllocError>
    ensures { IfOk result (λ disks. vec_len disks ≡ 16) }
{
    let words = words_of(alloc, "serve")?;
    let mut net = line_net(rt, alloc)?;
    let disks = sixteen_disks(alloc)?;
    let clock = MovingClock::new(NOW, step);
    let mut out = MemSink::new(alloc);
    let report = run_server(&rt, alloc, &words, disks, &mut net, &clock, &mut out);
    Ok(report.disks)
}

// These disks, of which that of class 12 has a read that waits.
fn reading_disks<R: Clock + Drop>(
    alloc: Global,
    mut disks: Vec<GateDisk<R>>,
    gate: Gate<R>,
) -> Vec<GateDisk<R>>
    requires { vec_len disks ≡ 16 }
    ensures { vec_len result ≡ 16 }
{
    let disk = mem::replace(&mut disks[12], GateDisk::new(MemDisk::new(alloc, 0)));
    disks[12] = disk.reading_at(1, gate);
    disks
}

// How a call of a class waits, where it is among these.
fn meeting_of(calls: &[(u32, Meeting)], class: u32) -> Option<Meeting> {
    calls
        .iter()
        .find(|(own, _)| *own == class)
        .map(|(_, meeting)| *meeting)
}

// How the first create of a class waits, where it does.
fn create_of(waits: DiskWaits, class: u32) -> Option<Meeting> {
    match waits {
        DiskWaits::CreatesAndWrites(creates, _) => meeting_of(creates, class),
        _ => None,
    }
}

// How the first write of a class waits, where it does.
fn write_of(waits: DiskWaits, class: u32) -> Option<Meeting> {
    match waits {
        DiskWaits::Writes(writes) => meeting_of(writes, class),
        DiskWaits::CreatesAndWrites(_, writes) => meeting_of(writes, class),
        DiskWaits::WritesInTurn => Some(in_turn(class)),
        DiskWaits::Read(_) | DiskWaits::NeverBehind(_) => None,
    }
}

fn in_turn(class: u32) -> Meeting {
    let waits_for = if class == 12 {
        Sign::Class(15)
    } else {
        Sign::Open
    };
    Meeting {
        tells: Sign::Class(class),
        waits_for,
    }
}

// A disk without files, whose first create may wait.
fn creating<R: Clock + Copy + Drop>(
    rt: R,
    alloc: Global,
    flags: &Flags,
    create: Option<Meeting>,
) -> Result<GateDisk<R>, AllocError> {
    let disk = GateDisk::new(MemDisk::new(alloc, 10_000_000));
    match create {
        Some(meeting) => Ok(disk.creating_at(flags.gate(rt, meeting)?)),
        None => Ok(disk),
    }
}

// The disk of a class, without files, whose first create and first write may wait.
fn disk_of<R: Clock + Copy + Drop>(
    rt: R,
    alloc: Global,
    flags: &Flags,
    class: u32,
    waits: DiskWaits,
) -> Result<GateDisk<R>, AllocError> {
    let disk = creating(rt, alloc, flags, create_of(waits, class))?;
    match write_of(waits, class) {
        Some(meeting) => Ok(disk.writing_at(flags.gate(rt, meeting)?)),
        None => Ok(disk),
    }
}

fn writing_disks<R: Clock + Copy + Drop>(
    rt: R,
    alloc: Global,
    flags: &Flags,
    waits: DiskWaits,
) -> Result<Vec<GateDisk<R>>, AllocError>
    ensures { IfOk result (λ disks. vec_len disks ≡ 16) }
{
    let mut disks = Vec::with_capacity(alloc, 16)?;
    for class in 0..16u32 {
        disks.push(disk_of(rt, alloc, flags, class, waits)?)?;
    }
    Ok(disks)
}

fn disks_of<R: Threads + Wait + Clock + Copy + Send + Sync + Drop>(
    rt: R,
    alloc: Global,
    flags: &Flags,
    waits: DiskWaits,
) -> Result<Vec<GateDisk<R>>, AllocError>
    ensures { IfOk result (λ disks. vec_len disks ≡ 16) }
{
    match waits {
        DiskWaits::Read(meeting) => {
            let gate = flags.gate(rt, meeting)?;
            Ok(reading_disks(alloc, drained_disks(rt, alloc, 0)?, gate))
        }
        DiskWaits::NeverBehind(step) => drained_disks(rt, alloc, step),
        writes => writing_disks(rt, alloc, flags, writes),
    }
}

// What a server left.
#[derive(Drop)]
struct Left<R: Clock + Drop> {
    report: Report<GateDisk<R>>,
    ports: Option<Bound>,
}

fn run_case<R: Threads + Wait + Clock + Copy + Send + Sync + Drop>(
    rt: &R,
    alloc: Global,
    case: &ServerCase,
    replies: &Replies,
    out: &mut MemSink,
) -> Result<Left<R>, AllocError> {
    let words = words_of(alloc, case.words)?;
    let flags = Flags::new(alloc)?;
    let mut net = replies.net(*rt, alloc, &flags, case)?;
    let disks = disks_of(*rt, alloc, &flags, case.disk)?;
    let clock = MovingClock::new(NOW, 0);
    let report = run_server(rt, alloc, &words, disks, &mut net, &clock, out);
    Ok(Left {
        report,
        ports: net.bound(),
    })
}

// ---- what is wanted

// No call of the disk of class 12 has failed, which would have waited in vain.
fn assert_left<R: Clock + Drop>(rt: &impl Abort, left: &Left<R>, out: &MemSink, case: &ServerCase) {
    let status = if case.ports.is_none() { 9 } else { 0 };
    assert!(rt;
        left.report.status == status && left.ports == case.ports,
        "{}",
        case.words
    );
    assert!(rt;
        left.report
            .disks
            .get(12)
            .is_some_and(|disk| disk.faults() == 0)
    );
    assert!(rt; out.bytes() == case.text, "{}", case.words);
}

fn assert_sent<R: Wait + Abort>(rt: &R, sent: &[Sent], cases: &[LinkCase]) {
    for (k, (sent, case)) in sent.iter().zip(cases).enumerate() {
        assert!(rt; sent.are(rt, case.reply), "link {k}");
    }
}

fn assert_served<R: Threads + Wait + Abort + Clock + Copy + Send + Sync + Drop>(
    rt: &R,
    alloc: Global,
    case: &ServerCase,
) -> Result<(), Fail> {
    let replies = Replies::new(alloc, case)?;
    assert_case(rt, alloc, case, &replies)?;
    assert_sent(rt, &replies.lines, case.lines);
    assert_sent(rt, &replies.http, case.http);
    Ok(())
}

fn assert_case<R: Threads + Wait + Abort + Clock + Copy + Send + Sync + Drop>(
    rt: &R,
    alloc: Global,
    case: &ServerCase,
    replies: &Replies,
) -> Result<(), Fail> {
    let mut out = MemSink::new(alloc);
    let left = run_case(rt, alloc, case, replies, &mut out)?;
    assert_left(rt, &left, &out, case);
    Ok(())
}

// ---- the tests

static ONE_LINE: ServerCase = ServerCase {
    words: "serve",
    disk: DiskWaits::Writes(&[]),
    lines: &[LINE],
    http: &[],
    ports: PORTS,
    text: b"stored 1 replaced 0 full 0 drains 1\n",
};

#[test]
fn one_line_is_served_and_drained(rt: HostRuntime) -> Result<(), Fail> {
    assert_served(&rt, rt.alloc(), &ONE_LINE)
}

static NO_PORTS: ServerCase = ServerCase {
    words: "serve --receivers=1",
    disk: DiskWaits::Writes(&[]),
    lines: &[],
    http: &[],
    ports: None,
    text: b"carbon: no port\n",
};

#[test]
fn a_server_without_ports_tells_so(rt: HostRuntime) -> Result<(), Fail> {
    assert_served(&rt, rt.alloc(), &NO_PORTS)
}

static NO_LINKS: [ServerCase; 2] = [
    ServerCase {
        words: "serve",
        disk: DiskWaits::Writes(&[]),
        lines: &[],
        http: &[],
        ports: PORTS,
        text: b"stored 0 replaced 0 full 0 drains 0\n",
    },
    ServerCase {
        words: "serve --line-port 1 --http-port=2 --links 3",
        disk: DiskWaits::Writes(&[]),
        lines: &[],
        http: &[],
        ports: Some(Bound {
            line_port: 1,
            http_port: 2,
            links: 3,
        }),
        text: b"stored 0 replaced 0 full 0 drains 0\n",
    },
];

#[test]
fn the_words_say_which_ports_are_opened_and_for_how_many_links(
    rt: HostRuntime,
) -> Result<(), Fail> {
    for case in NO_LINKS.iter() {
        assert_served(&rt, rt.alloc(), case)?;
    }
    Ok(())
}

static ONE_WORKER: ServerCase = ServerCase {
    words: "serve --receivers 1 --renderers 1",
    disk: DiskWaits::Writes(&[]),
    lines: &[
        LinkCase {
            brings: b"a.b 1 1700000000\n",
            waits: LinkWaits::Never,
            reply: b"",
        },
        LinkCase {
            brings: b"a.r 2 1700000000\n",
            waits: LinkWaits::Never,
            reply: b"",
        },
        LinkCase {
            brings: b"a.2 3 1700000000\n",
            waits: LinkWaits::Never,
            reply: b"",
        },
    ],
    http: &[NO_ROUTE, NO_ROUTE],
    ports: PORTS,
    text: b"stored 3 replaced 0 full 0 drains 3\n",
};

#[test]
fn one_worker_of_each_kind_serves_all_links(rt: HostRuntime) -> Result<(), Fail> {
    assert_served(&rt, rt.alloc(), &ONE_WORKER)
}

static TWO_RECEIVERS: ServerCase = ServerCase {
    words: "serve --receivers 2 --renderers 1",
    disk: DiskWaits::Writes(&[]),
    lines: &[
        LinkCase {
            brings: b"a.b 1 1700000000\n",
            waits: LinkWaits::Read(LEFT_MEETS),
            reply: b"",
        },
        LinkCase {
            brings: b"a.r 2 1700000000\n",
            waits: LinkWaits::Read(RIGHT_MEETS),
            reply: b"",
        },
    ],
    http: &[],
    ports: PORTS,
    text: b"stored 2 replaced 0 full 0 drains 2\n",
};

#[test]
fn two_receivers_read_at_once(rt: HostRuntime) -> Result<(), Fail> {
    assert_served(&rt, rt.alloc(), &TWO_RECEIVERS)
}

static TWO_RENDERERS: ServerCase = ServerCase {
    words: "serve --receivers 1 --renderers 2",
    disk: DiskWaits::Writes(&[]),
    lines: &[],
    http: &[
        LinkCase {
            brings: GET_NO_ROUTE,
            waits: LinkWaits::Write(LEFT_MEETS),
            reply: NOT_FOUND,
        },
        LinkCase {
            brings: GET_NO_ROUTE,
            waits: LinkWaits::Write(RIGHT_MEETS),
            reply: NOT_FOUND,
        },
    ],
    ports: PORTS,
    text: b"stored 0 replaced 0 full 0 drains 0\n",
};

#[test]
fn two_renderers_write_at_once(rt: HostRuntime) -> Result<(), Fail> {
    assert_served(&rt, rt.alloc(), &TWO_RENDERERS)
}

// The disk's first write goes on once the reply is written, which is written once that write has begun.
static DRAINED_MEANWHILE: ServerCase = ServerCase {
    words: "serve",
    disk: DiskWaits::Writes(&[(12, LEFT_MEETS)]),
    lines: &[LINE],
    http: &[LinkCase {
        brings: GET_NO_ROUTE,
        waits: LinkWaits::Replying(BEHIND_LEFT, Sign::Right),
        reply: NOT_FOUND,
    }],
    ports: PORTS,
    text: b"stored 1 replaced 0 full 0 drains 1\n",
};

#[test]
fn the_drainer_writes_while_links_are_served(rt: HostRuntime) -> Result<(), Fail> {
    assert_served(&rt, rt.alloc(), &DRAINED_MEANWHILE)
}

// ---- two drainers

// The link that brings nothing is there until the right flag is up.
const OPEN_UNTIL_RIGHT: LinkCase = LinkCase {
    brings: b"",
    waits: LinkWaits::Behind(Sign::Right),
    reply: b"",
};

// The first write of class 12 goes on once that of class 3 has begun. That is the third step of a drain that begins once the write of class 12 waits:
// between two of them a drainer comes to class 12.
static PASSED_OVER: ServerCase = ServerCase {
    words: "serve --receivers 1 --drainers 2",
    disk: DiskWaits::Writes(&[(12, LEFT_MEETS), (3, TELLS_RIGHT)]),
    lines: &[LINE, LATE_LINE, OPEN_UNTIL_RIGHT],
    http: &[],
    ports: PORTS,
    text: b"stored 2 replaced 0 full 0 drains 2\n",
};

#[test]
fn a_drainer_passes_over_the_class_at_which_another_one_is(rt: HostRuntime) -> Result<(), Fail> {
    assert_served(&rt, rt.alloc(), &PASSED_OVER)
}

// A line of class 12, and one of each other class, each once the write of the one before has begun. The last link is there until that of class 15
// has.
const LINES_IN_TURN: [LinkCase; 17] = [
    LINE,
    LinkCase {
        brings: b"p.c 1 1700000000\n",
        waits: LinkWaits::Behind(Sign::Class(12)),
        reply: b"",
    },
    LinkCase {
        brings: b"p.h 1 1700000000\n",
        waits: LinkWaits::Behind(Sign::Class(0)),
        reply: b"",
    },
    LinkCase {
        brings: b"p.e 1 1700000000\n",
        waits: LinkWaits::Behind(Sign::Class(1)),
        reply: b"",
    },
    LinkCase {
        brings: b"p.b 1 1700000000\n",
        waits: LinkWaits::Behind(Sign::Class(2)),
        reply: b"",
    },
    LinkCase {
        brings: b"p.o 1 1700000000\n",
        waits: LinkWaits::Behind(Sign::Class(3)),
        reply: b"",
    },
    LinkCase {
        brings: b"p.d 1 1700000000\n",
        waits: LinkWaits::Behind(Sign::Class(4)),
        reply: b"",
    },
    LinkCase {
        brings: b"p.a 1 1700000000\n",
        waits: LinkWaits::Behind(Sign::Class(5)),
        reply: b"",
    },
    LinkCase {
        brings: b"p.n 1 1700000000\n",
        waits: LinkWaits::Behind(Sign::Class(6)),
        reply: b"",
    },
    LinkCase {
        brings: b"p.k 1 1700000000\n",
        waits: LinkWaits::Behind(Sign::Class(7)),
        reply: b"",
    },
    LinkCase {
        brings: b"p.p 1 1700000000\n",
        waits: LinkWaits::Behind(Sign::Class(8)),
        reply: b"",
    },
    LinkCase {
        brings: b"p.m 1 1700000000\n",
        waits: LinkWaits::Behind(Sign::Class(9)),
        reply: b"",
    },
    LinkCase {
        brings: b"p.j 1 1700000000\n",
        waits: LinkWaits::Behind(Sign::Class(10)),
        reply: b"",
    },
    LinkCase {
        brings: b"p.l 1 1700000000\n",
        waits: LinkWaits::Behind(Sign::Class(11)),
        reply: b"",
    },
    LinkCase {
        brings: b"p.i 1 1700000000\n",
        waits: LinkWaits::Behind(Sign::Class(13)),
        reply: b"",
    },
    LinkCase {
        brings: b"p.f 1 1700000000\n",
        waits: LinkWaits::Behind(Sign::Class(14)),
        reply: b"",
    },
    LinkCase {
        brings: b"",
        waits: LinkWaits::Behind(Sign::Class(15)),
        reply: b"",
    },
];

// The first write of class 12 goes on once that of class 15 has begun; by then the drains of the other classes have ended. Each link has a receiver:
// where a drainer stands still all of them wait at once.
static OTHERS_DRAINED: ServerCase = ServerCase {
    words: "serve --receivers 17 --drainers 2",
    disk: DiskWaits::WritesInTurn,
    lines: &LINES_IN_TURN,
    http: &[],
    ports: PORTS,
    text: b"stored 16 replaced 0 full 0 drains 16\n",
};

#[test]
fn one_drainer_drains_all_other_classes_while_another_waits_for_a_disk(
    rt: HostRuntime,
) -> Result<(), Fail> {
    assert_served(&rt, rt.alloc(), &OTHERS_DRAINED)
}

// ---- two drainers at the stop

const LINES_OF_12_AND_13: LinkCase = LinkCase {
    brings: b"a.b 1.5 1700000000\np.l 1 1700000000\n",
    waits: LinkWaits::Never,
    reply: b"",
};

// A link that brings nothing, and is there until the left flag is up.
const OPEN_UNTIL_LEFT: LinkCase = LinkCase {
    brings: b"",
    waits: LinkWaits::Behind(Sign::Left),
    reply: b"",
};

// A link that brings lines of the classes 3 and 5 once a run of class 13 waits.
const LINES_OF_3_AND_5: LinkCase = LinkCase {
    brings: b"d 2 1700000000\np.d 3 1700000000\n",
    waits: LinkWaits::Behind(Sign::Class(13)),
    reply: b"",
};

const TELLS_13_BEHIND_RIGHT: Meeting = Meeting {
    tells: Sign::Class(13),
    waits_for: Sign::Right,
};

const BEHIND_5: Meeting = Meeting {
    tells: Sign::Unheard,
    waits_for: Sign::Class(5),
};

const TELLS_5: Meeting = Meeting {
    tells: Sign::Class(5),
    waits_for: Sign::Open,
};

// Each drainer waits for a disk, of class 12 and of class 13, until the last points were put, those of the classes 3 and 5. At the stop the first write
// of class 3 goes on once that of class 5 has begun.
static DRAINED_AT_THE_STOP: ServerCase = ServerCase {
    words: "serve --receivers 1 --drainers 2",
    disk: DiskWaits::Writes(&[
        (12, LEFT_MEETS),
        (13, TELLS_13_BEHIND_RIGHT),
        (3, BEHIND_5),
        (5, TELLS_5),
    ]),
    lines: &[
        LINES_OF_12_AND_13,
        OPEN_UNTIL_LEFT,
        LINES_OF_3_AND_5,
        BEHIND_LATE,
    ],
    http: &[],
    ports: PORTS,
    text: b"stored 4 replaced 0 full 0 drains 4\n",
};

#[test]
fn what_is_pending_at_the_stop_is_drained_by_all_drainers(rt: HostRuntime) -> Result<(), Fail> {
    assert_served(&rt, rt.alloc(), &DRAINED_AT_THE_STOP)
}

// ---- the turns of one drainer

// The file of class 13 is made once that of class 12 has its first run.
const MADE_BEHIND_A_RUN: Meeting = Meeting {
    tells: Sign::Class(0),
    waits_for: Sign::Class(12),
};

// The first run of class 13 is written once the file of class 3 was made.
const WRITTEN_BEHIND_A_FILE: Meeting = Meeting {
    tells: Sign::Class(13),
    waits_for: Sign::Class(3),
};

const TELLS_3: Meeting = Meeting {
    tells: Sign::Class(3),
    waits_for: Sign::Open,
};

const TELLS_12: Meeting = Meeting {
    tells: Sign::Class(12),
    waits_for: Sign::Open,
};

// A link that brings lines of the classes 3 and 13 once the left flag is up.
const LATE_LINES: LinkCase = LinkCase {
    brings: b"d 2 1700000000\np.l 3 1700000000\n",
    waits: LinkWaits::Read(BEHIND_LEFT),
    reply: b"",
};

// A drain is begun, makes its file, and writes it by two runs. While the file of class 12 is made, points of the classes 3 and 13 come. Each of the
// three has one step then before another one has its next: the file of class 13 is made once that of class 12 has its first run, and has
// its own first run once that of class 3 was made.
static STEP_BY_STEP: ServerCase = ServerCase {
    words: "serve --receivers 1",
    disk: DiskWaits::CreatesAndWrites(
        &[(12, LEFT_MEETS), (13, MADE_BEHIND_A_RUN), (3, TELLS_3)],
        &[(12, TELLS_12), (13, WRITTEN_BEHIND_A_FILE)],
    ),
    lines: &[
        LINE,
        LATE_LINES,
        BEHIND_LATE,
        LinkCase {
            brings: b"",
            waits: LinkWaits::Behind(Sign::Class(13)),
            reply: b"",
        },
    ],
    http: &[],
    ports: PORTS,
    text: b"stored 3 replaced 0 full 0 drains 3\n",
};

#[test]
fn a_drainer_takes_one_step_of_a_class_in_a_round(rt: HostRuntime) -> Result<(), Fail> {
    assert_served(&rt, rt.alloc(), &STEP_BY_STEP)
}

// ---- puts beside a disk that waits

static PUT_BESIDE_A_WRITE: ServerCase = ServerCase {
    words: "serve --receivers 1",
    disk: DiskWaits::Writes(&[(12, LEFT_MEETS)]),
    lines: &[LINE, LATE_LINE, BEHIND_LATE],
    http: &[],
    ports: PORTS,
    text: b"stored 2 replaced 0 full 0 drains 2\n",
};

#[test]
fn a_point_is_put_while_the_disk_of_another_class_writes(rt: HostRuntime) -> Result<(), Fail> {
    assert_served(&rt, rt.alloc(), &PUT_BESIDE_A_WRITE)
}

static PUT_BESIDE_A_READ: ServerCase = ServerCase {
    words: "serve --receivers 1",
    disk: DiskWaits::Read(LEFT_MEETS),
    lines: &[LATE_LINE, BEHIND_LATE],
    http: &[LinkCase {
        brings: b"GET /render?target=a.b&from=1699999930&until=1700000030 HTTP/1.1\r\nConnection: close\r\n\r\n",
        waits: LinkWaits::Never,
        reply: b"HTTP/1.1 200 OK\r\nContent-Type: application/json\r\nContent-Length: 54\r\nConnection: close\r\n\r\n[{\"target\": \"a.b\", \"datapoints\": [[1.5, 1699999980]]}]",
    }],
    ports: PORTS,
    text: b"stored 1 replaced 0 full 0 drains 1\n",
};

#[test]
fn a_point_is_put_while_a_question_reads_another_class(rt: HostRuntime) -> Result<(), Fail> {
    assert_served(&rt, rt.alloc(), &PUT_BESIDE_A_READ)
}

// What is read of the file of a point that was drained.
const READ_BACK: &[u8] =
    b"GET /render?target=a.b&from=1699999930&until=1700000030 HTTP/1.1\r\nConnection: close\r\n\r\n";

const WRITTEN: LinkCase = LinkCase {
    brings: READ_BACK,
    waits: LinkWaits::Never,
    reply: b"HTTP/1.1 200 OK\r\nContent-Type: application/json\r\nContent-Length: 54\r\nConnection: close\r\n\r\n[{\"target\": \"a.b\", \"datapoints\": [[1.5, 1699999980]]}]",
};

const DROPPED: LinkCase = LinkCase {
    brings: READ_BACK,
    waits: LinkWaits::Never,
    reply: b"HTTP/1.1 200 OK\r\nContent-Type: application/json\r\nContent-Length: 55\r\nConnection: close\r\n\r\n[{\"target\": \"a.b\", \"datapoints\": [[null, 1699999980]]}]",
};

// Where the clock moved on by a thousand days whenever it was read, the point is older than all archives when it is drained.
static DRAINED_LATE: [ServerCase; 2] = [
    ServerCase {
        words: "serve",
        disk: DiskWaits::NeverBehind(0),
        lines: &[],
        http: &[WRITTEN],
        ports: PORTS,
        text: b"stored 0 replaced 0 full 0 drains 0\n",
    },
    ServerCase {
        words: "serve",
        disk: DiskWaits::NeverBehind(86_400_000),
        lines: &[],
        http: &[DROPPED],
        ports: PORTS,
        text: b"stored 0 replaced 0 full 0 drains 0\n",
    },
];

#[test]
fn a_point_is_drained_at_a_moment_of_the_drain(rt: HostRuntime) -> Result<(), Fail> {
    for case in DRAINED_LATE.iter() {
        assert_served(&rt, rt.alloc(), case)?;
    }
    Ok(())
}

// What a dashboard browses and then draws, on one link: nodes, paths, all names, a request without a query, the values of a metric in two forms.
const BROWSED: &[u8] =
    b"GET /metrics/find?query=* HTTP/1.1\r\nHost: x\r\n\r\nGET /metrics/expand?query=* HTTP/1.1\r\n\r\nGET /metrics/index.json HTTP/1.1\r\n\r\nGET /metrics/find HTTP/1.1\r\n\r\nGET /render?target=a.b&from=1699999930&until=1700000030&format=csv HTTP/1.1\r\n\r\nGET /render?target=a.b&from=1699999930&until=1700000030 HTTP/1.1\r\nConnection: close\r\n\r\n";

const BROWSED_REPLIES: &[u8] =
    b"HTTP/1.1 200 OK\r\nContent-Type: application/json\r\nContent-Length: 89\r\n\r\n[{\"allowChildren\": 1, \"expandable\": 1, \"leaf\": 0, \"id\": \"a\", \"text\": \"a\", \"context\": {}}]HTTP/1.1 200 OK\r\nContent-Type: application/json\r\nContent-Length: 18\r\n\r\n{\"results\": [\"a\"]}HTTP/1.1 200 OK\r\nContent-Type: application/json\r\nContent-Length: 7\r\n\r\n[\"a.b\"]HTTP/1.1 400 Bad Request\r\nContent-Type: text/plain\r\nContent-Length: 9\r\n\r\nno query\nHTTP/1.1 200 OK\r\nContent-Type: text/csv\r\nContent-Length: 29\r\n\r\na.b,2023-11-14 22:13:00,1.5\r\nHTTP/1.1 200 OK\r\nContent-Type: application/json\r\nContent-Length: 54\r\nConnection: close\r\n\r\n[{\"target\": \"a.b\", \"datapoints\": [[1.5, 1699999980]]}]";

// A link whose requests are read once the one line of another link is being drained.
static BROWSED_LINK: ServerCase = ServerCase {
    words: "serve",
    disk: DiskWaits::Writes(&[(12, TELLS_LEFT)]),
    lines: &[LINE],
    http: &[LinkCase {
        brings: BROWSED,
        waits: LinkWaits::Read(BEHIND_LEFT),
        reply: BROWSED_REPLIES,
    }],
    ports: PORTS,
    text: b"stored 1 replaced 0 full 0 drains 1\n",
};

#[test]
fn names_and_values_are_told_over_one_link(rt: HostRuntime) -> Result<(), Fail> {
    assert_served(&rt, rt.alloc(), &BROWSED_LINK)
}
