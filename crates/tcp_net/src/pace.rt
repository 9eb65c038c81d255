// How fast requests come and replies are taken.
ghost use Rattle.std.specs.Prelude.{◌<◌};

use crate::head_end::{LineEnd, count_behind_head};
use std::time::Duration;

const NANOS_A_SECOND: u64 = 1_000_000_000;

// How long it may take that bytes come.
#[derive(Clone, Copy)]
pub(crate) struct Allowance {
    // however few they are
    pub(crate) at_once: Duration,
    // a second more for each so many
    pub(crate) bytes_a_second: u64,

    ghost positive: { 0 < bytes_a_second },
}

impl Allowance {
    ghost use Rattle.std.specs.Prelude.{◌≡◌, ◌+◌, ◌*◌, ◌/◌, min};
    ghost use Rattle.std.specs.Duration.{as_nanos, max_nanos};

    pub(crate) fn for_bytes(self, bytes: u64) -> Duration
        ensures { as_nanos result
            ≡ min (as_nanos self.at_once + bytes / self.bytes_a_second * 1_000_000_000) max_nanos }
    {
        let more = Duration::from_secs(bytes / self.bytes_a_second);
        self.at_once.saturating_add(more)
    }
}

// How long writes may wait for room. Bytes that the system took may lie in its buffers, however large these are, and be
// read by nobody: so a piece that it took at once gives no more than the most.
#[derive(Clone, Copy)]
pub(crate) struct Credit {
    // behind a read
    pub(crate) at_first: Duration,
    // at any moment
    pub(crate) most: Duration,
    // a second more for each so many bytes that the system takes
    pub(crate) bytes_a_second: u64,

    ghost positive: { 0 < bytes_a_second },
}

impl Credit {
    ghost use Rattle.std.specs.Prelude.{◌≡◌, ◌*◌, ◌/◌, ◌^◌, ◌-◌, min};
    ghost use Rattle.std.specs.Duration.{as_nanos};

    // How much longer writes may wait for so many bytes.
    pub(crate) fn for_bytes(self, bytes: u64) -> Duration
        ensures { as_nanos result
            ≡ min (bytes * 1_000_000_000) (2 ^ 64 - 1) / self.bytes_a_second }
    {
        Duration::from_nanos(bytes.saturating_mul(NANOS_A_SECOND) / self.bytes_a_second)
    }
}

// How long the parts of a request and its reply may take.
#[derive(Clone, Copy)]
pub(crate) struct ExchangeTimes {
    // from the first byte of the head to its blank line
    pub(crate) head: Duration,
    // from there, for what comes behind the head
    pub(crate) body: Allowance,
    // for the waits of writes
    pub(crate) reply: Credit,
}

// How far a request and its reply are. All moments are of one clock.
#[derive(Clone, Copy)]
enum Phase {
    // No byte has come yet.
    Quiet,
    // A head is coming since this moment. Its bytes end so.
    Head { since: Duration, end: LineEnd },
    // The head is whole since this moment. So many bytes came behind it.
    Body { since: Duration, bytes: u64 },
    // Replies are written. The writes may wait so much longer.
    Reply { left: Duration },
}

// What a link that brings requests knows of its other end's pace.
#[derive(Clone, Copy)]
pub(crate) struct Pace {
    times: ExchangeTimes,
    phase: Phase,
}

impl Pace {
    pub(crate) fn new(times: ExchangeTimes) -> Self {
        Pace {
            times,
            phase: Phase::Quiet,
        }
    }

    // These bytes came at this moment.
    pub(crate) fn note_read(&mut self, piece: &[u8], now: Duration) {
        self.phase = match self.phase {
            Phase::Quiet | Phase::Reply { .. } => read_head(now, LineEnd::NoText, piece, now),
            Phase::Head { since, end } => read_head(since, end, piece, now),
            Phase::Body { since, bytes } => Phase::Body {
                since,
                bytes: bytes.saturating_add(piece.len() as u64),
            },
        };
    }

    // Whether a request is coming.
    pub(crate) fn is_reading(&self) -> bool {
        matches!(self.phase, Phase::Head { .. } | Phase::Body { .. })
    }

    // Whether replies are written.
    pub(crate) fn is_replying(&self) -> bool {
        matches!(self.phase, Phase::Reply { .. })
    }

    // How many bytes of the request have come behind its head.
    pub(crate) fn bytes_behind_head(&self) -> u64 {
        match self.phase {
            Phase::Body { bytes, .. } => bytes,
            _ => 0,
        }
    }

    // Until when more of the request may come. There is no end to it where nothing of one has come.
    pub(crate) fn deadline(&self) -> Option<Duration> {
        match self.phase {
            Phase::Head { since, .. } => Some(since.saturating_add(self.times.head)),
            Phase::Body { since, bytes } => {
                Some(since.saturating_add(self.times.body.for_bytes(bytes)))
            }
            Phase::Quiet | Phase::Reply { .. } => None,
        }
    }

    // A write waited so long for room.
    pub(crate) fn note_wait(&mut self, time: Duration) {
        let left = self.wait_left().saturating_sub(time);
        self.phase = Phase::Reply { left };
    }

    // A write took so many bytes.
    pub(crate) fn note_write(&mut self, count: usize) {
        let credit = self.times.reply;
        let more = credit.for_bytes(count as u64);
        let left = self.wait_left().saturating_add(more).min(credit.most);
        self.phase = Phase::Reply { left };
    }

    // How much longer writes may wait for room.
    pub(crate) fn wait_left(&self) -> Duration {
        match self.phase {
            Phase::Reply { left } => left,
            Phase::Quiet | Phase::Head { .. } | Phase::Body { .. } => self.times.reply.at_first,
        }
    }
}

// What a head that began then is with these bytes more.
fn read_head(since: Duration, mut end: LineEnd, piece: &[u8], now: Duration) -> Phase {
    match count_behind_head(&mut end, piece) {
        Some(count) => Phase::Body {
            since: now,
            bytes: count as u64,
        },
        None => Phase::Head { since, end },
    }
}
