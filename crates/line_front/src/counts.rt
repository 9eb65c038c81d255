ghost use Rattle.std.specs.Prelude.{◌≡◌};

use carbon_history::PutEnd;
use metric_line::LineFault;
use shared_store::PutCounts;

/// How many metric lines there were of each kind: those that were put by how that ended, and those that were refused by the
/// reason. A count that has come to 2^64 - 1 stays there.
#[derive(Clone, Copy, Debug, PartialEq, Eq)]
pub struct Counts {
    /// Points of a time that the metric had not pending.
    pub stored: u64,
    /// Points of a time that it had.
    pub replaced: u64,
    /// Points that a full class did not take.
    pub full: u64,
    /// Lines that have not three fields.
    pub fields: u64,
    /// Lines whose path is not legal.
    pub path: u64,
    /// Lines whose value is refused.
    pub value: u64,
    /// Lines whose time is refused.
    pub time: u64,
    /// Lines that are too long.
    pub long: u64,
}

impl Counts {
    ghost use Rattle.line_front.specs.Counts.{no_counts, counted, counted_puts, refused, overlong};

    /// No lines.
    pub const fn none() -> Counts
        ensures { result ≡ no_counts }
    {
        Counts {
            stored: 0,
            replaced: 0,
            full: 0,
            fields: 0,
            path: 0,
            value: 0,
            time: 0,
            long: 0,
        }
    }

    /// Counts a metric line that was refused, by the reason. Want of memory is no reason.
    pub fn count_refused(&mut self, fault: &LineFault)
        ensures { self.new ≡ refused self.old fault.now }
    {
        match fault {
            LineFault::Fields(_) => self.fields = self.fields.saturating_add(1),
            LineFault::Path(_) => self.path = self.path.saturating_add(1),
            LineFault::Value(_) => self.value = self.value.saturating_add(1),
            LineFault::Time(_) => self.time = self.time.saturating_add(1),
            LineFault::NoMemory => {}
        }
    }

    /// Counts a line that was too long.
    pub fn count_long(&mut self)
        ensures { self.new ≡ overlong self.old }
    {
        self.long = self.long.saturating_add(1);
    }

    /// Counts a put by how it ended.
    pub fn count_put(&mut self, end: PutEnd)
        ensures { self.new ≡ counted self.old end }
    {
        match end {
            PutEnd::Stored => self.stored = self.stored.saturating_add(1),
            PutEnd::Replaced => self.replaced = self.replaced.saturating_add(1),
            PutEnd::Full => self.full = self.full.saturating_add(1),
        }
    }

    // Counts puts by how they ended.
    #[tactic(auto, using(crate::proofs::CountLemmas::added_is))]
    pub(crate) fn count_puts(&mut self, puts: &PutCounts)
        ensures { self.new ≡ counted_puts self.old puts.now }
    {
        self.stored = self.stored.saturating_add(puts.stored);
        self.replaced = self.replaced.saturating_add(puts.replaced);
        self.full = self.full.saturating_add(puts.full);
    }
}
