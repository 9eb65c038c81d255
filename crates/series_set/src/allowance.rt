//! The memory that one question may use, and the work that may be done for it.
ghost use Rattle.std.specs.Prelude.{◌≡◌, ◌+◌, ◌-◌, ◌*◌, ◌<◌, ◌≤◌, OnErr, OnOk};
ghost use Rattle.series_set.specs.Sizes.{counted, shares_of, size, together};

use std::alloc::AllocError;

/// Bytes that something takes: those of names, and all others.
#[derive(Clone, Copy, Debug, PartialEq, Eq)]
pub struct Size {
    /// Those of the names of series.
    pub names: u64,
    /// Those of values, paths and texts.
    pub others: u64,
}

// A value that may be missing.
const VALUE_BYTES: u64 = 16;

impl Size {
    /// So many values, of 16 bytes each.
    pub fn of_values(count: u64) -> Size
        ensures { result ≡ size 0 (counted (count * 16)) }
    {
        Size {
            names: 0,
            others: count.saturating_mul(VALUE_BYTES),
        }
    }

    /// A name of so many bytes.
    pub fn of_name(bytes: usize) -> Size
        ensures { result ≡ record { names = bytes; others = 0 } }
    {
        Size {
            names: bytes as u64,
            others: 0,
        }
    }

    /// A text of so many bytes.
    pub fn of_text(bytes: usize) -> Size
        ensures { result ≡ record { names = 0; others = bytes } }
    {
        Size {
            names: 0,
            others: bytes as u64,
        }
    }

    /// Both together, or the most that there is.
    pub fn plus(self, other: Size) -> Size
        ensures { result ≡ together self other }
    {
        Size {
            names: self.names.saturating_add(other.names),
            others: self.others.saturating_add(other.others),
        }
    }
}

/// What the series and the text of one question may still take, and how much may still be done for it.
#[derive(Clone, Copy, Debug, PartialEq, Eq)]
pub struct Allowance {
    left: Size,
    work: u64,
}

// The part of the bytes that is for names.
const NAMES_PART: u64 = 16;

/// How much may be done for one question: at most about a second of a processor. One is mostly a nanosecond, and two and a half at worst.
pub const MOST_WORK: u64 = 400_000_000;

impl Allowance {
    /// So many bytes, of which a sixteenth is for names, and [`MOST_WORK`].
    pub fn new(bytes: u64) -> Allowance
        ensures left { result.left ≡ shares_of bytes }
        ensures work { result.work ≡ 400_000_000 }
    {
        Allowance::with_work(bytes, MOST_WORK)
    }

    /// So many bytes, of which a sixteenth is for names, and so much work.
    pub fn with_work(bytes: u64, work: u64) -> Allowance
        ensures left { result.left ≡ shares_of bytes }
        ensures work { result.work ≡ work }
    {
        let names = bytes / NAMES_PART;
        Allowance {
            left: Size {
                names,
                others: bytes - names,
            },
            work,
        }
    }

    /// How many bytes of names may still be taken.
    pub fn names_left(&self) -> u64
        ensures { result ≡ self.now.left.names }
    {
        self.left.names
    }

    /// How much may still be done.
    pub fn work_left(&self) -> u64
        ensures { result ≡ self.now.work }
    {
        self.work
    }

    /// Takes so much from the work that may still be done. Where less is left that is want of memory, and then nothing is left.
    pub fn spend(&mut self, amount: u64) -> Result<(), AllocError>
        ensures taken { OnOk result (self.new.work + amount ≡ self.old.work) }
        ensures refused { OnErr result ((self.old.work < amount) × (self.new.work ≡ 0)) }
        ensures falls { self.new.work ≤ self.old.work }
        ensures bytes { self.new.left ≡ self.old.left }
    {
        if self.work < amount {
            self.work = 0;
            return Err(AllocError);
        }
        self.work -= amount;
        Ok(())
    }

    /// The bytes that are left here, and the work that is left in another one, which was a copy of this.
    pub fn worked(self, copy: Allowance) -> Allowance
        ensures { result ≡ record self { work = copy.work } }
    {
        Allowance {
            work: copy.work,
            ..self
        }
    }

    /// Whether so many bytes are left, which stay so. Else that is want of memory.
    pub fn bear(&self, size: Size) -> Result<(), AllocError>
        ensures names { OnOk result (size.names ≤ self.now.left.names) }
        ensures others { OnOk result (size.others ≤ self.now.left.others) }
    {
        let mut left = *self;
        left.take(size)
    }

    /// Takes so many bytes. Where fewer are left that is want of memory, and as many are left as before.
    pub fn take(&mut self, size: Size) -> Result<(), AllocError>
        ensures names { OnOk result (self.new.left.names + size.names ≡ self.old.left.names) }
        ensures others { OnOk result (self.new.left.others + size.others ≡ self.old.left.others) }
        ensures work { self.new.work ≡ self.old.work }
        ensures err { OnErr result (self.new ≡ self.old) }
    {
        if size.names > self.left.names || size.others > self.left.others {
            return Err(AllocError);
        }
        self.left = Size {
            names: self.left.names - size.names,
            others: self.left.others - size.others,
        };
        Ok(())
    }

    /// Takes a name of so many bytes that a series gets instead of one of `before` bytes.
    pub fn take_name(&mut self, bytes: usize, before: usize) -> Result<(), AllocError>
        ensures room { OnOk result (bytes ≤ self.old.left.names) }
        ensures names { OnOk result (self.new.left.names
            ≡ counted ((self.old.left.names - bytes) + before)) }
        ensures others { OnOk result (self.new.left.others ≡ self.old.left.others) }
        ensures work { self.new.work ≡ self.old.work }
        ensures err { OnErr result (self.new ≡ self.old) }
    {
        self.take(Size::of_name(bytes))?;
        self.left.names = self.left.names.saturating_add(before as u64);
        Ok(())
    }

    /// Gives bytes back that were taken.
    pub fn give_back(&mut self, size: Size)
        ensures left { self.new.left ≡ together self.old.left size }
        ensures work { self.new.work ≡ self.old.work }
    {
        self.left = self.left.plus(size);
    }
}
