//! How much may still be done.
ghost use Rattle.std.specs.Prelude.{◌≡◌, ◌+◌, ◌<◌, ◌≤◌, OnErr, OnOk};

use std::alloc::AllocError;

// How much one question may do: half a second of a processor or more.
const MOST_WORK: u64 = 240_000_000;

/// How much a question may still do: one is about a byte of a pattern that is held against a node.
#[derive(Clone, Copy, Debug)]
pub struct Work {
    left: u64,
}

impl Work {
    /// So much work.
    pub fn new(left: u64) -> Work
        ensures { result.left ≡ left }
    {
        Work { left }
    }

    /// What one question may do.
    pub fn of_question() -> Work
        ensures { result.left ≡ 240_000_000 }
    {
        Work::new(MOST_WORK)
    }

    /// How much is left.
    pub fn left(&self) -> u64
        ensures { result ≡ self.now.left }
    {
        self.left
    }

    /// Takes so much from what is left. Where less is left it is refused, and then nothing is left.
    pub fn spend(&mut self, amount: u64) -> Result<(), AllocError>
        ensures taken { OnOk result (self.new.left + amount ≡ self.old.left) }
        ensures refused { OnErr result ((self.old.left < amount) × (self.new.left ≡ 0)) }
        ensures falls { self.new.left ≤ self.old.left }
    {
        if self.left < amount {
            self.left = 0;
            return Err(AllocError);
        }
        self.left -= amount;
        Ok(())
    }
}
