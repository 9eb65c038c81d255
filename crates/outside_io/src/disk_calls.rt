// How often a disk was called.
ghost use Rattle.std.specs.Prelude.{◌≡◌, ◌+◌, ◌-◌, ◌^◌, min};

/// How many calls of each kind there were, failed ones too. A count stays at 2^64 - 1.
#[derive(Clone, Copy, Debug, PartialEq, Eq)]
pub struct DiskCalls {
    /// The calls of `names`.
    pub names: u64,
    /// The calls of `length`.
    pub lengths: u64,
    /// The calls of `create`.
    pub creates: u64,
    /// The calls of `read_at`.
    pub reads: u64,
    /// The calls of `write_at`.
    pub writes: u64,
    /// The calls of `sync`.
    pub syncs: u64,
    /// The most bytes that a call of `read_at` asked for.
    pub longest_read: u64,
}

impl DiskCalls {
    pub(crate) const NONE: DiskCalls = DiskCalls {
        names: 0,
        lengths: 0,
        creates: 0,
        reads: 0,
        writes: 0,
        syncs: 0,
        longest_read: 0,
    };

    /// The calls that read: `names`, `length` and `read_at`.
    pub fn reading(self) -> u64
        ensures { result ≡ min (self.names + self.lengths + self.reads) (2 ^ 64 - 1) }
    {
        self.names
            .saturating_add(self.lengths)
            .saturating_add(self.reads)
    }

    /// The calls that write: `create` and `write_at`.
    pub fn writing(self) -> u64
        ensures { result ≡ min (self.creates + self.writes) (2 ^ 64 - 1) }
    {
        self.creates.saturating_add(self.writes)
    }
}
