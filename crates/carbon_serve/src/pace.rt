//! How fast a drainer goes.
ghost use Rattle.std.specs.Prelude.{◌≡◌, ◌<◌, true};
ghost use Rattle.carbon_serve.specs.Rates.{is_kept};

/// How much a drainer does in a second of its clock, at most. 0: as much as it can.
#[derive(Clone, Copy, Debug, PartialEq, Eq)]
pub struct Pace {
    /// How many drains it begins.
    pub drains: u32,
    /// How many ring files it makes.
    pub creates: u32,
}

/// The drain that a drainer may begin within its pace.
#[derive(Clone, Copy, Debug, PartialEq, Eq)]
pub(crate) enum Permit {
    /// One that makes no ring file that is counted.
    Drain,
    /// One that makes a ring file.
    Create,
}

/// What a drainer did in the second that it is in, which is within its pace, and the classes whose turns come
/// next: behind the one that last began a drain, and behind the one that last made a file.
#[derive(Drop)]
pub(crate) struct Pacer {
    pub(crate) pace: Pace,
    pub(crate) second: u32,
    pub(crate) drains: u32,
    pub(crate) creates: u32,
    pub(crate) next_drain: u32,
    pub(crate) next_create: u32,
    ghost drain_there: { next_drain < 16 },
    ghost create_there: { next_create < 16 },
    ghost few_drains: { is_kept pace.drains drains ≡ true },
    ghost few_creates: { is_kept pace.creates creates ≡ true },
}
