//! Archives, and the methods by which finer values become coarser ones.
ghost use Rattle.std.specs.Prelude.{◌≡◌, ◌≤◌, ◌*◌, ◌^◌, length};
ghost use Rattle.std.specs.List.{sum_by};

/// The most archives of a lawful layout.
pub const MOST_ARCHIVES: usize = 25;

/// One archive of a ring file: a ring of points, each of which stands for a step of time.
#[derive(Clone, Copy, Debug, PartialEq, Eq)]
pub struct Archive {
    /// The seconds from one point to the next.
    pub step: u32,
    /// How many points the ring has.
    pub points: u32,
}

/// How the known values of a finer archive become one of a coarser: Graphite's aggregation methods.
#[derive(Clone, Copy, Debug, PartialEq, Eq)]
pub enum Method {
    /// The sum over the number of known values.
    Average,
    /// The sum.
    Sum,
    /// The value of the latest time.
    Last,
    /// The greatest value.
    Max,
    /// The least value.
    Min,
    /// The sum over the number of all places, known or not.
    AvgZero,
    /// The value farthest from zero.
    AbsMax,
    /// The value nearest to zero.
    AbsMin,
}

impl Archive {
    ghost use Rattle.ring_format.specs.Layout.{retention_of};

    /// How many seconds the archive reaches back: its step times its points.
    pub fn retention(self) -> u64
        ensures { result ≡ retention_of self }
    {
        u64::from(self.step) * u64::from(self.points)
    }
}

/// How many points the archives have in all.
pub(crate) fn point_count(archives: &[Archive]) -> u64
    requires { length archives.now ≤ 25 }
    ensures value { result ≡ sum_by (λ archive. archive.points) archives.now }
    ensures most { result ≤ 25 * 2 ^ 32 }
{
    let mut count = 0;
    for archive in archives {
        count += u64::from(archive.points);
    }
    count
}
