// Moments of the system's clock.
use std::fs::Metadata;
use std::os::unix::fs::MetadataExt;
use std::time::Clock;

// So many seconds and nanoseconds since the epoch.
#[derive(Clone, Copy)]
pub(crate) struct Moment {
    seconds: i64,
    nanos: i64,
}

impl Moment {
    // Now, where the clock tells it.
    pub(crate) fn now(rt: &impl Clock) -> Option<Moment> {
        let since = rt.since_1970().ok()?;
        let seconds = i64::try_from(since.as_secs()).ok()?;
        let nanos = i64::from(since.subsec_nanos());
        Some(Moment { seconds, nanos })
    }

    // When a file was changed last, or got its name.
    pub(crate) fn of_change(found: &Metadata) -> Moment {
        Moment {
            seconds: found.ctime(),
            nanos: found.ctime_nsec(),
        }
    }

    // When the bytes of a file were written last.
    pub(crate) fn of_write(found: &Metadata) -> Moment {
        Moment {
            seconds: found.mtime(),
            nanos: found.mtime_nsec(),
        }
    }

    pub(crate) fn is_before(self, other: Moment) -> bool {
        self.seconds < other.seconds || (self.seconds == other.seconds && self.nanos < other.nanos)
    }
}
