// Pauses between creates that fail.
use std::time::{Clock, Duration, Instant};

// The first pause, and the longest.
const FIRST_MILLIS: u64 = 50;

const LONGEST_MILLIS: u64 = 1_000;

// When a create failed last, and for how long no other is tried: where a folder takes no more files, as for want of inodes, the files that
// are there do not wait for one try after the other.
#[derive(Clone, Copy, Drop)]
pub(crate) struct CreatePause {
    failed: Option<Instant>,
    millis: u64,
}

impl CreatePause {
    pub(crate) fn none() -> CreatePause {
        CreatePause {
            failed: None,
            millis: 0,
        }
    }

    pub(crate) fn is_over(&self, rt: &impl Clock) -> bool {
        let Some(failed) = self.failed else {
            return true;
        };
        match failed.elapsed(rt) {
            Ok(since) => since >= Duration::from_millis(self.millis),
            Err(_) => true,
        }
    }

    // The pause behind another failure: twice the one before, up to a second.
    pub(crate) fn longer(&self, rt: &impl Clock) -> CreatePause {
        CreatePause {
            failed: Instant::now(rt).ok(),
            millis: self
                .millis
                .saturating_mul(2)
                .clamp(FIRST_MILLIS, LONGEST_MILLIS),
        }
    }
}
