// Questions without an answer, on standard error.
use crate::exchange::Unanswered;
use std::io::Eprint;
use std::sync::atomic::{AtomicU64, Ordering};
use std::time::Clock;

// How far lines stand apart.
const PAUSE_MILLIS: u64 = 60_000;

// When the next one may be told, and how many came since the last one, of all links of a net.
#[derive(Drop)]
pub(crate) struct QuestionsTold {
    next: AtomicU64,
    untold: AtomicU64,
}

impl QuestionsTold {
    pub(crate) fn new() -> Self {
        QuestionsTold {
            next: AtomicU64::new(0),
            untold: AtomicU64::new(0),
        }
    }

    // Tells a question, at most once a minute. How many were passed over in between stands behind the next one. It takes
    // no memory.
    pub(crate) fn tell<R: Eprint + Clock>(&self, rt: &R, unanswered: Unanswered<'_>) {
        if !self.is_due(rt) {
            self.untold.fetch_add(1, Ordering::SeqCst);
            return;
        }
        let place = if unanswered.is_later { "behind " } else { "" };
        let text = unanswered.question.bytes().escape_ascii();
        let _ = match self.untold.swap(0, Ordering::SeqCst) {
            0 => eprintln!(rt; "carbon: out of memory, status 503: {place}{text}"),
            untold => eprintln!(rt;
                "carbon: out of memory, status 503: {place}{text} ({untold} questions since the last line)"
            ),
        };
    }

    // Whether a line may be told now. Of several threads that ask at once one may.
    fn is_due(&self, rt: &impl Clock) -> bool {
        let Ok(now) = rt.monotonic() else {
            return false;
        };
        let now = u64::try_from(now.as_millis()).unwrap_or(u64::MAX);
        let next = self.next.load(Ordering::SeqCst);
        let later = now.saturating_add(PAUSE_MILLIS);
        now >= next
            && self
                .next
                .compare_exchange(next, later, Ordering::SeqCst, Ordering::SeqCst)
                .is_ok()
    }
}
