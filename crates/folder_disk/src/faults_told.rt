// Faults on standard error.
use crate::fault::FileFault;
use std::io::Eprint;
use std::time::{Clock, Duration, Instant};

// How far lines of one disk stand apart.
const PAUSE_SECONDS: u64 = 60;

// When a fault was told last, and how many came since.
#[derive(Drop)]
pub(crate) struct FaultsTold {
    last: Option<Instant>,
    untold: u64,
}

impl FaultsTold {
    pub(crate) fn new() -> FaultsTold {
        FaultsTold {
            last: None,
            untold: 0,
        }
    }

    // Tells a fault of a file, or of the folder where the name is empty, at most once a minute. How many were passed over in between
    // stands behind the next one.
    pub(crate) fn tell<R: Eprint + Clock>(
        &mut self,
        rt: &R,
        folder: &str,
        name: &str,
        fault: &FileFault,
    ) {
        if !self.is_due(rt) {
            self.untold = self.untold.saturating_add(1);
            return;
        }
        let slash = if name.is_empty() { "" } else { "/" };
        let _ = match self.untold {
            0 => eprintln!(rt; "carbon: {folder}{slash}{name}: {fault}"),
            untold => eprintln!(rt;
                "carbon: {folder}{slash}{name}: {fault} ({untold} faults since the last line)"
            ),
        };
        self.last = Instant::now(rt).ok();
        self.untold = 0;
    }

    fn is_due(&self, rt: &impl Clock) -> bool {
        let Some(last) = self.last else {
            return true;
        };
        match last.elapsed(rt) {
            Ok(since) => since >= Duration::from_secs(PAUSE_SECONDS),
            Err(_) => true,
        }
    }
}
