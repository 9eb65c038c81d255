// A call that waits.
use crate::flag::Flag;
use std::thread;
use std::time::{Clock, Duration};

// How long a call waits: so many turns of a millisecond.
const TURNS: u32 = 20_000;

/// Where a call waits until a flag is up, for 20 seconds at most. It puts another flag up as it begins to wait.
#[derive(Drop)]
pub struct Gate<R> {
    rt: R,
    begun: Flag,
    opens: Flag,
}

impl<R: Clock> Gate<R> {
    /// A gate that puts the first flag up, and waits for the second.
    pub fn new(rt: R, begun: Flag, opens: Flag) -> Gate<R> {
        Gate { rt, begun, opens }
    }

    // Waits, and says whether the flag came up.
    pub(crate) fn pass(&self) -> bool {
        self.begun.raise();
        for _turn in 0..TURNS {
            if self.opens.is_up() {
                return true;
            }
            thread::sleep(&self.rt, Duration::from_millis(1));
        }
        self.opens.is_up()
    }
}

// Goes through a gate, if there is one.
pub(crate) fn pass<R: Clock>(gate: &Option<Gate<R>>) -> bool {
    match gate {
        Some(gate) => gate.pass(),
        None => true,
    }
}
