// Which calls of a stand-in are to fail.
ghost use Rattle.std.specs.Prelude.{◌≡◌, [], ◌==◌};
ghost use Rattle.std.specs.List.{list_any};
ghost use Rattle.outside_io.specs.Calls.{fails_next, after_call, listed_calls};

use crate::faults::raised;
use std::alloc::Global;
use std::marker::Model;

/// Counts the calls of one kind from 1 on, and says which of them are to fail.
#[derive(Debug, Drop)]
pub struct FailingCalls {
    failing: Vec<u64>,
    next: u64,
}

impl Model for FailingCalls {
    ghost use Rattle.outside_io.specs.Calls.{Calls};

    ghost Value = { Calls };

    ghost view = { λ calls. record { failing = calls.failing.items; next = calls.next } };
}

impl FailingCalls {
    /// No call fails.
    pub fn none(alloc: Global) -> Self
        ensures { result ≡ listed_calls [] }
    {
        FailingCalls::new(Vec::new(alloc))
    }

    /// The calls with these numbers fail; the first call is number 1.
    pub fn new(failing: Vec<u64>) -> Self
        ensures { result ≡ listed_calls failing.items }
    {
        FailingCalls { failing, next: 1 }
    }

    /// Counts one call, and says whether it is to fail.
    pub fn fails_now(&mut self) -> bool
        ensures answer { result ≡ fails_next self.old }
        ensures counted { self.new ≡ after_call self.old }
    {
        let number = self.next;
        self.next = raised(number);
        is_listed(&self.failing, number)
    }
}

fn is_listed(failing: &[u64], number: u64) -> bool
    ensures { result ≡ list_any (λ listed. listed == number) failing.now }
{
    failing.iter().any(|listed| *listed == number)
}
