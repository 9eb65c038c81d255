//! The outputs of a path.
ghost use Rattle.std.specs.Prelude.{◌≡◌, ◌<◌, ◌≤◌};

use metric_path::MetricPath;
use ring_format::Method;
use std::alloc::AllocError;
use std::marker::Model;

/// An output: the place of its rule, and its path.
#[derive(Drop, PartialEq, Eq, Hash)]
pub(crate) struct OutputKey {
    pub(crate) rule: usize,
    pub(crate) path: MetricPath,
}

impl OutputKey {
    ghost use Rattle.std.specs.Prelude.{IfOk};

    /// The same output once more.
    pub(crate) fn copy(&self) -> Result<OutputKey, AllocError>
        ensures { IfOk result (λ copy. copy ≡ self.now) }
    {
        let path = self.path.copy()?;
        Ok(OutputKey {
            rule: self.rule,
            path,
        })
    }
}

/// What a rule makes of a path, and a guess at which place its output stands. Contracts do not see
/// the guess: whoever goes by it looks first whether it holds.
#[derive(Drop)]
pub(crate) struct Hit {
    key: OutputKey,
    seconds: u32,
    method: Method,
    guess: usize,
}

impl Model for Hit {
    ghost use Rattle.std.specs.Prelude.{◌<◌};
    ghost use Rattle.aggregate_front.specs.Fitting.{HitValue};

    ghost Value = { HitValue };

    ghost view = { λ h. record { key = h.key; seconds = h.seconds; method = h.method } };

    ghost invariant = { λ h. 0 < h.seconds };
}

impl Hit {
    ghost use Rattle.aggregate_front.specs.Gathering.{interval_of};

    /// The output of a rule, which has intervals of so many seconds.
    pub(crate) fn new(key: OutputKey, seconds: u32, method: Method, guess: usize) -> Hit
        requires { 0 < seconds }
        ensures { result ≡ record { key = key; seconds = seconds; method = method } }
    {
        Hit {
            key,
            seconds,
            method,
            guess,
        }
    }

    /// The output.
    pub(crate) fn key(&self) -> &OutputKey
        ensures { result.now ≡ self.now.key }
    {
        &self.key
    }

    /// The place at which the output is thought to stand.
    pub(crate) fn guess(&self) -> usize {
        self.guess
    }

    /// The method of its rule.
    pub(crate) fn method(&self) -> Method
        ensures { result ≡ self.now.method }
    {
        self.method
    }

    /// The interval of a moment.
    pub(crate) fn interval_of(&self, time: u32) -> u32
        ensures { result ≡ interval_of self.now.seconds time }
    {
        time - time % self.seconds
    }
}
