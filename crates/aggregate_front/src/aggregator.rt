//! The points that a link's rules emit.
ghost use Rattle.std.specs.Prelude.{◌≡◌, ◌<◌, [], IfOk, OnErr, map};

use crate::known::Known;
use crate::limits::Limits;
use crate::outputs::Outputs;
use crate::timed_value::TimedValue;
use aggregate_rules::AggRules;
use metric_line::Datum;
use std::alloc::{AllocError, Global};
use std::marker::Model;

/// The outputs and the points that an aggregator holds for a link.
pub const LINK_LIMITS: Limits = Limits {
    outputs: 20_000,
    points: 1_000_000,
};

/// The points of a link, gathered by rules.
///
/// The interval of a point is the greatest multiple of a rule's seconds that is not behind its
/// time. Of each rule and output path at most five intervals are open. A point that would open a
/// sixth has the earliest of the six emitted, which may be its own; points of that interval and of
/// all before it are passed over from then on. So are points whose interval is no legal moment,
/// those that would make an output beyond the limit, and those that would open no sixth interval
/// while as many points are open as may be.
#[derive(Drop)]
pub struct Aggregator<'a> {
    alloc: Global,
    rules: &'a AggRules,
    known: Known,
    outputs: Outputs,
}

impl<'a> Model for Aggregator<'a> {
    ghost use Rattle.aggregate_front.specs.Emitting.{AggregatorValue, Knows};

    ghost Value = { AggregatorValue };

    ghost view = { λ a. record { rules = a.rules.now; limits = a.outputs.limits; outputs = a.outputs.outputs } };

    ghost invariant = { λ a. Knows a.rules.now a.known };
}

impl<'a> Aggregator<'a> {
    ghost use Rattle.metric_line.specs.Seen.{seen};
    ghost use Rattle.aggregate_front.specs.Emitting.{Feeds, at_end, link_limits};

    /// Nothing gathered, for the rules of a link.
    pub fn new(alloc: Global, rules: &'a AggRules) -> Result<Aggregator<'a>, AllocError>
        ensures { IfOk result
            (λ a. a ≡ record { rules = rules.now; limits = link_limits; outputs = [] }) }
    {
        Ok(Aggregator::within(alloc, rules, LINK_LIMITS))
    }

    /// The same with other limits.
    pub fn within(alloc: Global, rules: &'a AggRules, limits: Limits) -> Aggregator<'a>
        requires { limits.points < 31_536_000 }
        ensures { result ≡ record { rules = rules.now; limits = limits; outputs = [] } }
    {
        Aggregator {
            alloc,
            rules,
            known: Known::new(alloc),
            outputs: Outputs::new(alloc, limits),
        }
    }

    /// Takes the next point of the link, and gives those that it emits. The rules are taken in the
    /// order of their file, and none sees what another emits.
    ///
    /// # Errors
    ///
    /// Want of memory, which changes nothing.
    pub fn feed(&mut self, datum: &Datum) -> Result<Vec<Datum>, AllocError>
        ensures fed { IfOk result
            (λ emitted. Feeds self.old self.new (seen datum.now) (map seen emitted.items)) }
        ensures err { OnErr result (self.new ≡ self.old) }
    {
        let alloc = self.alloc;
        let rules = self.rules;
        let place = self
            .known
            .place_of(alloc, rules, &datum.path, &self.outputs)?;
        let point = TimedValue {
            time: datum.time,
            value: datum.value,
        };
        let mut deeds = Vec::new(alloc);
        let mut emitted = Vec::new(alloc);
        match self.outputs.take_all(
            alloc,
            self.known.hits(place),
            &point,
            &mut deeds,
            &mut emitted,
        ) {
            Ok(()) => Ok(emitted),
            Err(fault) => {
                self.outputs.undo_all(deeds);
                Err(fault)
            }
        }
    }

    /// The points of all intervals that are open at the link's end: the outputs in the order in
    /// which they appeared, the intervals of each rising.
    pub fn finish(self) -> Result<Vec<Datum>, AllocError>
        ensures { IfOk result (λ emitted. map seen emitted.items ≡ at_end self.entry.outputs) }
    {
        self.outputs.at_end(self.alloc)
    }
}
