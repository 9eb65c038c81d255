//! A rule.
ghost use Rattle.std.specs.Prelude.{◌≡◌, ◌<◌, ◌≤◌};
ghost use Rattle.aggregate_rules.specs.RulePlaces.{class_of_rule, front_classes, front_in, front_of, is_closed};

use crate::node::{Gap, PatternNode};
use crate::output::Output;
use crate::pattern::Nodes;
use crate::rule_index::class_of;
use ring_format::Method;
use std::marker::Model;

/// A rule: `OUTPUT (SECONDS) = METHOD PATTERN`.
#[derive(Drop)]
pub struct Rule {
    output: Output,
    seconds: u32,
    method: Method,
    nodes: Nodes,
}

impl Model for Rule {
    ghost use Rattle.std.specs.Prelude.{◌<◌, ◌≤◌};
    ghost use Rattle.aggregate_rules.specs.RuleTexts.{RuleValue};

    ghost Value = { RuleValue };

    ghost view = { λ r. record { output = r.output; seconds = r.seconds; method = r.method; nodes = r.nodes } };

    ghost invariant = { λ r. (0 < r.seconds) × (r.seconds ≤ 31536000) };
}

impl Rule {
    /// The rule with these parts.
    pub(crate) fn new(output: Output, seconds: u32, method: Method, nodes: Nodes) -> Rule
        requires some { 0 < seconds }
        requires most { seconds ≤ 31536000 }
        ensures { result ≡ record { output = output; seconds = seconds; method = method; nodes = nodes } }
    {
        Rule {
            output,
            seconds,
            method,
            nodes,
        }
    }

    /// What the rule calls its output.
    pub(crate) fn output(&self) -> &Output
        ensures { result.now ≡ self.now.output }
    {
        &self.output
    }

    /// The seconds of an interval.
    pub fn seconds(&self) -> u32
        ensures value { result ≡ self.now.seconds }
        ensures some { 0 < result }
        ensures most { result ≤ 31536000 }
    {
        self.seconds
    }

    /// By which method the values of an interval become one.
    pub fn method(&self) -> Method
        ensures { result ≡ self.now.method }
    {
        self.method
    }

    /// The nodes of the pattern.
    pub(crate) fn nodes(&self) -> &[PatternNode]
        ensures { result.now ≡ self.now.nodes }
    {
        self.nodes.as_slice()
    }

    /// The class of the pattern's first node, or 0 where that has a gap.
    pub(crate) fn class(&self) -> usize
        ensures value { result ≡ class_of_rule self.now }
        ensures within { result < front_classes }
    {
        class_of(front_in(self.nodes()))
    }
}

// The bytes of the first of some nodes where it has no gap, and else no bytes.
fn front_in(nodes: &[PatternNode]) -> &[u8]
    ensures { result.now ≡ front_in nodes.now }
{
    match nodes.first() {
        Some(node) => return front_of(node),
        None => return &[],
    }
}

fn front_of(node: &PatternNode) -> &[u8]
    ensures { result.now ≡ front_of node.now }
{
    if is_closed(node.gap) && node.after.as_slice().is_empty() {
        return node.before.as_slice();
    }
    &[]
}

fn is_closed(gap: Gap) -> bool
    ensures { result ≡ is_closed gap }
{
    match gap {
        Gap::Closed => true,
        _ => false,
    }
}
