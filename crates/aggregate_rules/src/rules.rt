//! The rules of a file.
ghost use Rattle.std.specs.Prelude.{◌≡◌, Ok, IfOk, IfErr};
ghost use Rattle.aggregate_rules.specs.RuleTexts.{file_rules, IsFaultOf};

use crate::fault::{AggCause, AggFault};
use crate::places::Places;
use crate::reading::first_node;
use crate::rule::Rule;
use crate::rule_index::{RuleIndex, class_of};
use crate::rule_list::{RuleList, read_lines};
use metric_path::MetricPath;
use std::alloc::Global;
use std::marker::Model;

// The most bytes of a file.
const MOST_FILE_BYTES: usize = 1_048_576;

/// Aggregation rules in the order of their file.
#[derive(Drop)]
pub struct AggRules {
    rules: RuleList,
    index: RuleIndex,
}

impl Model for AggRules {
    ghost use Rattle.std.specs.Prelude.{List};
    ghost use Rattle.aggregate_rules.specs.RuleTexts.{RuleValue};
    ghost use Rattle.aggregate_rules.specs.RulePlaces.{IsIndexFrom};

    ghost Value = { List RuleValue };

    ghost view = { λ r. r.rules };

    ghost invariant = { λ r. IsIndexFrom r.rules 0 r.index };
}

impl AggRules {
    ghost use Rattle.std.specs.Prelude.{◌≤◌, ◌<◌, ◌+◌, Some, ℕ, length};
    ghost use Rattle.aggregate_rules.specs.RulePlaces.{IsFirst, front_classes, places_for};

    /// Reads `aggregation-rules.conf`, which has at most 1,048,576 bytes. Lines end with a line
    /// feed; a carriage return before it and blanks (space and tab) at the end are dropped, and the
    /// last line needs no line feed. A line that is empty, or begins with `#` or `;`, says nothing.
    /// Each other one is `OUTPUT (SECONDS) = METHOD PATTERN`, with one or more blanks where blanks
    /// stand here:
    ///
    /// - SECONDS is a number from 1 to 31,536,000 in digits;
    /// - METHOD is `sum`, `avg`, `min`, `max` or `last`;
    /// - PATTERN is nodes joined by dots. A node is one or more bytes that a node of a path may
    ///   hold, other than `<` and `>`, with at most one `*` or `<name>` among them. A name is
    ///   letters, digits and `_`, and stands once;
    /// - OUTPUT is the same without `*`, and with any number of names, each of them one of
    ///   PATTERN's.
    ///
    /// # Errors
    ///
    /// `TooLong` of a file with more bytes; else the first line that is none of these, or is no
    /// UTF-8.
    #[tactic(auto, unfolding(crate::specs::RuleTexts::file_rules))]
    pub fn read(alloc: Global, text: &[u8]) -> Result<AggRules, AggFault>
        ensures rules { IfOk result (λ rules. file_rules text.now ≡ Ok rules) }
        ensures fault { IfErr result (IsFaultOf (file_rules text.now)) }
    {
        if text.len() > MOST_FILE_BYTES {
            return Err(AggFault::Fault(AggCause::TooLong));
        }
        match read_lines(alloc, text) {
            Ok(rules) => return AggRules::of(alloc, rules),
            Err(fault) => return Err(fault),
        }
    }

    // These rules with their index.
    fn of(alloc: Global, rules: RuleList) -> Result<AggRules, AggFault>
        ensures rules { IfOk result (λ all. all ≡ rules) }
        ensures fault { IfErr result (λ fault. fault ≡ AggFault.NoMemory) }
    {
        let index = RuleIndex::of(alloc, rules.as_slice())?;
        Ok(AggRules { rules, index })
    }

    /// The rules in their order.
    pub fn as_slice(&self) -> &[Rule]
        ensures { result.now ≡ self.now }
    {
        self.rules.as_slice()
    }

    /// The places of the rules that may have an output for a path: those whose pattern begins with
    /// a node that has a gap, and those whose first node has the class of the path's. The others
    /// have none.
    pub fn places_for(&self, path: &MetricPath) -> Places<'_>
        ensures { result ≡ places_for self.now path.now }
    {
        Places::of(self, class_of(first_node(path.text()).text))
    }

    /// The place of the first rule of a class.
    pub(crate) fn first_of(&self, class: usize) -> Option<usize>
        requires { class < front_classes }
        ensures { IsFirst self.now class 0 result }
    {
        self.index.first(class)
    }

    /// The place of the next rule behind one, of the same class.
    pub(crate) fn next_of(&self, place: usize) -> Option<usize>
        requires { place < length self.now }
        ensures { (class from : ℕ) → from ≤ place → IsFirst self.now class from (Some place)
            → IsFirst self.now class (place + 1) result }
    {
        self.index.next(place)
    }
}
