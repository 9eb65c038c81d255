//! The rules that the lines of a file say.
ghost use Rattle.std.specs.Prelude.{◌≡◌, ◌≤◌, Ok, IfOk, IfErr, length};
ghost use Rattle.aggregate_rules.specs.RuleTexts.{line_rules, or_bad_line, IsFaultOf};

use crate::fault::{AggCause, AggFault};
use crate::rule::Rule;
use crate::rule_text::rule_of;
use rule_lines::{is_passed_over, next_line, text_in, without_last_blanks};
use std::alloc::{AllocError, Global};
use std::marker::Model;

/// Rules in the order of their lines. Contracts see the list of them.
#[derive(Drop)]
pub(crate) struct RuleList {
    items: Vec<Rule>,
}

impl Model for RuleList {
    ghost use Rattle.std.specs.Prelude.{List};
    ghost use Rattle.aggregate_rules.specs.RuleTexts.{RuleValue};

    ghost Value = { List RuleValue };

    ghost view = { λ r. r.items.items };
}

impl RuleList {
    ghost use Rattle.std.specs.Prelude.{[], Some, None, if◌then◌else◌};
    ghost use Rattle.aggregate_rules.specs.RuleTexts.{after_line};

    /// The rules as a slice.
    pub(crate) fn as_slice(&self) -> &[Rule]
        ensures { result.now ≡ self.now }
    {
        self.items.as_slice()
    }

    // Adds what a line says, from which the blanks at its end were dropped: `false` exactly where
    // it may not stand there.
    #[tactic(auto, unfolding(crate::specs::RuleTexts::after_line))]
    fn take_line(&mut self, alloc: Global, line: &[u8]) -> Result<bool, AllocError>
        ensures { IfOk result
            (λ fits. (if fits then Some self.new else None) ≡ after_line self.old line.now) }
    {
        let Some(_) = text_in(line) else {
            return Ok(false);
        };
        if is_passed_over(line) {
            return Ok(true);
        }
        let Some(rule) = rule_of(alloc, line)? else {
            return Ok(false);
        };
        self.items.push(rule)?;
        Ok(true)
    }
}

/// The rules of the lines of a file, or the number of the first that may not stand there.
#[tactic(auto, unfolding(crate::specs::RuleTexts::rules_from))]
pub(crate) fn read_lines(alloc: Global, file: &[u8]) -> Result<RuleList, AggFault>
    requires { length file.now ≤ 1048576 }
    ensures rules { IfOk result (λ rules. or_bad_line (line_rules file.now) ≡ Ok rules) }
    ensures fault { IfErr result (IsFaultOf (or_bad_line (line_rules file.now))) }
{
    let mut rules = RuleList {
        items: Vec::new(alloc),
    };
    let mut number = 1;
    let mut rest = file;
    while let Some(first) = next_line(rest) {
        if !rules.take_line(alloc, without_last_blanks(first.line))? {
            return Err(AggFault::Fault(AggCause::Line(number)));
        }
        number += 1;
        rest = first.rest;
    }
    if !rules.take_line(alloc, without_last_blanks(rest))? {
        return Err(AggFault::Fault(AggCause::Line(number)));
    }
    Ok(rules)
}
