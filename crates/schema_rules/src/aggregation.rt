//! The rules of the aggregation file: by which method finer values of which paths become coarser ones.
ghost use Rattle.std.specs.Prelude.{◌≡◌, ◌≤◌, ◌+◌, ◌∷◌, [], Some, Ok, Err, IfOk, IfErr, length, option_copied};
ghost use Rattle.std.specs.Str.{bytes_eq};
ghost use Rattle.schema_rules.specs.RuleSections.{aggregation_result, aggregations_from, factor_result, method_result, method_of_word};
ghost use Rattle.schema_rules.specs.RulesOf.{Stops};

use crate::fault::{RuleCause, Stop};
use crate::schema::{DEFAULT_FACTOR, DEFAULT_METHOD, push_rule};
use crate::section::Section;
use fixed_num::read_millionths;
use metric_path::MetricPath;
use name_pattern::NameTest;
use ring_format::Method;
use std::alloc::{AllocError, Global};
use std::marker::Model;

/// A section of the aggregation file.
#[derive(Drop)]
pub(crate) struct Aggregation {
    pattern: NameTest,
    factor: u32,
    method: Method,
}

impl Model for Aggregation {
    ghost use Rattle.std.specs.Prelude.{◌≤◌};
    ghost use Rattle.schema_rules.specs.RuleSections.{AggregationValue};

    ghost Value = { AggregationValue };

    ghost view = { λ a. record { pattern = a.pattern; factor = a.factor; method = a.method } };

    ghost invariant = { λ a. a.factor ≤ 1000000 };
}

impl Aggregation {
    ghost use Rattle.name_pattern.specs.Patterns.{is_found};

    /// The rule of the section with this number.
    #[tactic(auto, unfolding(crate::specs::RuleSections::aggregation_result))]
    pub(crate) fn read(
        alloc: Global,
        number: u32,
        section: &Section<'_>,
    ) -> Result<Option<Aggregation>, Stop>
        ensures rule { IfOk result (λ rule. aggregation_result number section.now ≡ Ok rule) }
        ensures stop { IfErr result (Stops (aggregation_result number section.now)) }
    {
        if section.pattern().is_empty() {
            return Ok(None);
        }
        let Some(pattern) = NameTest::new(alloc, section.pattern())? else {
            return Err(Stop::Cause(RuleCause::BadPattern(number)));
        };
        let factor = match read_factor(number, section.factor()) {
            Ok(factor) => factor,
            Err(cause) => return Err(Stop::Cause(cause)),
        };
        let method = match read_method(number, section.method()) {
            Ok(method) => method,
            Err(cause) => return Err(Stop::Cause(cause)),
        };
        Ok(Some(Aggregation {
            pattern,
            factor,
            method,
        }))
    }

    /// Whether the section's pattern is found in a path.
    pub(crate) fn is_found(&self, alloc: Global, path: &MetricPath) -> Result<bool, AllocError>
        ensures { IfOk result (λ found. found ≡ is_found self.now.pattern path.now) }
    {
        self.pattern.is_found(alloc, path.as_str())
    }

    /// The section's factor, in millionths.
    pub(crate) fn factor(&self) -> u32
        ensures value { result ≡ self.now.factor }
        ensures most { result ≤ 1000000 }
    {
        self.factor
    }

    /// The section's method.
    pub(crate) fn method(&self) -> Method
        ensures { result ≡ self.now.method }
    {
        self.method
    }
}

// The factor that a section has, or the default.
#[tactic(auto, unfolding(crate::specs::RuleSections::factor_result))]
fn read_factor(number: u32, text: Option<&[u8]>) -> Result<u32, RuleCause>
    ensures value { result ≡ factor_result number (option_copied text.entry) }
    ensures most { IfOk result (λ factor. factor ≤ 1000000) }
{
    let Some(text) = text else {
        return Ok(DEFAULT_FACTOR);
    };
    match read_millionths(text) {
        Ok(factor) => return Ok(factor),
        Err(_) => return Err(RuleCause::BadFactor(number)),
    }
}

// The method that a section has, or the default.
#[tactic(auto, unfolding(crate::specs::RuleSections::method_result))]
fn read_method(number: u32, word: Option<&[u8]>) -> Result<Method, RuleCause>
    ensures { result ≡ method_result number (option_copied word.entry) }
{
    let Some(word) = word else {
        return Ok(DEFAULT_METHOD);
    };
    match method_of_word(word) {
        Some(method) => return Ok(method),
        None => return Err(RuleCause::BadMethod(number)),
    }
}

#[tactic(auto, unfolding(crate::specs::RuleSections::method_of_word))]
fn method_of_word(word: &[u8]) -> Option<Method>
    ensures { result ≡ method_of_word word.now }
{
    if is_word(word, b"average") {
        return Some(Method::Average);
    }
    if is_word(word, b"sum") {
        return Some(Method::Sum);
    }
    if is_word(word, b"last") {
        return Some(Method::Last);
    }
    if is_word(word, b"max") {
        return Some(Method::Max);
    }
    if is_word(word, b"min") {
        return Some(Method::Min);
    }
    if is_word(word, b"avg_zero") {
        return Some(Method::AvgZero);
    }
    if is_word(word, b"absmax") {
        return Some(Method::AbsMax);
    }
    if is_word(word, b"absmin") {
        return Some(Method::AbsMin);
    }
    None
}

fn is_word(text: &[u8], word: &[u8]) -> bool
    ensures { result ≡ bytes_eq text.now word.now }
{
    text == word
}

/// The rules of the aggregation file's sections.
#[tactic(auto, unfolding(crate::specs::RuleSections::aggregations_from))]
pub(crate) fn aggregations_of(
    alloc: Global,
    sections: &[Section<'_>],
) -> Result<Vec<Aggregation>, Stop>
    requires { length sections.now ≤ 1048577 }
    ensures rules { IfOk result (λ rules. aggregations_from [] 1 sections.now ≡ Ok rules.items) }
    ensures stop { IfErr result (Stops (aggregations_from [] 1 sections.now)) }
{
    let mut rules = Vec::new(alloc);
    let mut number = 1;
    for section in sections {
        let rule = Aggregation::read(alloc, number, section)?;
        push_rule(&mut rules, rule)?;
        number += 1;
    }
    Ok(rules)
}
