//! The rules of the schema file: which archives are kept for which paths.
ghost use Rattle.std.specs.Prelude.{◌≡◌, ◌≤◌, ◌+◌, ◌∷◌, [], Some, Ok, IfOk, IfErr, OnOk, length};
ghost use Rattle.schema_rules.specs.RuleSections.{lawful_schema, schema_result, schemas_from, with_rule};
ghost use Rattle.schema_rules.specs.RulesOf.{Stops};

use crate::fault::{RuleCause, Stop};
use crate::retention::archives_of;
use crate::section::Section;
use metric_path::MetricPath;
use name_pattern::NameTest;
use ring_format::{Archive, Layout, Method};
use std::alloc::{AllocError, Global};
use std::marker::Model;

/// The method of a metric for which no section says one.
pub(crate) const DEFAULT_METHOD: Method = Method::Average;

/// The factor of a metric for which no section says one, in millionths.
pub(crate) const DEFAULT_FACTOR: u32 = 500_000;

/// A section of the schema file.
#[derive(Drop)]
pub(crate) struct Schema {
    pattern: NameTest,
    // The archives, with the default method and factor.
    layout: Layout,
}

impl Model for Schema {
    ghost use Rattle.std.specs.Prelude.{◌≡◌};
    ghost use Rattle.schema_rules.specs.RuleSections.{SchemaValue, default_factor};

    ghost Value = { SchemaValue };

    ghost view = { λ s. record { pattern = s.pattern; archives = s.layout.archives } };

    ghost invariant = { λ s. s.layout.factor ≡ default_factor };
}

impl Schema {
    ghost use Rattle.std.specs.Prelude.{None};
    ghost use Rattle.ring_format.specs.Layout.{layout_fault};
    ghost use Rattle.name_pattern.specs.Patterns.{is_found};

    /// The rule of the section with this number.
    #[tactic(auto, unfolding(crate::specs::RuleSections::schema_result))]
    pub(crate) fn read(
        alloc: Global,
        number: u32,
        section: &Section<'_>,
    ) -> Result<Option<Schema>, Stop>
        ensures rule { IfOk result (λ rule. schema_result number section.now ≡ Ok rule) }
        ensures stop { IfErr result (Stops (schema_result number section.now)) }
    {
        if section.pattern().is_empty() || section.retentions().is_empty() {
            return Ok(None);
        }
        let Some(pattern) = NameTest::new(alloc, section.pattern())? else {
            return Err(Stop::Cause(RuleCause::BadPattern(number)));
        };
        let Some(archives) = archives_of(alloc, section.retentions())? else {
            return Err(Stop::Cause(RuleCause::BadRetention(number)));
        };
        match Schema::lawful(number, pattern, archives.as_slice()) {
            Ok(schema) => return Ok(Some(schema)),
            Err(cause) => return Err(Stop::Cause(cause)),
        }
    }

    // The rule with these archives.
    #[tactic(auto, unfolding(crate::specs::RuleSections::lawful_schema))]
    fn lawful(number: u32, pattern: NameTest, archives: &[Archive]) -> Result<Schema, RuleCause>
        ensures rule { IfOk result
            (λ rule. lawful_schema number pattern archives.now ≡ Ok (Some rule)) }
        ensures cause { IfErr result
            (λ cause. lawful_schema number pattern archives.now ≡ Err cause) }
    {
        match Layout::new(archives, DEFAULT_METHOD, DEFAULT_FACTOR) {
            Ok(layout) => return Ok(Schema { pattern, layout }),
            Err(fault) => return Err(RuleCause::BadLayout(number, fault)),
        }
    }

    /// Whether the section's pattern is found in a path.
    pub(crate) fn is_found(&self, alloc: Global, path: &MetricPath) -> Result<bool, AllocError>
        ensures { IfOk result (λ found. found ≡ is_found self.now.pattern path.now) }
    {
        self.pattern.is_found(alloc, path.as_str())
    }

    /// The section's archives from the finest to the coarsest.
    pub(crate) fn archives(&self) -> &[Archive]
        ensures value { result.now ≡ self.now.archives }
        ensures lawful { layout_fault result.now 500000 ≡ None }
    {
        self.layout.archives()
    }
}

/// The rules of the schema file's sections.
#[tactic(auto, unfolding(crate::specs::RuleSections::schemas_from))]
pub(crate) fn schemas_of(alloc: Global, sections: &[Section<'_>]) -> Result<Vec<Schema>, Stop>
    requires { length sections.now ≤ 1048577 }
    ensures rules { IfOk result (λ rules. schemas_from [] 1 sections.now ≡ Ok rules.items) }
    ensures stop { IfErr result (Stops (schemas_from [] 1 sections.now)) }
{
    let mut rules = Vec::new(alloc);
    let mut number = 1;
    for section in sections {
        let rule = Schema::read(alloc, number, section)?;
        push_rule(&mut rules, rule)?;
        number += 1;
    }
    Ok(rules)
}

/// Adds a rule, where there is one.
pub(crate) fn push_rule<T: Drop>(rules: &mut Vec<T>, rule: Option<T>) -> Result<(), AllocError>
    ensures { OnOk result (rules.new.items ≡ with_rule rules.old.items rule) }
{
    match rule {
        Some(rule) => {
            rules.push(rule)?;
            return Ok(());
        }
        None => return Ok(()),
    }
}
