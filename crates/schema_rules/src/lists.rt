//! The sections of both files that count, and the layouts that they give.
ghost use Rattle.std.specs.Prelude.{◌≡◌, ◌≤◌, None, IfOk, option_copied};
ghost use Rattle.std.specs.Option.{option_map_or};
ghost use Rattle.ring_format.specs.Layout.{layout_fault};
ghost use Rattle.schema_rules.specs.LayoutBy.{aggregation_for, default_archives, layout_by, layout_under, schema_for};

use crate::aggregation::Aggregation;
use crate::schema::{DEFAULT_FACTOR, DEFAULT_METHOD, Schema};
use metric_path::MetricPath;
use ring_format::{Archive, Layout, Method};
use std::alloc::{AllocError, Global};
use std::marker::Model;

// The archive of a metric for which no section says others: a week of minutes.
const DEFAULT_ARCHIVES: [Archive; 1] = [Archive {
    step: 60,
    points: 10_080,
}];

/// The rules of both files, in their order.
#[derive(Drop)]
pub(crate) struct Lists {
    schemas: Vec<Schema>,
    aggregations: Vec<Aggregation>,
}

impl Model for Lists {
    ghost use Rattle.schema_rules.specs.RulesOf.{RulesValue};

    ghost Value = { RulesValue };

    ghost view = { λ l. record { schemas = l.schemas.items; aggregations = l.aggregations.items } };
}

impl Lists {
    /// The rules of these sections.
    pub(crate) fn new(schemas: Vec<Schema>, aggregations: Vec<Aggregation>) -> Lists
        ensures { result ≡ record { schemas = schemas.items; aggregations = aggregations.items } }
    {
        Lists {
            schemas,
            aggregations,
        }
    }

    // The sections of the schema file.
    fn schemas(&self) -> &[Schema]
        ensures { result.now ≡ self.now.schemas }
    {
        self.schemas.as_slice()
    }

    // The sections of the aggregation file.
    fn aggregations(&self) -> &[Aggregation]
        ensures { result.now ≡ self.now.aggregations }
    {
        self.aggregations.as_slice()
    }

    /// The layout of a path.
    #[tactic(auto, unfolding(crate::specs::LayoutBy::layout_by))]
    pub(crate) fn layout_of(&self, alloc: Global, path: &MetricPath) -> Result<Layout, AllocError>
        ensures value { IfOk result (λ layout. layout ≡ layout_by self.now path.now) }
        ensures lawful { IfOk result (λ layout. layout_fault layout.archives layout.factor ≡ None) }
    {
        let schema = schema_for(alloc, self.schemas(), path)?;
        let aggregation = aggregation_for(alloc, self.aggregations(), path)?;
        Ok(layout_under(schema, aggregation))
    }
}

// The layout by the sections whose patterns are found in a path, each with its default.
#[tactic(auto, unfolding(crate::specs::LayoutBy::layout_under))]
fn layout_under(schema: Option<&Schema>, aggregation: Option<&Aggregation>) -> Layout
    ensures value { result ≡
        layout_under (option_copied schema.entry) (option_copied aggregation.entry) }
    ensures lawful { layout_fault result.archives result.factor ≡ None }
{
    let archives = archives_in(schema);
    match aggregation {
        Some(section) => return lawful_layout(archives, section.method(), section.factor()),
        None => return lawful_layout(archives, DEFAULT_METHOD, DEFAULT_FACTOR),
    }
}

// The archives of a section, or the default.
#[tactic(auto, unfolding(ring_format::specs::Layout::layout_fault))]
fn archives_in<'a>(schema: Option<&'a Schema>) -> &'a [Archive]
    ensures value { result.now ≡
        option_map_or (λ schema. schema.archives) (option_copied schema.entry) default_archives }
    ensures lawful { layout_fault result.now 500000 ≡ None }
{
    match schema {
        Some(schema) => return schema.archives(),
        None => return &DEFAULT_ARCHIVES,
    }
}

// The layout with archives that are lawful with the default factor.
#[tactic(auto, using(crate::proofs::LayoutLemmas::lawful_with))]
fn lawful_layout(archives: &[Archive], method: Method, factor: u32) -> Layout
    requires archives { layout_fault archives.now 500000 ≡ None }
    requires factor { factor ≤ 1000000 }
    ensures value { result ≡ record { archives = archives.now; method = method; factor = factor } }
    ensures lawful { layout_fault archives.now factor ≡ None }
{
    match Layout::new(archives, method, factor) {
        Ok(layout) => layout,
        Err(_) => unreachable!(),
    }
}

// The first section whose pattern is found in a path.
fn schema_for<'a>(
    alloc: Global,
    schemas: &'a [Schema],
    path: &MetricPath,
) -> Result<Option<&'a Schema>, AllocError>
    ensures { IfOk result (λ schema. option_copied schema ≡ schema_for schemas.now path.now) }
{
    for schema in schemas {
        if schema.is_found(alloc, path)? {
            return Ok(Some(schema));
        }
    }
    Ok(None)
}

fn aggregation_for<'a>(
    alloc: Global,
    aggregations: &'a [Aggregation],
    path: &MetricPath,
) -> Result<Option<&'a Aggregation>, AllocError>
    ensures { IfOk result
        (λ section. option_copied section ≡ aggregation_for aggregations.now path.now) }
{
    for aggregation in aggregations {
        if aggregation.is_found(alloc, path)? {
            return Ok(Some(aggregation));
        }
    }
    Ok(None)
}
