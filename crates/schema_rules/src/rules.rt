//! The rules of both files.
ghost use Rattle.std.specs.Prelude.{◌≡◌, ◌≢◌, ◌<◌, None, Ok, Err, IfOk, IfErr, length};
ghost use Rattle.ring_format.specs.Layout.{layout_fault};
ghost use Rattle.schema_rules.specs.LayoutBy.{layout_by};
ghost use Rattle.schema_rules.specs.RulesOf.{Stops, aggregations_result, most_file_bytes, schemas_result};

use crate::aggregation::{Aggregation, aggregations_of};
use crate::fault::{RuleCause, RuleFault, RuleFile, Stop};
use crate::file::file_sections;
use crate::lists::Lists;
use crate::schema::{Schema, schemas_of};
use metric_path::MetricPath;
use ring_format::Layout;
use std::alloc::{AllocError, Global};
use std::marker::Model;
use std::sync::Arc;

/// The rules by which metrics have their layouts. Contracts see the sections of both files that count.
#[derive(Drop)]
pub struct Rules {
    lists: Arc<Lists, Global>,
}

impl Model for Rules {
    ghost use Rattle.std.specs.Arc.{arc_value};
    ghost use Rattle.schema_rules.specs.RulesOf.{RulesValue};

    ghost Value = { RulesValue };

    ghost view = { λ r. arc_value r.lists };
}

impl Rules {
    ghost use Rattle.schema_rules.specs.RulesOf.{rules_result};

    /// Reads `storage-schemas.conf` and `storage-aggregation.conf`. An absent file is given as no bytes.
    ///
    /// # Errors
    ///
    /// The first fault: those of the schema file before those of the aggregation file. In a file it is the
    /// file's length, then its first bad line, and then the first section at fault: its pattern, its
    /// retentions and its layout, or its pattern, its factor and its method. `NoMemory` also where a pattern
    /// takes more memory than the compiler of patterns allows.
    #[tactic(auto, unfolding(crate::specs::RulesOf::rules_result))]
    pub fn read(alloc: Global, schemas: &[u8], aggregations: &[u8]) -> Result<Rules, RuleFault>
        ensures rules { IfOk result
            (λ rules. rules_result schemas.now aggregations.now ≡ Ok rules) }
        ensures fault { IfErr result (λ fault. fault ≢ RuleFault.NoMemory
            → rules_result schemas.now aggregations.now ≡ Err fault) }

        // A schema file that is too long is never told as want of memory.
        ensures long { most_file_bytes < length schemas.now
            → result ≡ Err (RuleFault.Fault RuleFile.Schemas RuleCause.TooLong) }
    {
        let schemas = match read_schemas(alloc, schemas) {
            Ok(schemas) => schemas,
            Err(Stop::Cause(cause)) => return Err(RuleFault::Fault(RuleFile::Schemas, cause)),
            Err(Stop::OutOfMemory) => return Err(RuleFault::NoMemory),
        };
        let aggregations = match read_aggregations(alloc, aggregations) {
            Ok(aggregations) => aggregations,
            Err(Stop::Cause(cause)) => return Err(RuleFault::Fault(RuleFile::Aggregations, cause)),
            Err(Stop::OutOfMemory) => return Err(RuleFault::NoMemory),
        };
        match Arc::new(alloc, Lists::new(schemas, aggregations)) {
            Ok(lists) => return Ok(Rules { lists }),
            Err(_) => return Err(RuleFault::NoMemory),
        }
    }

    /// The same rules once more. No pattern is read again.
    pub fn share(&self) -> Result<Rules, AllocError>
        ensures { IfOk result (λ rules. rules ≡ self.now) }
    {
        let lists = Arc::try_clone(&self.lists)?;
        Ok(Rules { lists })
    }

    /// The layout of a path: the archives of the first schema section whose pattern is found in it, else 60
    /// seconds for 10,080 points; the method and the factor of the first such aggregation section, each with its
    /// default, average and 500,000 millionths.
    pub fn layout_of(&self, alloc: Global, path: &MetricPath) -> Result<Layout, AllocError>
        ensures value { IfOk result (λ layout. layout ≡ layout_by self.now path.now) }
        ensures lawful { IfOk result
            (λ layout. layout_fault layout.archives layout.factor ≡ None) }
    {
        self.lists.layout_of(alloc, path)
    }
}

// The rules of the schema file.
#[tactic(auto, unfolding(crate::specs::RulesOf::schemas_result))]
fn read_schemas(alloc: Global, file: &[u8]) -> Result<Vec<Schema>, Stop>
    ensures rules { IfOk result (λ rules. schemas_result file.now ≡ Ok rules.items) }
    ensures stop { IfErr result (Stops (schemas_result file.now)) }
    ensures long { most_file_bytes < length file.now
        → result ≡ Err (Stop.Cause RuleCause.TooLong) }
{
    match file_sections(alloc, file) {
        Ok(sections) => return schemas_of(alloc, sections.as_slice()),
        Err(stop) => return Err(stop),
    }
}

// The rules of the aggregation file.
#[tactic(auto, unfolding(crate::specs::RulesOf::aggregations_result))]
fn read_aggregations(alloc: Global, file: &[u8]) -> Result<Vec<Aggregation>, Stop>
    ensures rules { IfOk result (λ rules. aggregations_result file.now ≡ Ok rules.items) }
    ensures stop { IfErr result (Stops (aggregations_result file.now)) }
{
    match file_sections(alloc, file) {
        Ok(sections) => return aggregations_of(alloc, sections.as_slice()),
        Err(stop) => return Err(stop),
    }
}
