//! Reading the rule files from the folder of the configuration.
ghost use Rattle.std.specs.Prelude.{◌≡◌, ◌≤◌, Ok, IfOk, IfErr, IfSome, IsErrOf, length};
ghost use Rattle.outside_io.specs.Frames.{ReadsOnly};
ghost use Rattle.schema_rules.specs.RulesOf.{rules_result};
ghost use Rattle.aggregate_rules.specs.RuleTexts.{file_rules};
ghost use Rattle.outside_io.specs.Image.{IsWithinFile, ReadsFile};
ghost use Rattle.carbon_run.specs.Conf.{AnswersAgg, Answers, IsOfReading, IsOfRules, IsRefused, IsRefusedAgg, ReadsFront, agg_rules_in, agg_rules_name, rule_file_name, rules_in};
ghost use Rattle.carbon_run.specs.Runs.{AsksFor, IsFaultFor, ReadsAgg};

use aggregate_rules::{AggCause, AggFault, AggRules};
use carbon_words::Command;
use outside_io::{Disk, DiskFailed};
use schema_rules::{RuleCause, RuleFault, RuleFile, Rules};
use std::alloc::{AllocError, Global};
use thiserror::Error;

// One byte more than a rule file may have.
const FRONT_BYTES: u64 = 1_048_577;

/// Why there are no rules.
#[derive(Clone, Copy, Debug, PartialEq, Eq, Error)]
pub(crate) enum ConfFault {
    /// The disk of the configuration failed.
    #[error("the disk of the configuration failed")]
    DiskFault,
    /// A rule file is refused.
    #[error("a rule file is refused")]
    Refused(RuleFile, RuleCause),
    /// The file of the aggregation rules is refused.
    #[error("the file of the aggregation rules is refused")]
    RefusedAgg(AggCause),
    /// There was no memory.
    #[error("there was no memory")]
    NoMemory,
}

/// The rules of a run.
#[derive(Drop)]
pub(crate) struct RunRules {
    /// Which layouts new ring files have.
    pub rules: Rules,
    /// What a server gathers of the points that come; of another command none.
    pub agg_rules: AggRules,
}

/// Reads the rule files that a command looks at: `storage-schemas.conf` and `storage-aggregation.conf`, and behind them of a
/// server `aggregation-rules.conf`. An absent one counts as empty.
pub(crate) fn read_conf<D: Disk>(
    alloc: Global,
    conf: &mut D,
    command: &Command,
) -> Result<RunRules, ConfFault>
    ensures rules { IfOk result
        (λ read. IfSome (D.image conf.old) (λ image. rules_in image ≡ Ok read.rules)) }
    ensures gathers { IfOk result (λ read. ReadsAgg command.now
        → IfSome (D.image conf.old) (λ image. agg_rules_in image ≡ Ok read.agg_rules)) }
    ensures refused { IfErr result (λ fault. IfSome (D.image conf.old) (IsRefused fault)) }
    ensures own { IfErr result (IsFaultFor command.now) }
    ensures frame { ReadsOnly D.Disk conf.old conf.new (IsErrOf result ConfFault.DiskFault) }
{
    let rules = match read_rules(alloc, conf) {
        Ok(rules) => rules,
        Err(fault) => return Err(fault),
    };
    match agg_rules_for(alloc, conf, command) {
        Ok(agg_rules) => return Ok(RunRules { rules, agg_rules }),
        Err(fault) => return Err(fault),
    }
}

// Both files are read before either is judged.
fn read_rules<D: Disk>(alloc: Global, conf: &mut D) -> Result<Rules, ConfFault>
    ensures rules { IfOk result
        (λ rules. IfSome (D.image conf.old) (λ image. rules_in image ≡ Ok rules)) }
    ensures refused { IfErr result (λ fault. IfSome (D.image conf.old) (IsRefused fault)) }
    ensures own { IfErr result IsOfRules }
    ensures frame { ReadsOnly D.Disk conf.old conf.new (IsErrOf result ConfFault.DiskFault) }
{
    let schemas = match read_front(alloc, conf, name_of(RuleFile::Schemas)) {
        Ok(schemas) => schemas,
        Err(fault) => return Err(fault),
    };
    let aggregations = match read_front(alloc, conf, name_of(RuleFile::Aggregations)) {
        Ok(aggregations) => aggregations,
        Err(fault) => return Err(fault),
    };
    match rules_of(alloc, schemas.as_slice(), aggregations.as_slice()) {
        Ok(rules) => return Ok(rules),
        Err(fault) => return Err(fault),
    }
}

// The rules of two files of these bytes.
fn rules_of(alloc: Global, schemas: &[u8], aggregations: &[u8]) -> Result<Rules, ConfFault>
    ensures rules { IfOk result (λ rules. rules_result schemas.now aggregations.now ≡ Ok rules) }
    ensures fault { IfErr result (Answers (rules_result schemas.now aggregations.now)) }
{
    match Rules::read(alloc, schemas, aggregations) {
        Ok(rules) => return Ok(rules),
        Err(RuleFault::Fault(file, cause)) => return Err(ConfFault::Refused(file, cause)),
        Err(RuleFault::NoMemory) => return Err(ConfFault::NoMemory),
    }
}

// The aggregation rules for a command: only a server looks at their file.
fn agg_rules_for<D: Disk>(
    alloc: Global,
    conf: &mut D,
    command: &Command,
) -> Result<AggRules, ConfFault>
    ensures gathers { IfOk result (λ rules. ReadsAgg command.now
        → IfSome (D.image conf.old) (λ image. agg_rules_in image ≡ Ok rules)) }
    ensures refused { IfErr result (λ fault. IfSome (D.image conf.old) (IsRefusedAgg fault)) }
    ensures own { IfErr result (IsFaultFor command.now) }
    ensures asks { AsksFor command.now conf.old conf.new }
    ensures frame { ReadsOnly D.Disk conf.old conf.new (IsErrOf result ConfFault.DiskFault) }
{
    match command {
        Command::Script(_) => no_agg_rules(alloc),
        Command::Sample(_, _) => no_agg_rules(alloc),
        Command::Serve(_, _) => read_agg_rules(alloc, conf),
    }
}

fn no_agg_rules(alloc: Global) -> Result<AggRules, ConfFault>
    ensures { IfErr result (λ fault. fault ≡ ConfFault.NoMemory) }
{
    match AggRules::read(alloc, b"") {
        Ok(rules) => return Ok(rules),
        Err(_) => return Err(ConfFault::NoMemory),
    }
}

fn read_agg_rules<D: Disk>(alloc: Global, conf: &mut D) -> Result<AggRules, ConfFault>
    ensures rules { IfOk result
        (λ rules. IfSome (D.image conf.old) (λ image. agg_rules_in image ≡ Ok rules)) }
    ensures refused { IfErr result (λ fault. IfSome (D.image conf.old) (IsRefusedAgg fault)) }
    ensures frame { ReadsOnly D.Disk conf.old conf.new (IsErrOf result ConfFault.DiskFault) }
{
    let text = match read_front(alloc, conf, name_of_agg_rules()) {
        Ok(text) => text,
        Err(fault) => return Err(fault),
    };
    match agg_rules_of(alloc, text.as_slice()) {
        Ok(rules) => return Ok(rules),
        Err(fault) => return Err(fault),
    }
}

// The aggregation rules of a file of these bytes.
fn agg_rules_of(alloc: Global, text: &[u8]) -> Result<AggRules, ConfFault>
    ensures rules { IfOk result (λ rules. file_rules text.now ≡ Ok rules) }
    ensures fault { IfErr result (AnswersAgg (file_rules text.now)) }
{
    match AggRules::read(alloc, text) {
        Ok(rules) => return Ok(rules),
        Err(AggFault::Fault(cause)) => return Err(ConfFault::RefusedAgg(cause)),
        Err(AggFault::NoMemory) => return Err(ConfFault::NoMemory),
    }
}

// The bytes of a rule file as far as they tell its rules, none where it is not there. Of a file that is too long no more is
// read than tells that it is.
fn read_front<D: Disk>(alloc: Global, conf: &mut D, name: &str) -> Result<Vec<u8>, ConfFault>
    ensures bytes { IfOk result (λ bytes. ReadsFront (D.image conf.old) name.now bytes.items) }
    ensures fault { IfErr result IsOfReading }
    ensures frame { ReadsOnly D.Disk conf.old conf.new (IsErrOf result ConfFault.DiskFault) }
{
    let size = match conf.length(name) {
        Ok(Some(size)) => size,
        Ok(None) => return Ok(Vec::new(alloc)),
        Err(DiskFailed) => return Err(ConfFault::DiskFault),
    };
    if size == 0 {
        return Ok(Vec::new(alloc));
    }
    match read_bytes(alloc, conf, name, size.min(FRONT_BYTES) as usize) {
        Ok(bytes) => return Ok(bytes),
        Err(fault) => return Err(fault),
    }
}

// So many bytes from the front of a file.
fn read_bytes<D: Disk>(
    alloc: Global,
    conf: &mut D,
    name: &str,
    count: usize,
) -> Result<Vec<u8>, ConfFault>
    requires { IsWithinFile (D.image conf.old) name.now 0 count }
    ensures bytes { IfOk result (λ bytes. ReadsFile (D.image conf.old) name.now 0 bytes.items) }
    ensures count { IfOk result (λ bytes. length bytes.items ≡ count) }
    ensures fault { IfErr result IsOfReading }
    ensures frame { ReadsOnly D.Disk conf.old conf.new (IsErrOf result ConfFault.DiskFault) }
{
    let mut bytes = match zeros(alloc, count) {
        Ok(bytes) => bytes,
        Err(_) => return Err(ConfFault::NoMemory),
    };
    match conf.read_at(name, 0, &mut bytes) {
        Ok(()) => return Ok(bytes),
        Err(DiskFailed) => return Err(ConfFault::DiskFault),
    }
}

// So many zero bytes.
fn zeros(alloc: Global, count: usize) -> Result<Vec<u8>, AllocError>
    ensures { IfOk result (λ bytes. length bytes.items ≡ count) }
{
    vec![in alloc; 0; count]
}

/// The name of a rule file.
#[tactic(auto, unfolding(crate::specs::Conf::schemas_name, crate::specs::Conf::aggregations_name))]
pub(crate) fn name_of(file: RuleFile) -> &'static str
    ensures value { result.now ≡ rule_file_name file }
    ensures short { length result.now ≤ 24 }
{
    match file {
        RuleFile::Schemas => "storage-schemas.conf",
        RuleFile::Aggregations => "storage-aggregation.conf",
    }
}

/// The name of the file of the aggregation rules.
#[tactic(auto, unfolding(crate::specs::Conf::agg_rules_name))]
pub(crate) fn name_of_agg_rules() -> &'static str
    ensures value { result.now ≡ agg_rules_name }
    ensures short { length result.now ≤ 24 }
{
    "aggregation-rules.conf"
}
