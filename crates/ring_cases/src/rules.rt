//! The rule files, and the layouts by them.

use crate::layouts::tell_layout_fault;
use crate::told::{tell_archives, tell_layout};
use crate::words::path_in;
use case_lines::{Case, CaseFault, Told};
use ring_format::Layout;
use schema_rules::{RuleCause, RuleFault, RuleFile, Rules};
use std::alloc::Global;

/// `rules SCHEMAS AGGREGATIONS`: `read`, or the first fault of the two files.
pub fn tell_rules(alloc: Global, told: &mut Told, case: &Case) {
    match Rules::read(alloc, case.bytes_at(0, told), case.bytes_at(1, told)) {
        Ok(_) => told.push_str("read"),
        Err(fault) => tell_fault(told, fault),
    }
}

fn tell_fault(told: &mut Told, fault: RuleFault) {
    match fault {
        RuleFault::Fault(file, cause) => {
            told.push_str(name_of(file));
            tell_cause(told, cause);
        }
        RuleFault::NoMemory => told.fail(CaseFault::NoMemory),
    }
}

fn name_of(file: RuleFile) -> &'static str {
    match file {
        RuleFile::Schemas => "schemas: ",
        RuleFile::Aggregations => "aggregations: ",
    }
}

fn tell_cause(told: &mut Told, cause: RuleCause) {
    match cause {
        RuleCause::TooLong => told.push_str("too long"),
        RuleCause::Line(n) => write!(told, "line {n}"),
        RuleCause::BadPattern(n) => write!(told, "section {n} pattern"),
        RuleCause::BadRetention(n) => write!(told, "section {n} retentions"),
        RuleCause::BadLayout(n, fault) => {
            write!(told, "section {n} ");
            tell_layout_fault(told, fault);
        }
        RuleCause::BadFactor(n) => write!(told, "section {n} factor"),
        RuleCause::BadMethod(n) => write!(told, "section {n} method"),
    }
}

/// `retentions TEXT`: the archives of a path by one section with these retentions, or the fault of its file.
pub fn tell_retentions(alloc: Global, told: &mut Told, case: &Case) {
    let text = case.bytes_at(0, told);
    let mut schemas = Vec::new(alloc);
    told.keep(schemas.extend_from_slice(b"[a]\npattern = a\nretentions = "));
    told.keep(schemas.extend_from_slice(text));
    match Rules::read(alloc, &schemas, b"") {
        Ok(rules) => tell_archives_by(alloc, told, &rules),
        Err(fault) => tell_fault(told, fault),
    }
}

fn tell_archives_by(alloc: Global, told: &mut Told, rules: &Rules) {
    match layout_by(alloc, rules, b"a") {
        Ok(layout) => tell_archives(told, layout.archives()),
        Err(fault) => told.fail(fault),
    }
}

/// `path-layout SCHEMAS AGGREGATIONS PATH`: the layout of the path, by the rules and by a share of them.
pub fn tell_path_layout(alloc: Global, told: &mut Told, case: &Case) {
    let path = case.bytes_at(2, told);
    match Rules::read(alloc, case.bytes_at(0, told), case.bytes_at(1, told)) {
        Ok(rules) => tell_by_rules(alloc, told, &rules, path),
        Err(_) => told.malformed(),
    }
}

fn tell_by_rules(alloc: Global, told: &mut Told, rules: &Rules, path: &[u8]) {
    match layout_by(alloc, rules, path) {
        Ok(layout) => tell_by_share(alloc, told, rules, path, &layout),
        Err(fault) => told.fail(fault),
    }
}

fn tell_by_share(alloc: Global, told: &mut Told, rules: &Rules, path: &[u8], layout: &Layout) {
    match layout_by_share(alloc, rules, path) {
        Ok(shared) => tell_layouts(told, layout, &shared),
        Err(fault) => told.fail(fault),
    }
}

fn tell_layouts(told: &mut Told, layout: &Layout, shared: &Layout) {
    tell_layout(told, layout);
    if *shared != *layout {
        told.push_str(", shared ");
        tell_layout(told, shared);
    }
}

fn layout_by_share(alloc: Global, rules: &Rules, path: &[u8]) -> Result<Layout, CaseFault> {
    let shared = rules.share()?;
    layout_by(alloc, &shared, path)
}

fn layout_by(alloc: Global, rules: &Rules, path: &[u8]) -> Result<Layout, CaseFault> {
    let path = path_in(alloc, path)?;
    Ok(rules.layout_of(alloc, &path)?)
}
