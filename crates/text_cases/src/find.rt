//! Queries for names, and the texts that answer them.
ghost use Rattle.std.specs.Prelude.{IfOk};
ghost use Rattle.std.specs.Cmp.Lexicographic.{slice_cmp};
ghost use Rattle.std.specs.List.Sorted.{IsStrictlySortedBy};
ghost use Rattle.std.specs.Ordering.{nat_cmp};

use crate::given::{path_of, paths_of};
use crate::telling::{push_bytes, push_made};
use case_lines::{Case, CaseFault, Told, made, push_item};
use find_api::{FindFault, expand_text, find_text, index_text, read_queries};
use metric_path::MetricPath;
use path_glob::Glob;
use std::alloc::{AllocError, Global};

/// `queries QUERY BODY`: the globs that a query string and a form ask for, or why they are refused.
pub fn tell_queries(alloc: Global, told: &mut Told, case: &Case) {
    match read_queries(alloc, case.bytes_at(0, told), case.bytes_at(1, told)) {
        Ok(globs) => push_globs(told, &globs),
        Err(fault) => push_fault(told, fault),
    }
}

fn push_globs(told: &mut Told, globs: &[Glob]) {
    for glob in globs {
        told.push_blank();
        push_bytes(told, glob.text());
    }
}

/// `find QUERY NAME..`: the nodes that the query finds among the names, as JSON, or why it is refused.
pub fn tell_find(alloc: Global, told: &mut Told, case: &Case) {
    let query = case.bytes_at(0, told);
    let names = match sorted_names(alloc, case.rest(1), told) {
        Ok(names) => names,
        Err(fault) => return told.fail(fault),
    };
    match read_queries(alloc, query, b"") {
        Ok(globs) => push_made(told, find_text(alloc, &globs, &names)),
        Err(fault) => push_fault(told, fault),
    }
}

/// `expand QUERY NAME..`: the paths that the queries find among the names, as JSON, or why they are refused.
pub fn tell_expand(alloc: Global, told: &mut Told, case: &Case) {
    let query = case.bytes_at(0, told);
    let names = match sorted_names(alloc, case.rest(1), told) {
        Ok(names) => names,
        Err(fault) => return told.fail(fault),
    };
    match read_queries(alloc, query, b"") {
        Ok(globs) => push_made(told, expand_text(alloc, &globs, &names)),
        Err(fault) => push_fault(told, fault),
    }
}

/// `index NAME..`: all names, as JSON.
pub fn tell_index(alloc: Global, told: &mut Told, case: &Case) {
    match sorted_names(alloc, case.rest(0), told) {
        Ok(names) => push_made(told, index_text(alloc, &names)),
        Err(fault) => told.fail(fault),
    }
}

// Names in byte order, each once.
fn sorted_names(
    alloc: Global,
    texts: &[Vec<u8>],
    told: &mut Told,
) -> Result<Vec<MetricPath>, CaseFault>
    ensures { IfOk result (λ names. IsStrictlySortedBy (slice_cmp nat_cmp) names.items) }
{
    in_order(paths_of(alloc, texts, told))
}

fn in_order(names: Vec<MetricPath>) -> Result<Vec<MetricPath>, CaseFault>
    ensures { IfOk result (λ names. IsStrictlySortedBy (slice_cmp nat_cmp) names.items) }
{
    let mut names = names;
    names.sort()?;
    names.dedup();
    Ok(names)
}

/// `find-sweep NAMES TIMES QUERY`: the bytes of so many answers together, among the names `a.b.c00000` and on.
pub fn tell_sweep(alloc: Global, told: &mut Told, case: &Case) {
    let count = case.small_at(0, told);
    let times = case.small_at(1, told);
    let query = case.bytes_at(2, told);
    let names = match names_of_a_branch(alloc, count, told) {
        Ok(names) => names,
        Err(fault) => return told.fail(fault),
    };
    let Ok(globs) = read_queries(alloc, query, b"") else {
        return told.malformed();
    };
    let mut bytes: usize = 0;
    for _ in 0..times {
        bytes = bytes.saturating_add(length_of(find_text(alloc, &globs, &names), told));
    }
    write!(told, "{bytes}");
}

fn length_of(text: Result<Vec<u8>, AllocError>, told: &mut Told) -> usize {
    match text {
        Ok(text) => text.len(),
        Err(_) => {
            told.fail(CaseFault::NoMemory);
            0
        }
    }
}

// Names in order, all in one branch.
fn names_of_a_branch(
    alloc: Global,
    count: u32,
    told: &mut Told,
) -> Result<Vec<MetricPath>, CaseFault>
    ensures { IfOk result (λ names. IsStrictlySortedBy (slice_cmp nat_cmp) names.items) }
{
    in_order(paths_of_a_branch(alloc, count, told))
}

fn paths_of_a_branch(alloc: Global, count: u32, told: &mut Told) -> Vec<MetricPath> {
    let mut names = Vec::new(alloc);
    for n in 0..count {
        if let Some(name) = made(path_of_a_branch(alloc, n), told) {
            push_item(&mut names, name, told);
        }
    }
    names
}

fn path_of_a_branch(alloc: Global, n: u32) -> Result<MetricPath, CaseFault> {
    let text = format!(in alloc; "a.b.c{n:05}")?;
    path_of(alloc, text.as_bytes())
}

// The words of a fault.
fn push_fault(told: &mut Told, fault: FindFault) {
    match fault {
        FindFault::NoQuery => told.push_str("no query"),
        FindFault::TooManyQueries => told.push_str("too many queries"),
        FindFault::BadQuery(number) => write!(told, "query {number} unreadable"),
        FindFault::NoMemory => told.push_str("no memory"),
    }
}
