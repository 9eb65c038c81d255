//! An index of names.

use crate::given::{glob_of, path_of, paths_of};
use crate::telling::push_next;
use case_lines::{Case, CaseFault, Told, read_text};
use metric_index::{Hit, Index, Verdicts};
use metric_path::MetricPath;
use path_glob::{Glob, GlobSearch, Work};
use std::alloc::Global;

/// `hits GLOB STEP..`: what the glob finds in an index after these steps, as `PATH=ENTRY` in its order. A step is `+PATH,ENTRY`, which
/// enters a path, `=PATH,ENTRY`, which sets the entry of one that is there, or `-PATH`, which takes one out.
pub fn tell_hits(alloc: Global, told: &mut Told, case: &Case) {
    let index = index_of(alloc, case.rest(1), told);
    match glob_of(alloc, case.bytes_at(0, told)) {
        Ok(glob) => push_found(alloc, told, &index, &Verdicts::none(alloc, &glob)),
        Err(fault) => told.fail(fault),
    }
}

fn push_found(alloc: Global, told: &mut Told, index: &Index<String>, known: &Verdicts<'_>) {
    match index.find(alloc, known) {
        Ok(hits) => push_hits(told, &hits),
        Err(_) => told.fail(CaseFault::NoMemory),
    }
}

fn push_hits(told: &mut Told, hits: &[Hit<'_, String>]) {
    for hit in hits {
        push_next(told, hit.path.as_str());
        write!(told, "={}", *hit.entry);
    }
}

/// `known-hits GLOB COUNT NAME.. STEP..`: the same, where the glob was held against so many names beforehand, which are in byte order.
pub fn tell_known_hits(alloc: Global, told: &mut Told, case: &Case) {
    let count = case.small_at(1, told) as usize;
    let names = paths_of(alloc, case.rest(2).get(..count).unwrap_or(&[]), told);
    let index = index_of(alloc, case.rest(2_usize.saturating_add(count)), told);
    match glob_of(alloc, case.bytes_at(0, told)) {
        Ok(glob) => push_known_hits(alloc, told, &index, &glob, &names),
        Err(fault) => told.fail(fault),
    }
}

fn push_known_hits(
    alloc: Global,
    told: &mut Told,
    index: &Index<String>,
    glob: &Glob,
    names: &[MetricPath],
) {
    let Ok(mut search) = GlobSearch::new(alloc, glob) else {
        return told.fail(CaseFault::NoMemory);
    };
    match Verdicts::of_paths(alloc, glob, &mut search, names, &mut Work::of_question()) {
        Ok(known) => push_found(alloc, told, index, &known),
        Err(_) => told.fail(CaseFault::NoMemory),
    }
}

/// `entry PATH STEP..`: the entry that the path has after these steps, or `none`, and how many paths there are.
pub fn tell_entry(alloc: Global, told: &mut Told, case: &Case) {
    let index = index_of(alloc, case.rest(1), told);
    match path_of(alloc, case.bytes_at(0, told)) {
        Ok(path) => push_entry(told, &index, &path),
        Err(fault) => told.fail(fault),
    }
}

fn push_entry(told: &mut Told, index: &Index<String>, path: &MetricPath) {
    match index.get(path) {
        Some(entry) => told.push_str(entry.as_str()),
        None => told.push_str("none"),
    }
    write!(told, " of {}", index.len());
}

fn index_of(alloc: Global, steps: &[Vec<u8>], told: &mut Told) -> Index<String> {
    let mut index = Index::new(alloc);
    for step in steps {
        make_step(alloc, &mut index, step.as_slice(), told);
    }
    index
}

fn make_step(alloc: Global, index: &mut Index<String>, step: &[u8], told: &mut Told) {
    match step {
        [b'+', rest @ ..] => enter(index, pair_of(alloc, rest, told), told),
        [b'=', rest @ ..] => set(index, pair_of(alloc, rest, told), told),
        [b'-', rest @ ..] => remove(index, path_of(alloc, rest), told),
        _ => told.malformed(),
    }
}

fn enter(index: &mut Index<String>, pair: Result<Pair, CaseFault>, told: &mut Told) {
    match pair {
        Ok(pair) => told.keep(index.insert(pair.path, pair.entry)),
        Err(fault) => told.fail(fault),
    }
}

fn set(index: &mut Index<String>, pair: Result<Pair, CaseFault>, told: &mut Told) {
    match pair {
        Ok(pair) => set_known(index, pair, told),
        Err(fault) => told.fail(fault),
    }
}

fn set_known(index: &mut Index<String>, pair: Pair, told: &mut Told) {
    let Pair { path, entry } = pair;
    if index.get(&path).is_none() {
        return told.malformed();
    }
    index.set(&path, entry);
}

fn remove(index: &mut Index<String>, path: Result<MetricPath, CaseFault>, told: &mut Told) {
    match path {
        Ok(path) => index.remove(&path),
        Err(fault) => told.fail(fault),
    }
}

// A path, and the entry that it is to have.
#[derive(Drop)]
struct Pair {
    path: MetricPath,
    entry: String,
}

fn pair_of(alloc: Global, text: &[u8], told: &mut Told) -> Result<Pair, CaseFault> {
    let Some((path, entry)) = read_text(text, told).split_once(',') else {
        return Err(CaseFault::Malformed);
    };
    Ok(Pair {
        path: path_of(alloc, path.as_bytes())?,
        entry: String::from_str(alloc, entry)?,
    })
}

/// `hits-sweep NAMES TIMES GLOB`: how many hits so many searches have together, in an index of the names `servers.web00000.cpu` and on.
pub fn tell_sweep(alloc: Global, told: &mut Told, case: &Case) {
    let names = case.small_at(0, told);
    let times = case.small_at(1, told);
    let index = index_of_servers(alloc, names, told);
    match glob_of(alloc, case.bytes_at(2, told)) {
        Ok(glob) => push_sweep(alloc, told, &index, &glob, times),
        Err(fault) => told.fail(fault),
    }
}

fn push_sweep(alloc: Global, told: &mut Told, index: &Index<u32>, glob: &Glob, times: u32) {
    let known = Verdicts::none(alloc, glob);
    let mut hits: usize = 0;
    for _ in 0..times {
        hits = hits.saturating_add(hit_count(alloc, index, &known, told));
    }
    write!(told, "{hits}");
}

fn hit_count(alloc: Global, index: &Index<u32>, known: &Verdicts<'_>, told: &mut Told) -> usize {
    match index.find(alloc, known) {
        Ok(hits) => hits.len(),
        Err(_) => {
            told.fail(CaseFault::NoMemory);
            0
        }
    }
}

fn index_of_servers(alloc: Global, names: u32, told: &mut Told) -> Index<u32> {
    let mut index = Index::new(alloc);
    for n in 0..names {
        match path_of_server(alloc, n) {
            Ok(path) => told.keep(index.insert(path, n)),
            Err(fault) => told.fail(fault),
        }
    }
    index
}

fn path_of_server(alloc: Global, n: u32) -> Result<MetricPath, CaseFault> {
    let text = format!(in alloc; "servers.web{n:05}.cpu")?;
    path_of(alloc, text.as_bytes())
}
