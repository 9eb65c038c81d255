//! Paths of metrics, and the names of their files.

use crate::given::path_of;
use crate::telling::{push_bytes, push_next, push_string};
use case_lines::{Case, CaseFault, Told};
use metric_path::{MetricPath, PathFault, legal_front};
use std::alloc::Global;
use std::cmp::Ordering;

/// `path TEXT`: the text of the path, or why the text is none.
pub fn tell_path(alloc: Global, told: &mut Told, case: &Case) {
    match MetricPath::new(alloc, case.bytes_at(0, told)) {
        Ok(path) => push_bytes(told, path.text()),
        Err(fault) => push_fault(told, fault),
    }
}

/// `nodes PATH`: how many nodes the path has, and each of them.
pub fn tell_nodes(alloc: Global, told: &mut Told, case: &Case) {
    match path_of(alloc, case.bytes_at(0, told)) {
        Ok(path) => push_nodes(told, &path),
        Err(fault) => told.fail(fault),
    }
}

fn push_nodes(told: &mut Told, path: &MetricPath) {
    write!(told, "{}", path.node_count());
    for i in 0..path.node_count() {
        told.push(' ');
        push_bytes(told, path.node(i));
    }
}

/// `compare PATH OTHER`: how a copy of the path stands to the other in byte order.
pub fn tell_order(alloc: Global, told: &mut Told, case: &Case) {
    let other = case.bytes_at(1, told);
    match copy_of(alloc, case.bytes_at(0, told)) {
        Ok(path) => push_order(alloc, told, &path, other),
        Err(fault) => told.fail(fault),
    }
}

fn copy_of(alloc: Global, text: &[u8]) -> Result<MetricPath, CaseFault> {
    Ok(path_of(alloc, text)?.copy()?)
}

fn push_order(alloc: Global, told: &mut Told, path: &MetricPath, other: &[u8]) {
    match path_of(alloc, other) {
        Ok(other) => told.push_str(order_of(path, &other)),
        Err(fault) => told.fail(fault),
    }
}

fn order_of(path: &MetricPath, other: &MetricPath) -> &'static str {
    if *path == *other {
        return "equal";
    }
    match path.cmp(other) {
        Ordering::Less => "before",
        Ordering::Equal => "not told apart",
        Ordering::Greater => "behind",
    }
}

/// `becomes PATH OTHER..`: the path as each of the others in turn, in the memory that it has.
pub fn tell_becomes(alloc: Global, told: &mut Told, case: &Case) {
    if let Err(fault) = push_rewritten(alloc, told, case.rest(0)) {
        told.fail(fault);
    }
}

fn push_rewritten(alloc: Global, told: &mut Told, texts: &[Vec<u8>]) -> Result<(), CaseFault> {
    let [first, others @ ..] = texts else {
        return Err(CaseFault::Malformed);
    };
    let mut path = path_of(alloc, first.as_slice())?;
    for text in others {
        path = rewritten(alloc, path, text.as_slice())?;
        push_next(told, path.as_str());
    }
    Ok(())
}

fn rewritten(alloc: Global, path: MetricPath, text: &[u8]) -> Result<MetricPath, CaseFault> {
    let other = path_of(alloc, text)?;
    Ok(path.with_legal(other.text())?)
}

/// `class PATH`: the class of the path.
pub fn tell_class(alloc: Global, told: &mut Told, case: &Case) {
    match path_of(alloc, case.bytes_at(0, told)) {
        Ok(path) => write!(told, "{}", path.class()),
        Err(fault) => told.fail(fault),
    }
}

/// `file-name PATH`: the name of the path's file.
pub fn tell_file_name(alloc: Global, told: &mut Told, case: &Case) {
    match path_of(alloc, case.bytes_at(0, told)) {
        Ok(path) => push_string(told, path.file_name()),
        Err(fault) => told.fail(fault),
    }
}

/// `file-path NAME`: the path whose file has the name, or `none`.
pub fn tell_file_path(alloc: Global, told: &mut Told, case: &Case) {
    match MetricPath::of_file_name(alloc, case.text_at(0, told)) {
        Ok(Some(path)) => told.push_str(path.as_str()),
        Ok(None) => told.push_str("none"),
        Err(_) => told.fail(CaseFault::NoMemory),
    }
}

/// `legal-front TEXT`: how many bytes at the front of the text, up to the first that none may have, are a path.
pub fn tell_front(told: &mut Told, case: &Case) {
    let text = case.bytes_at(0, told);
    write!(told, "{}", legal_front(text));
}

/// The words of a fault.
pub fn push_fault(told: &mut Told, fault: PathFault) {
    match fault {
        PathFault::Empty => told.push_str("empty"),
        PathFault::TooLong => told.push_str("too long"),
        PathFault::EmptyNode => told.push_str("empty node"),
        PathFault::BadByte(at) => write!(told, "bad byte {at}"),
        PathFault::NoMemory => told.push_str("no memory"),
    }
}
