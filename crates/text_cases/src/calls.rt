//! The verbs of the cases, by subject.

use crate::{
    find, frames, globs, http, journals, lines, names, numbers, paths, patterns, samples, targets,
    times, words,
};
use case_lines::{Calls, Case, CaseFault, Told};
use std::alloc::Global;

/// The calls that read and write texts.
#[derive(Drop)]
pub struct TextCalls;

impl Calls for TextCalls {
    fn tell(&self, alloc: Global, case: &Case) -> Result<String, CaseFault> {
        let mut told = Told::new(alloc);
        tell_case(alloc, &mut told, case);
        told.finish()
    }
}

// Numbers and paths.
fn tell_case(alloc: Global, told: &mut Told, case: &Case) {
    match case.verb() {
        "whole" => numbers::tell_whole(told, case),
        "milli" => numbers::tell_milli(told, case),
        "milli-front" => numbers::tell_front(told, case),
        "milli-text" => numbers::tell_text(told, case),
        "nano" => numbers::tell_nano(told, case),
        "millionths" => numbers::tell_millionths(told, case),
        "narrow" => numbers::tell_narrow(told, case),
        "moment" => numbers::tell_moment(told, case),
        "path" => paths::tell_path(alloc, told, case),
        "nodes" => paths::tell_nodes(alloc, told, case),
        "compare" => paths::tell_order(alloc, told, case),
        "becomes" => paths::tell_becomes(alloc, told, case),
        "class" => paths::tell_class(alloc, told, case),
        "file-name" => paths::tell_file_name(alloc, told, case),
        "file-path" => paths::tell_file_path(alloc, told, case),
        "legal-front" => paths::tell_front(told, case),
        _ => tell_query(alloc, told, case),
    }
}

// What queries, lines and rules are written in.
fn tell_query(alloc: Global, told: &mut Told, case: &Case) {
    match case.verb() {
        "glob" => globs::tell_glob(alloc, told, case),
        "glob-front" => globs::tell_literal_front(alloc, told, case),
        "fits" => globs::tell_fit(alloc, told, case),
        "target" => targets::tell_target(alloc, told, case),
        "target-text" => targets::tell_text(alloc, told, case),
        "time" => times::tell_time(told, case),
        "span" => times::tell_span(told, case),
        "line" => lines::tell_line(alloc, told, case),
        "lines-over" => lines::tell_lines_over(alloc, told, case),
        "found" => patterns::tell_found(alloc, told, case),
        "substituted" => patterns::tell_substituted(alloc, told, case),
        _ => tell_service(alloc, told, case),
    }
}

// What comes over a link or from a command line.
fn tell_service(alloc: Global, told: &mut Told, case: &Case) {
    match case.verb() {
        "frames" => frames::tell_frames(alloc, told, case),
        "served" => frames::tell_served(alloc, told, case),
        "requests" => http::tell_requests(alloc, told, case),
        "requests-fed" => http::tell_feeds(alloc, told, case),
        "route" => http::tell_route(told, case),
        "query-of" => http::tell_query_of(told, case),
        "reply" => http::tell_reply(alloc, told, case),
        "answer" => http::tell_answer(alloc, told, case),
        "sample" => samples::tell_sample(alloc, told, case),
        "sample-end" => samples::tell_end(alloc, told, case),
        "question" => samples::tell_question(alloc, told, case),
        "words" => words::tell_words(alloc, told, case),
        "arguments" => words::tell_arguments(alloc, told, case),
        "journal-head" => journals::tell_head(alloc, told, case),
        "journal-record" => journals::tell_record(alloc, told, case),
        "journal" => journals::tell_journal(alloc, told, case),
        _ => tell_index(alloc, told, case),
    }
}

// What is found among names.
fn tell_index(alloc: Global, told: &mut Told, case: &Case) {
    match case.verb() {
        "hits" => names::tell_hits(alloc, told, case),
        "known-hits" => names::tell_known_hits(alloc, told, case),
        "entry" => names::tell_entry(alloc, told, case),
        "hits-sweep" => names::tell_sweep(alloc, told, case),
        "queries" => find::tell_queries(alloc, told, case),
        "find" => find::tell_find(alloc, told, case),
        "expand" => find::tell_expand(alloc, told, case),
        "index" => find::tell_index(alloc, told, case),
        "find-sweep" => find::tell_sweep(alloc, told, case),
        _ => told.malformed(),
    }
}
