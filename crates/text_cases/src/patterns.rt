//! Patterns, as rules and queries search names for them.

use crate::telling::push_string;
use case_lines::{Case, CaseFault, Told, read_text};
use name_pattern::{MatchCount, NameTest, Pattern};
use std::alloc::{AllocError, Global};

/// `found PATTERN NAME..`: for each name `y` where the pattern is found in it and else `n`, or `x` where a rule and a search of
/// many names differ; `unreadable` of what is no pattern.
pub fn tell_found(alloc: Global, told: &mut Told, case: &Case) {
    match NameTest::new(alloc, case.text_at(0, told)) {
        Ok(Some(test)) => push_letters(alloc, told, &test, case.rest(1)),
        Ok(None) => told.push_str("unreadable"),
        Err(_) => told.fail(CaseFault::NoMemory),
    }
}

fn push_letters(alloc: Global, told: &mut Told, test: &NameTest, names: &[Vec<u8>]) {
    for name in names {
        let name = read_text(name.as_slice(), told);
        match letter(alloc, test, name) {
            Ok(letter) => told.push(letter),
            Err(_) => told.fail(CaseFault::NoMemory),
        }
    }
}

fn letter(alloc: Global, test: &NameTest, name: &str) -> Result<char, AllocError> {
    let is_asked = test.is_found(alloc, name)?;
    let mut search = test.pattern().search(alloc)?;
    Ok(match search.is_found(name) {
        is_searched if is_searched != is_asked => 'x',
        true => 'y',
        false => 'n',
    })
}

/// `substituted PATTERN REPLACEMENT NAME`: the name with each match replaced; `unreadable` of what is no pattern.
pub fn tell_substituted(alloc: Global, told: &mut Told, case: &Case) {
    let replacement = case.text_at(1, told);
    let name = case.text_at(2, told);
    match Pattern::new(alloc, case.text_at(0, told)) {
        Ok(Some(pattern)) => push_string(told, substituted(alloc, &pattern, replacement, name)),
        Ok(None) => told.push_str("unreadable"),
        Err(_) => told.fail(CaseFault::NoMemory),
    }
}

fn substituted(
    alloc: Global,
    pattern: &Pattern,
    replacement: &str,
    name: &str,
) -> Result<String, AllocError> {
    let mut search = pattern.search(alloc)?;
    search.substituted(alloc, name, replacement, &MatchCount::new(1 << 40))
}
