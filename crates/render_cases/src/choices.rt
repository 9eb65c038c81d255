//! Series that are chosen, sorted and named.

use crate::notation::{known_value, set_at, write_names};
use crate::room::plenty;
use case_lines::{Case, CaseFault, Told, push_item, read_small_signed, string_of};
use fixed_num::{Milli, wide};
use name_pattern::PatternText;
use series_pick::{Choose, Name, SignedNodes, choose};
use series_set::SeriesSet;
use std::alloc::Global;

/// `choose SET FUNCTION ARGUMENT..`: the names of the series that the function leaves, or `no pattern`. Bounds are in thousandths.
pub fn tell_choice(alloc: Global, told: &mut Told, case: &Case) {
    let set = set_at(alloc, case, 0, told);
    match read_choice(alloc, case, told) {
        Some(kind) => write_chosen(alloc, told, &kind, set),
        None => told.push_str("no pattern"),
    }
}

fn write_chosen(alloc: Global, told: &mut Told, kind: &Choose, set: SeriesSet) {
    match choose(alloc, kind, set, &mut plenty()) {
        Ok(chosen) => write_names(told, &chosen),
        Err(_) => told.fail(CaseFault::NoMemory),
    }
}

// What the words say; nothing where a pattern is none.
fn read_choice(alloc: Global, case: &Case, told: &mut Told) -> Option<Choose> {
    match case.text_at(1, told) {
        "grep" | "exclude" | "aliasSub" => read_search(alloc, case, told),
        "alias" => Some(Choose::Alias {
            name: name_at(alloc, case, 2, told),
        }),
        "aliasByNode" => Some(Choose::AliasByNode {
            nodes: nodes_from(alloc, case, 2, told),
        }),
        word if case.len() == 2 => read_plain(word, told),
        word => read_bounded(word, known_value(case.text_at(2, told), told), told),
    }
}

fn read_search(alloc: Global, case: &Case, told: &mut Told) -> Option<Choose> {
    match PatternText::new(alloc, case.text_at(2, told)) {
        Ok(Some(pattern)) => Some(search_by(alloc, case, pattern, told)),
        Ok(None) => None,
        Err(_) => {
            told.fail(CaseFault::NoMemory);
            None
        }
    }
}

fn search_by(alloc: Global, case: &Case, pattern: PatternText, told: &mut Told) -> Choose {
    match case.text_at(1, told) {
        "grep" => Choose::Grep { pattern },
        "exclude" => Choose::Exclude { pattern },
        _ => Choose::AliasSub {
            pattern,
            replacement: name_at(alloc, case, 3, told),
        },
    }
}

fn name_at(alloc: Global, case: &Case, at: usize, told: &mut Told) -> Name {
    Name::from_string(string_of(alloc, case.text_at(at, told), told))
}

// The words from a place on.
fn nodes_from(alloc: Global, case: &Case, at: usize, told: &mut Told) -> SignedNodes {
    let mut nodes = Vec::new(alloc);
    for place in at..case.len() {
        let node = read_small_signed(case.text_at(place, told), told);
        push_item(&mut nodes, node, told);
    }
    SignedNodes::from_vec(nodes)
}

// The word is of no function.
fn none(told: &mut Told) -> Option<Choose> {
    told.malformed();
    None
}

// The functions without an argument.
fn read_plain(word: &str, told: &mut Told) -> Option<Choose> {
    match word {
        "aliasByMetric" => Some(Choose::AliasByMetric),
        "sortByName" => Some(Choose::SortByName),
        "sortByMaxima" => Some(Choose::SortByMaxima),
        "sortByTotal" => Some(Choose::SortByTotal),
        "sortByMinima" => Some(Choose::SortByMinima),
        "removeEmptySeries" => Some(Choose::RemoveEmptySeries),
        _ => none(told),
    }
}

// Those with a bound of a measure.
fn read_bounded(word: &str, bound: Milli, told: &mut Told) -> Option<Choose> {
    match word {
        "maximumAbove" => Some(Choose::MaximumAbove { bound }),
        "minimumAbove" => Some(Choose::MinimumAbove { bound }),
        "currentAbove" => Some(Choose::CurrentAbove { bound }),
        "averageAbove" => Some(Choose::AverageAbove { bound }),
        "maximumBelow" => Some(Choose::MaximumBelow { bound }),
        "minimumBelow" => Some(Choose::MinimumBelow { bound }),
        "currentBelow" => Some(Choose::CurrentBelow { bound }),
        "averageBelow" => Some(Choose::AverageBelow { bound }),
        _ => read_counted(word, wide(bound), told),
    }
}

// Those with a number of series.
fn read_counted(word: &str, most: i128, told: &mut Told) -> Option<Choose> {
    let Ok(most) = u32::try_from(most) else {
        return none(told);
    };
    match word {
        "limit" => Some(Choose::Limit { most }),
        "highestMax" => Some(Choose::HighestMax { most }),
        "highestCurrent" => Some(Choose::HighestCurrent { most }),
        "highestAverage" => Some(Choose::HighestAverage { most }),
        "lowestCurrent" => Some(Choose::LowestCurrent { most }),
        "lowestAverage" => Some(Choose::LowestAverage { most }),
        _ => none(told),
    }
}
