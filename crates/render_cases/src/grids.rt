//! Series, their common grids, series on them and thinned ones.

use crate::early::are_narrow;
use crate::notation::{read_series, series_at, series_from, write_series, write_values};
use case_lines::{Case, CaseFault, Told, string_of};
use series_set::{LATEST_END, Reading, Series, SeriesSet, common_grid, on_grid, thin};
use std::alloc::Global;

/// Tells what the case of one of these verbs tells.
pub fn tell(alloc: Global, told: &mut Told, case: &Case) {
    match case.verb() {
        "end" => tell_end(alloc, told, case),
        "place" => tell_place(alloc, told, case),
        "exchange" => tell_exchange(alloc, told, case),
        "grid" => tell_grid(alloc, told, case),
        "regrid" => tell_regrid(alloc, told, case),
        _ => tell_thin(alloc, told, case),
    }
}

/// `end SERIES`: its end, or `no series`.
fn tell_end(alloc: Global, told: &mut Told, case: &Case) {
    match read_series(alloc, case.text_at(0, told), told) {
        Some(series) => write!(told, "{}", series.end()),
        None => told.push_str("no series"),
    }
}

/// `place MOMENT SERIES`: how many of its values come before the moment.
fn tell_place(alloc: Global, told: &mut Told, case: &Case) {
    let moment = case.number_at(0, told);
    if let Some(series) = series_at(alloc, case, 1, told) {
        write!(told, "{}", series.place_of(moment));
    }
}

/// `exchange NAME PATH SERIES`: the values that are taken out, the end of what is left, and the series with another name, another path
/// and these values again, with its end.
fn tell_exchange(alloc: Global, told: &mut Told, case: &Case) {
    if let Some(series) = series_at(alloc, case, 2, told) {
        let name = string_of(alloc, case.text_at(0, told), told);
        let path = string_of(alloc, case.text_at(1, told), told);
        write_exchanged(told, series.renamed(name), path);
    }
}

fn write_exchanged(told: &mut Told, series: Series, path: String) {
    let mut series = series;
    let values = series.take_values();
    write_taken(told, values.as_slice(), series.end());
    let series = series.with_path(path).with_values(values);
    write_series(told, &series);
    write!(told, " to {}", series.end());
}

fn write_taken(told: &mut Told, values: &[Reading], end: u64) {
    write_values(told, values);
    write!(told, " to {end} ");
}

/// `grid SERIES..`: their common grid as `START..END by STEP`, or why there is none.
fn tell_grid(alloc: Global, told: &mut Told, case: &Case) {
    let set = series_from(alloc, case, 0, told);
    if set.len() == 0 || !are_narrow(set.as_slice()) {
        return told.malformed();
    }
    match common_grid(&set) {
        Ok(grid) => write!(told, "{}..{} by {}", grid.start, grid.end, grid.step),
        Err(fault) => write!(told, "{fault}"),
    }
}

/// `regrid SERIES OTHER`: the series on the common grid of the two.
fn tell_regrid(alloc: Global, told: &mut Told, case: &Case) {
    let set = series_from(alloc, case, 0, told);
    match set.as_slice() {
        [series, _other] => write_regridded(alloc, told, series, &set),
        _ => told.malformed(),
    }
}

fn write_regridded(alloc: Global, told: &mut Told, series: &Series, set: &SeriesSet) {
    match regridded(alloc, series, set) {
        Ok(moved) => write_series(told, &moved),
        Err(fault) => told.fail(fault),
    }
}

fn regridded(alloc: Global, series: &Series, set: &SeriesSet) -> Result<Series, CaseFault> {
    if set.len() == 0 || !are_narrow(set.as_slice()) {
        return Err(CaseFault::Malformed);
    }
    match common_grid(set) {
        Ok(grid) if grid.end <= LATEST_END => Ok(on_grid(alloc, series, &grid)?),
        _ => Err(CaseFault::Malformed),
    }
}

/// `thin MOST SERIES`: the series with at most so many values.
fn tell_thin(alloc: Global, told: &mut Told, case: &Case) {
    let most = case.number_at(0, told);
    if let Some(series) = series_at(alloc, case, 1, told) {
        write_thinned(alloc, told, series, most);
    }
}

fn write_thinned(alloc: Global, told: &mut Told, series: Series, most: u64) {
    if most == 0 || series.end() > LATEST_END / 2 {
        return told.malformed();
    }
    match thin(alloc, series, most) {
        Ok(thinned) => write_series(told, &thinned),
        Err(_) => told.fail(CaseFault::NoMemory),
    }
}
