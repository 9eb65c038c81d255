//! What the words of a line say.

use case_lines::{CaseFault, small_in};
use fixed_num::{Milli, narrow, wide};
use ring_format::{Archive, CellWrite, Layout, Method};
use std::alloc::Global;

// A row of cells or of values has at most so many.
const MOST: u32 = 10_000;

/// The layout of these archives: each rollup is the last value.
pub fn layout_in(alloc: Global, text: &str) -> Result<Layout, CaseFault> {
    let mut archives = Vec::new(alloc);
    for part in text.split(',') {
        let (step, points) = halves(part, 'x')?;
        archives.push(Archive {
            step: small_in(step)?,
            points: small_in(points)?,
        })?;
    }
    match Layout::new(&archives, Method::Last, 0) {
        Ok(layout) => Ok(layout),
        Err(_) => Err(CaseFault::Malformed),
    }
}

/// Cells of a layout, or none.
pub fn cells_in(alloc: Global, layout: &Layout, text: &str) -> Result<Vec<CellWrite>, CaseFault> {
    let mut cells = Vec::new(alloc);
    if text == "-" {
        return Ok(cells);
    }
    for part in text.split(',') {
        let (cell, count) = counted(part)?;
        push_cells(&mut cells, layout, cell_in(cell)?, count)?;
    }
    Ok(cells)
}

fn cell_in(text: &str) -> Result<CellWrite, CaseFault> {
    let (place, held) = halves(text, ':')?;
    let (archive, slot) = halves(place, '/')?;
    let (bucket, value) = halves(held, ':')?;
    Ok(CellWrite {
        archive: small_in(archive)?,
        slot: small_in(slot)?,
        bucket: small_in(bucket)?,
        value: value_in(value)?,
    })
}

// Puts so many cells behind one another, from the first one on.
fn push_cells(
    cells: &mut Vec<CellWrite>,
    layout: &Layout,
    first: CellWrite,
    count: u32,
) -> Result<(), CaseFault> {
    for k in 0..count {
        let slot = first.slot.saturating_add(k);
        if !layout.has_slot(first.archive, slot) {
            return Err(CaseFault::Malformed);
        }
        let step = step_of(layout, first.archive);
        cells.push(CellWrite {
            archive: first.archive,
            slot,
            bucket: first.bucket.saturating_add(step.saturating_mul(k)),
            value: more(first.value, k)?,
        })?;
    }
    Ok(())
}

fn step_of(layout: &Layout, archive: u32) -> u32 {
    match layout.archives().get(archive as usize) {
        Some(archive) => archive.step,
        None => 0,
    }
}

/// Values, each of which may be missing.
pub fn values_in(alloc: Global, text: &str) -> Result<Vec<Option<Milli>>, CaseFault> {
    let mut values = Vec::new(alloc);
    for part in text.split(',') {
        let (value, count) = counted(part)?;
        push_values(&mut values, value, count)?;
    }
    Ok(values)
}

fn push_values(values: &mut Vec<Option<Milli>>, text: &str, count: u32) -> Result<(), CaseFault> {
    for k in 0..count {
        values.push(match text {
            "-" => None,
            _ => Some(more(value_in(text)?, k)?),
        })?;
    }
    Ok(())
}

// What stands before a `*` in a text, and the number behind it: 1 without one.
fn counted(text: &str) -> Result<(&str, u32), CaseFault> {
    match text.split_once('*') {
        Some((one, count)) => Ok((one, small_in(count)?.min(MOST))),
        None => Ok((text, 1)),
    }
}

// A value and so many thousandths.
fn more(value: Milli, count: u32) -> Result<Milli, CaseFault> {
    narrow(wide(value).saturating_add(i128::from(count))).ok_or(CaseFault::Malformed)
}

fn halves(text: &str, mark: char) -> Result<(&str, &str), CaseFault> {
    match text.split_once(mark) {
        Some(halves) => Ok(halves),
        None => Err(CaseFault::Malformed),
    }
}

fn value_in(text: &str) -> Result<Milli, CaseFault> {
    match text.parse::<i128>() {
        Ok(number) => narrow(number).ok_or(CaseFault::Malformed),
        Err(_) => Err(CaseFault::Malformed),
    }
}
