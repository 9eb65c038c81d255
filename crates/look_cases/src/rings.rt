//! What a ring file has, and what it shows.
ghost use Rattle.std.specs.Prelude.{false};
ghost use Rattle.ring_archive.specs.View.{IsThere};
ghost use Rattle.ring_look.specs.Found.{IsReadable};

use crate::calls::{disk_of, path_of, tell_text};
use case_lines::{Case, CaseFault, Told, made};
use metric_path::MetricPath;
use outside_io::{Disk, DiskFailed};
use ring_archive::{RingFault, RingView};
use ring_look::{FileFound, fetch_file, look_at, push_info, push_values, read_archives};
use series_fetch::window_of;
use std::alloc::Global;

// The latest moment.
const MOST_NOW: u64 = 4_000_000_000;

// A question about moments, and when it is asked.
#[derive(Clone, Copy)]
struct Span {
    now: u64,
    from: u64,
    until: u64,
}

/// Tells the head of a file, and what its archives have stored.
pub fn tell_info(alloc: Global, told: &mut Told, case: &Case) {
    if let Some(path) = path_of(alloc, case, told) {
        tell_of_path(alloc, told, case, path, None);
    }
}

/// Tells the values that a file shows.
pub fn tell_values(alloc: Global, told: &mut Told, case: &Case) {
    let now = case.number_at(3, told);
    let from = case.number_at(4, told);
    let until = case.number_at(5, told);
    if let Some(path) = path_of(alloc, case, told) {
        tell_of_path(alloc, told, case, path, Some(Span { now, from, until }));
    }
}

fn tell_of_path(alloc: Global, told: &mut Told, case: &Case, path: MetricPath, span: Option<Span>) {
    let Some(name) = made(name_of(&path), told) else {
        return;
    };
    if let Some(mut disk) = disk_of(alloc, case, 1, name.as_str(), told) {
        tell_text(told, text_of(alloc, &mut disk, name.as_str(), path, span));
    }
}

fn name_of(path: &MetricPath) -> Result<String, CaseFault> {
    Ok(path.file_name()?)
}

// The text of the file of a path.
fn text_of<D: Disk>(
    alloc: Global,
    disk: &mut D,
    name: &str,
    path: MetricPath,
    span: Option<Span>,
) -> Result<Vec<u8>, RingFault> {
    match look_at(disk, name) {
        Ok(found) => text_by(alloc, disk, name, path, span, found),
        Err(DiskFailed) => Err(RingFault::DiskFault),
    }
}

fn text_by<D: Disk>(
    alloc: Global,
    disk: &mut D,
    name: &str,
    path: MetricPath,
    span: Option<Span>,
    found: FileFound,
) -> Result<Vec<u8>, RingFault>
    requires readable { IsReadable found (D.image disk.old) name.now }
{
    match found {
        FileFound::Ring(layout, version) => {
            let view = RingView {
                name,
                layout,
                version,
            };
            text_of_ring(alloc, disk, &view, path, span)
        }
        _ => Ok(Vec::from_slice(alloc, b"none")?),
    }
}

fn text_of_ring<D: Disk>(
    alloc: Global,
    disk: &mut D,
    view: &RingView<'_>,
    path: MetricPath,
    span: Option<Span>,
) -> Result<Vec<u8>, RingFault>
    requires file { IsThere view.now false (D.image disk.old) }
{
    match span {
        Some(span) => values_text(alloc, disk, view, path, span),
        None => info_text(alloc, disk, view, path),
    }
}

fn info_text<D: Disk>(
    alloc: Global,
    disk: &mut D,
    view: &RingView<'_>,
    path: MetricPath,
) -> Result<Vec<u8>, RingFault>
    requires file { IsThere view.now false (D.image disk.old) }
{
    let archives = read_archives(alloc, disk, view, path)?;
    let mut text = Vec::new(alloc);
    push_info(&mut text, &view.layout, view.version, &archives)?;
    Ok(text)
}

fn values_text<D: Disk>(
    alloc: Global,
    disk: &mut D,
    view: &RingView<'_>,
    path: MetricPath,
    span: Span,
) -> Result<Vec<u8>, RingFault>
    requires file { IsThere view.now false (D.image disk.old) }
{
    if span.from > span.until || span.now > MOST_NOW {
        return Ok(Vec::from_slice(alloc, b"bad span")?);
    }
    let window = window_of(&view.layout, span.now, span.from, span.until);
    let values = fetch_file(alloc, disk, view, path, window)?;
    let mut text = Vec::new(alloc);
    push_values(&mut text, &view.layout, window, &values)?;
    Ok(text)
}
