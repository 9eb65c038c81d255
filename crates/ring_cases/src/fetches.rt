//! Windows, and the values that they show.
ghost use Rattle.std.specs.Prelude.{◌≡◌, All, IsTrue, true};
ghost use Rattle.fixed_num.specs.Moment.{is_moment};
ghost use Rattle.point_cache.specs.Points.{IsRising};
ghost use Rattle.series_fetch.specs.Window.{IsWindow};

use crate::rings::{Ring, tell_fault};
use crate::told::tell_values;
use crate::words::points_in;
use case_lines::{Case, CaseFault, Told};
use fixed_num::Milli;
use ring_archive::{RingFault, RingView};
use ring_format::Layout;
use series_fetch::{Window, fetch, window_of};
use std::alloc::Global;

// The latest moment.
const MOST_NOW: u64 = 4_000_000_000;

/// `window ARCHIVES METHOD FACTOR NOW FROM UNTIL`: the archive and the buckets, as `ARCHIVE/FIRST..END`, or `empty`.
pub fn tell_window(told: &mut Told, case: &Case, layout: Layout) {
    match window_at(&layout, case, 3, told) {
        Window::Empty => told.push_str("empty"),
        Window::Range(archive, first, end) => write!(told, "{archive}/{first}..{end}"),
    }
}

// The window of the three words from a place on.
fn window_at(layout: &Layout, case: &Case, at: usize, told: &mut Told) -> Window
    ensures { IsWindow layout.now result }
{
    let now = case.number_at(at, told);
    let from = case.number_at(at.saturating_add(1), told);
    let until = case.number_at(at.saturating_add(2), told);
    if from > until || now > MOST_NOW {
        told.malformed();
        return Window::Empty;
    }
    window_of(layout, now, from, until)
}

/// Whether the times of all points are legal.
pub fn are_legal(points: &[(u32, Milli)]) -> bool
    ensures { IsTrue result → All (λ p. is_moment p.0 ≡ true) points.now }
{
    points
        .iter()
        .all(|point| 31_536_000 <= point.0 && point.0 <= 4_000_000_000)
}

/// `fetch ARCHIVES METHOD FACTOR STORED LAID POINTS NOW FROM UNTIL`: the values where these points are pending; and it says so where the
/// disk was read more than three times.
pub fn tell_fetch(alloc: Global, told: &mut Told, case: &Case, layout: Layout) {
    let ring = Ring::read(alloc, case, layout, case.len(), told);
    let window = window_at(&ring.layout, case, 6, told);
    let points = points_in(alloc, case.text_at(5, told), told);
    tell_shown(alloc, told, &ring, window, points.list());
}

fn tell_shown(alloc: Global, told: &mut Told, ring: &Ring, window: Window, pending: &[(u32, Milli)])
    requires window { IsWindow ring.now.layout window }
    requires rising { IsRising pending.now }
{
    if !are_legal(pending) {
        return told.malformed();
    }
    let Ok(patch) = ring.patch(alloc) else {
        return told.fail(CaseFault::NoMemory);
    };
    let Ok(mut disk) = ring.disk(alloc, "a") else {
        return told.fail(CaseFault::NoMemory);
    };
    let view = RingView::new("a", ring.layout, ring.version);
    let found = fetch(alloc, &view, &mut disk, &patch, window, pending);
    tell_fetched(told, &found, disk.calls().reads);
}

fn tell_fetched(told: &mut Told, found: &Result<Vec<Option<Milli>>, RingFault>, reads: u64) {
    match found {
        Ok(values) => tell_values(told, values),
        Err(fault) => tell_fault(told, *fault),
    }
    if reads > 3 {
        told.push_str("; more than 3 reads");
    }
}
