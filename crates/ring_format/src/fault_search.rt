//! The search for the first rule of lawful layouts that is broken.
ghost use Rattle.std.specs.Prelude.{◌≡◌, ◌^◌, ◌-◌, min, position};
ghost use Rattle.ring_format.specs.Layout.{layout_fault, neighbours, with_fewest_points, has_bad_step, is_out_of_order, does_not_divide, has_too_few_points, is_too_long, is_no_longer_kept};

use crate::archive::{Archive, point_count};
use crate::fault::LayoutFault;
use std::iter;

// The greatest step: 365 days of seconds.
const MOST_STEP: u32 = 31_536_000;

// The longest time that an archive may reach back.
const MOST_RETENTION: u64 = 4_000_000_000;

// The most points of all archives.
const MOST_POINTS: u64 = 4_000_000;

// The greatest factor, in millionths.
const MOST_FACTOR: u32 = 1_000_000;

/// The first fault of a layout, with `None` for a lawful one.
#[tactic(auto, unfolding(crate::specs::Layout::layout_fault), using(crate::proofs::FewArchives::few_archives))]
pub(crate) fn fault_of(archives: &[Archive], factor: u32) -> Option<LayoutFault>
    ensures { result ≡ layout_fault archives.now factor }
{
    if archives.is_empty() {
        return Some(LayoutFault::NoArchive);
    }
    if let Some(place) = bad_step(archives) {
        return Some(LayoutFault::BadStep(number_of(place)));
    }
    if let Some(place) = step_out_of_order(archives) {
        return Some(LayoutFault::StepOrder(number_of(place)));
    }
    if let Some(place) = step_that_does_not_divide(archives) {
        return Some(LayoutFault::StepDivides(number_of(place)));
    }
    if let Some(place) = too_few_points(archives) {
        return Some(LayoutFault::TooFewPoints(number_of(place)));
    }
    if let Some(place) = too_long(archives) {
        return Some(LayoutFault::TooLong(number_of(place)));
    }
    if let Some(place) = retention_out_of_order(archives) {
        return Some(LayoutFault::Retention(number_of(place)));
    }
    if point_count(archives) > MOST_POINTS {
        return Some(LayoutFault::TooManyPoints);
    }
    if factor > MOST_FACTOR {
        return Some(LayoutFault::BadFactor);
    }
    None
}

// The number by which a fault names the archive at this place.
fn number_of(place: usize) -> u32
    ensures { result ≡ min place (2 ^ 32 - 1) }
{
    place.min(u32::MAX as usize) as u32
}

// The first archive whose step is out of range.
fn bad_step(archives: &[Archive]) -> Option<usize>
    ensures { result ≡ position has_bad_step archives.now }
{
    archives
        .iter()
        .position(|archive| archive.step < 1 || archive.step > MOST_STEP)
}

// The first archive whose step is not below the next.
fn step_out_of_order(archives: &[Archive]) -> Option<usize>
    ensures { result ≡ position is_out_of_order (neighbours archives.now) }
{
    archives
        .iter()
        .zip(archives.iter().skip(1))
        .position(|(archive, next)| archive.step >= next.step)
}

// The first archive whose step does not divide the next.
fn step_that_does_not_divide(archives: &[Archive]) -> Option<usize>
    ensures { result ≡ position does_not_divide (neighbours archives.now) }
{
    archives
        .iter()
        .zip(archives.iter().skip(1))
        .position(|(archive, next)| !next.step.is_multiple_of(archive.step))
}

// The first archive with no points, or fewer than cover the next step.
fn too_few_points(archives: &[Archive]) -> Option<usize>
    ensures { result ≡ position has_too_few_points (with_fewest_points archives.now) }
{
    archives
        .iter()
        .zip(
            archives
                .iter()
                .zip(archives.iter().skip(1))
                .map(|(archive, next)| next.step.checked_div(archive.step).unwrap_or(0))
                .chain(iter::once(1)),
        )
        .position(|(archive, fewest)| archive.points < 1 || archive.points < fewest)
}

// The first archive that reaches back too far.
fn too_long(archives: &[Archive]) -> Option<usize>
    ensures { result ≡ position is_too_long archives.now }
{
    archives
        .iter()
        .position(|archive| archive.retention() > MOST_RETENTION)
}

// The first archive that reaches back no less than the next.
fn retention_out_of_order(archives: &[Archive]) -> Option<usize>
    ensures { result ≡ position is_no_longer_kept (neighbours archives.now) }
{
    archives
        .iter()
        .zip(archives.iter().skip(1))
        .position(|(archive, next)| archive.retention() >= next.retention())
}
