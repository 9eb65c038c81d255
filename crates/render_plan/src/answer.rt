//! The series of an answer.
ghost use Rattle.std.specs.Prelude.{◌≡◌, ◌≢◌, ◌≤◌, ◌*◌, All, IfErr, IfOk, IfSome, Ok, Err, map};
ghost use Rattle.series_set.specs.Series.{end_of, latest_end};
ghost use Rattle.series_set.specs.Thinned.{thinned};
ghost use Rattle.series_set.specs.declared.grid.EvalFault.TheVariants.{NoMemory};
ghost use Rattle.target_parse.specs.Bytes.{most_depth};
ghost use Rattle.render_plan.specs.Bounds.{AreRows, latest_csv_end};
ghost use Rattle.render_plan.specs.Planned.{plan_of};
ghost use Rattle.render_plan.specs.Sound.{AreSound};
ghost use Rattle.render_plan.specs.Terms.{term_of, terms_of};
ghost use Rattle.render_plan.specs.declared.settings.Format.TheVariants.{Csv};
ghost use Rattle.render_plan.specs.Values.{Answers, most_of, thinned_all};

use crate::apply::concat;
use crate::needs::MOST_DEPTH;
use crate::settings::{Format, Settings};
use crate::target::Target;
use crate::value::{exchange, size_of, values_of};
use crate::work;
use series_set::{Allowance, EvalFault, SeriesSet, thin};
use std::alloc::{AllocError, Global};
use std::collections::VecDeque;

/// The series of targets in order, over a row of series for each of their paths. Their room stays taken, and what work is done.
#[tactic(auto, using(crate::proofs::ValueLemmas::thinnable))]
pub(crate) fn answer_of(
    alloc: Global,
    targets: &Vec<Target>,
    settings: &Settings,
    rows: Vec<SeriesSet>,
    room: &mut Allowance,
) -> Result<SeriesSet, EvalFault>
    requires sound { AreSound most_depth (terms_of targets.now.items) }
    requires some { IfSome settings.now.points (λ points. 1 ≤ points) }
    requires rows { AreRows rows.items }
    ensures ok { IfOk result (λ set.
        Answers (plan_of (map term_of targets.now.items) settings.now) rows.items (Ok set)) }
    ensures err { IfErr result (λ fault. fault ≢ NoMemory
        → Answers (plan_of (map term_of targets.now.items) settings.now) rows.items (Err fault)) }
    ensures early { IfOk result (λ set. settings.now.format ≡ Csv
        → All (λ s. end_of s ≤ latest_csv_end) set) }
{
    room.take(size_of(&rows))?;
    let mut left = VecDeque::from_vec(rows);
    let sets = values_of(alloc, targets, &mut left, MOST_DEPTH, room)?;
    let all = concat(alloc, sets)?;
    let before = all.size();
    let most = most_of(settings.format, settings.points);
    room.spend(work::of_thinning(most, &all))?;
    let answer = thinned_all(alloc, most, all)?;
    exchange(room, before, &answer)?;
    Ok(answer)
}

// How many values a series of the answer may have, where there is such a number.
fn most_of(format: Format, points: Option<u64>) -> Option<u64>
    requires { IfSome points (λ points. 1 ≤ points) }
    ensures value { result ≡ most_of format points }
    ensures some { IfSome result (λ most. 1 ≤ most) }
{
    match format {
        Format::Json => return points,
        Format::Raw => return None,
        Format::Csv => return None,
    }
}

// The series, each with at most so many values.
fn thinned_all(alloc: Global, most: Option<u64>, set: SeriesSet) -> Result<SeriesSet, AllocError>
    requires some { IfSome most (λ most. 1 ≤ most) }
    requires early { All (λ s. 2 * end_of s ≤ latest_end) set }
    ensures { IfOk result (λ answer. answer ≡ thinned_all most set) }
{
    let Some(most) = most else {
        return Ok(set);
    };
    let answer = thinned_each(alloc, most, set)?;
    Ok(answer)
}

fn thinned_each(alloc: Global, most: u64, set: SeriesSet) -> Result<SeriesSet, AllocError>
    requires some { 1 ≤ most }
    requires early { All (λ s. 2 * end_of s ≤ latest_end) set }
    ensures { IfOk result (λ answer. answer ≡ map (thinned most) set) }
{
    let mut answer = Vec::with_capacity(alloc, set.len())?;
    for series in set.into_vec() {
        answer.push(thin(alloc, series, most)?)?;
    }
    Ok(SeriesSet::from_vec(answer))
}
