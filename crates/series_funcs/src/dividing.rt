//! Series over series.
ghost use Rattle.std.specs.Prelude.{◌≡◌, ◌≢◌, ◌≤◌, [], ◌∷◌, ◌++◌, All, IfErr, IfOk, Ok, Err, map, option_map, string_bytes, None, Some};
ghost use Rattle.series_set.specs.declared.grid.EvalFault.TheVariants.{NoMemory, StepTooWide};
ghost use Rattle.series_set.specs.Series.{latest_end};
ghost use Rattle.series_set.specs.CommonGrid.{EndsSoonAfter, IsGrid, common_grid, first_wide, value_count};
ghost use Rattle.series_set.specs.OnGrid.{on_grid};
ghost use Rattle.series_funcs.specs.Combined.{AreCombinable, IsSoonAfter};
ghost use Rattle.series_funcs.specs.Divided.{divide, divided, divided_each, divided_on, pairs_with, quotient_name, missing_tail, ratio_of, ratios, undivided};
ghost use Rattle.series_funcs.specs.Each.{each_of};

use crate::combining::value_at;
use crate::naming::call_text;
use crate::quotients::ratio;
use crate::work;
use fixed_num::Milli;
use series_set::{
    Allowance, EvalFault, Grid, Reading, Series, SeriesSet, Size, check_pair, common_grid, on_grid,
};
use std::alloc::{AllocError, Global};

/// Each dividend over the one divisor, on the common grid of the two: the exact quotient in thousandths, rounded down, and missing where
/// a value is missing, the divisor's is 0, or the quotient does not fit. It is named `divideSeries(NAME,NAME2)` and has the dividend's path.
///
/// Where there is no divisor, or more than one, each dividend has no known value and is named `divideSeries(NAME,MISSING)`, or
/// `divideSeries(NAME)`.
///
/// The quotients may be combined again, and end less than 31,536,000 seconds after all of these series.
///
/// Errors: `StepTooWide` where a dividend's step and the divisor's have no common multiple up to the widest step, with that of the first
/// such; else that of the first dividend that has no common grid with the divisor; and want of memory, as where there is no room for the
/// quotients or too much to be done.
#[tactic(auto, unfolding(crate::specs::Divided::divide))]
pub fn divide(
    alloc: Global,
    dividends: &SeriesSet,
    divisors: &SeriesSet,
    room: &mut Allowance,
) -> Result<SeriesSet, EvalFault>
    requires dividends { AreCombinable dividends.now }
    requires divisors { AreCombinable divisors.now }
    ensures ok { IfOk result (λ quotients. divide dividends.now divisors.now ≡ Ok quotients) }
    ensures err { IfErr result (λ fault.
        fault ≢ NoMemory → divide dividends.now divisors.now ≡ Err fault) }
    ensures bounds { IfOk result (All (IsSoonAfter (dividends.now ++ divisors.now))) }
{
    let dividends = dividends.as_slice();
    match divisors.as_slice() {
        [] => Ok(undivided_all(alloc, dividends, missing_tail(), room)?),
        [divisor] => divide_by(alloc, dividends, divisor, room),
        _ => Ok(undivided_all(alloc, dividends, "", room)?),
    }
}

#[tactic(auto, unfolding(crate::specs::Divided::missing_tail))]
fn missing_tail() -> &'static str
    ensures { result.now ≡ missing_tail }
{
    ",MISSING"
}

// Each series over one, once each pair has a common step.
fn divide_by(
    alloc: Global,
    dividends: &[Series],
    divisor: &Series,
    room: &mut Allowance,
) -> Result<SeriesSet, EvalFault>
    requires dividends { AreCombinable dividends.now }
    requires divisor { AreCombinable (divisor.now ∷ []) }
    ensures ok { IfOk result (λ quotients. divided_each divisor.now dividends.now ≡ Ok quotients) }
    ensures err { IfErr result (λ fault.
        fault ≢ NoMemory → divided_each divisor.now dividends.now ≡ Err fault) }
    ensures bounds { IfOk result (All (IsSoonAfter (dividends.now ++ divisor.now ∷ []))) }
{
    check_pairs(dividends, divisor)?;
    divide_each(alloc, dividends, divisor, room)
}

// Refuses series of which one has no common step with another series.
fn check_pairs(dividends: &[Series], divisor: &Series) -> Result<(), EvalFault>
    requires dividends { AreCombinable dividends.now }
    requires divisor { AreCombinable (divisor.now ∷ []) }
    ensures ok { IfOk result (λ _. first_wide (pairs_with divisor.now dividends.now) ≡ None) }
    ensures err { IfErr result (λ fault.
        option_map StepTooWide (first_wide (pairs_with divisor.now dividends.now)) ≡ Some fault) }
{
    for dividend in dividends {
        check_pair(dividend, divisor)?;
    }
    Ok(())
}

// Each series over one.
fn divide_each(
    alloc: Global,
    dividends: &[Series],
    divisor: &Series,
    room: &mut Allowance,
) -> Result<SeriesSet, EvalFault>
    requires dividends { AreCombinable dividends.now }
    requires divisor { AreCombinable (divisor.now ∷ []) }
    ensures ok { IfOk result (λ quotients.
        each_of (divided divisor.now) dividends.now ≡ Ok quotients) }
    ensures err { IfErr result (λ fault.
        fault ≢ NoMemory → each_of (divided divisor.now) dividends.now ≡ Err fault) }
    ensures bounds { IfOk result (All (IsSoonAfter (dividends.now ++ divisor.now ∷ []))) }
{
    let mut quotients = Vec::with_capacity(alloc, dividends.len())?;
    for dividend in dividends {
        quotients.push(divided(alloc, dividend, divisor, room)?)?;
    }
    Ok(SeriesSet::from_vec(quotients))
}

// One series over another, on the common grid of the two. Room and work are taken for it.
#[tactic(auto, unfolding(crate::specs::Divided::divided))]
fn divided(
    alloc: Global,
    dividend: &Series,
    divisor: &Series,
    room: &mut Allowance,
) -> Result<Series, EvalFault>
    requires { AreCombinable (dividend.now ∷ divisor.now ∷ []) }
    ensures ok { IfOk result (λ quotient. divided divisor.now dividend.now ≡ Ok quotient) }
    ensures err { IfErr result (λ fault.
        fault ≢ NoMemory → divided divisor.now dividend.now ≡ Err fault) }
    ensures bounds { IfOk result (IsSoonAfter (dividend.now ∷ divisor.now ∷ [])) }
{
    // The two are copied to find their grid.
    room.bear(dividend.size().plus(divisor.size()))?;
    let values = (dividend.values().len() as u64).saturating_add(divisor.values().len() as u64);
    room.spend(work::of_copies(values))?;
    let grid = pair_grid(alloc, dividend, divisor)?;
    room.spend(work::of_quotients(values, grid.value_count()))?;
    let quotient = divided_on(alloc, dividend, divisor, &grid, room)?;
    room.take(quotient.size())?;
    Ok(quotient)
}

// The common grid of two series.
fn pair_grid(alloc: Global, dividend: &Series, divisor: &Series) -> Result<Grid, EvalFault>
    requires { AreCombinable (dividend.now ∷ divisor.now ∷ []) }
    ensures ok { IfOk result (λ grid. common_grid (dividend.now ∷ divisor.now ∷ []) ≡ Ok grid) }
    ensures err { IfErr result (λ fault.
        fault ≢ NoMemory → common_grid (dividend.now ∷ divisor.now ∷ []) ≡ Err fault) }
    ensures grid { IfOk result IsGrid }
    ensures late { IfOk result (λ grid.
        EndsSoonAfter (dividend.now ∷ divisor.now ∷ []) grid.end) }
{
    let mut pair = SeriesSet::new(alloc);
    pair.push(dividend.copy()?)?;
    pair.push(divisor.copy()?)?;
    let grid = common_grid(&pair)?;
    Ok(grid)
}

// One series over another, both on a grid.
#[tactic(auto, unfolding(crate::specs::Divided::divided_on))]
fn divided_on(
    alloc: Global,
    dividend: &Series,
    divisor: &Series,
    grid: &Grid,
    room: &Allowance,
) -> Result<Series, AllocError>
    requires grid { IsGrid grid.now }
    requires early { grid.now.end ≤ latest_end }
    ensures { IfOk result (λ quotient.
        quotient ≡ divided_on dividend.now divisor.now grid.now) }
{
    let mut tail = String::from_str(alloc, ",")?;
    tail.push_str(divisor.name())?;
    let name = quotient_name(alloc, dividend.name(), tail.as_str())?;
    let path = String::from_str(alloc, dividend.path())?;
    let values = ratios_on(alloc, dividend, divisor, grid, room)?;
    Ok(Series::from_legal(name, path, grid.start, grid.step, values))
}

#[tactic(auto, unfolding(crate::specs::Divided::quotient_name))]
fn quotient_name(alloc: Global, name: &str, tail: &str) -> Result<String, AllocError>
    ensures { IfOk result (λ text. string_bytes text ≡ quotient_name name.now tail.now) }
{
    call_text(alloc, "divideSeries", name, tail)
}

// The values of a series over those of another, on a grid.
fn ratios_on(
    alloc: Global,
    dividend: &Series,
    divisor: &Series,
    grid: &Grid,
    room: &Allowance,
) -> Result<Vec<Reading>, AllocError>
    requires grid { IsGrid grid.now }
    requires early { grid.now.end ≤ latest_end }
    ensures { IfOk result (λ values. values.items
        ≡ ratios (on_grid dividend.now grid.now) (on_grid divisor.now grid.now) (value_count grid.now)) }
{
    let count = grid.value_count() as usize;
    let size = Size::of_values(count as u64);
    // Where both have the grid nothing is copied.
    if dividend.has_grid(*grid) && divisor.has_grid(*grid) {
        room.bear(size)?;
        return ratios(alloc, dividend, divisor, count);
    }
    room.bear(size.plus(size).plus(size))?;
    let dividend = on_grid(alloc, dividend, grid)?;
    let divisor = on_grid(alloc, divisor, grid)?;
    ratios(alloc, &dividend, &divisor, count)
}

// The values of a series over those of another, at so many places.
#[tactic(auto, unfolding(crate::specs::Divided::ratios))]
fn ratios(
    alloc: Global,
    dividend: &Series,
    divisor: &Series,
    count: usize,
) -> Result<Vec<Reading>, AllocError>
    ensures { IfOk result (λ values. values.items ≡ ratios dividend.now divisor.now count) }
{
    let mut values = Vec::with_capacity(alloc, count)?;
    for place in 0..count {
        let value = ratio_of(value_at(dividend, place), value_at(divisor, place));
        values.push(Reading::of(value))?;
    }
    Ok(values)
}

#[tactic(auto, unfolding(crate::specs::Divided::ratio_of))]
fn ratio_of(dividend: Option<Milli>, divisor: Option<Milli>) -> Option<Milli>
    ensures { result ≡ ratio_of dividend divisor }
{
    ratio(dividend?, divisor?)
}

// The series with no value known. Room is taken for them.
fn undivided_all(
    alloc: Global,
    dividends: &[Series],
    tail: &str,
    room: &mut Allowance,
) -> Result<SeriesSet, AllocError>
    ensures { IfOk result (λ quotients. quotients ≡ map (undivided tail.now) dividends.now) }
{
    let mut quotients = Vec::with_capacity(alloc, dividends.len())?;
    for dividend in dividends {
        quotients.push(undivided(alloc, dividend, tail, room)?)?;
    }
    Ok(SeriesSet::from_vec(quotients))
}

fn undivided(
    alloc: Global,
    dividend: &Series,
    tail: &str,
    room: &mut Allowance,
) -> Result<Series, AllocError>
    ensures { IfOk result (λ quotient. quotient ≡ undivided tail.now dividend.now) }
{
    let name = quotient_name(alloc, dividend.name(), tail)?;
    room.spend(work::of_copies(dividend.values().len() as u64))?;
    room.take(dividend.size())?;
    room.take_name(name.len(), dividend.name().len())?;
    let path = String::from_str(alloc, dividend.path())?;
    let values = all_missing(alloc, dividend.values())?;
    Ok(Series::from_legal(name, path, dividend.start(), dividend.step(), values))
}

// As many values, all missing.
fn all_missing(alloc: Global, values: &[Reading]) -> Result<Vec<Reading>, AllocError>
    ensures { IfOk result (λ missing. missing.items ≡ map (λ _. None) values.now) }
{
    let mut missing = Vec::with_capacity(alloc, values.len())?;
    for _value in values {
        missing.push(Reading::missing())?;
    }
    Ok(missing)
}
