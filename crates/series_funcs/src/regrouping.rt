//! The functions that combine series by groups.
ghost use Rattle.std.specs.Prelude.{◌≡◌, ◌≢◌, ◌<◌, ◌++◌, [], ◌∷◌, ℕ, List, All, IfErr, IfOk, None, Some, Ok, Err, OnOk, length, option_map};
ghost use Rattle.std.specs.List.{AllZip};
ghost use Rattle.series_set.specs.declared.grid.EvalFault.TheVariants.{NoMemory, StepTooWide};
ghost use Rattle.series_set.specs.Series.{SeriesValue};
ghost use Rattle.series_set.specs.CommonGrid.{first_wide};
ghost use Rattle.series_funcs.specs.Combined.{AreCombinable, IsSoonAfter};
ghost use Rattle.series_funcs.specs.Each.{each_of};
ghost use Rattle.series_funcs.specs.Regrouped.{combine_of, combined_group, combined_groups, group_text, groups_by, members, regroup};

use crate::combining::combined_series;
use crate::group_name::GroupName;
use crate::kinds::{Combine, Regroup};
use crate::node_texts::{node_text, text_without};
use crate::work;
use indexmap::IndexMap;
use series_set::{Allowance, EvalFault, Series, SeriesSet, common_step};
use std::alloc::{AllocError, Global};

/// The series in groups, in order of first appearance, each combined to one on its own common grid: see [`Regroup`]. The name and the
/// path of each are the text by which its series are grouped. No series give none. They may be combined again, and end less than
/// 31,536,000 seconds after all of these series. The work grows with the series and what it is to combine them.
///
/// Errors: `StepTooWide` where the steps of a group have no common multiple up to the widest step, with that of the first such group;
/// else that of the first group that has no common grid; and want of memory, as where there is no room for the values of the groups or too much
/// to be done.
#[tactic(auto, unfolding(crate::specs::Regrouped::regroup))]
pub fn regroup(
    alloc: Global,
    kind: &Regroup,
    set: &SeriesSet,
    room: &mut Allowance,
) -> Result<SeriesSet, EvalFault>
    requires { AreCombinable set.now }
    ensures ok { IfOk result (λ regrouped. regroup kind.now set.now ≡ Ok regrouped) }
    ensures err { IfErr result (λ fault.
        fault ≢ NoMemory → regroup kind.now set.now ≡ Err fault) }
    ensures bounds { IfOk result (All (IsSoonAfter set.now)) }
{
    // The groups have copies of the series.
    room.take(set.size())?;
    room.spend(work_of(kind, set))?;
    let groups = groups_of(alloc, kind, set.as_slice())?;
    combine_groups(alloc, combine_of(kind), &groups, room)
}

// How much it is to find the group of each series, and to copy it there.
fn work_of(kind: &Regroup, set: &SeriesSet) -> u64 {
    let numbers = match kind {
        Regroup::GroupByNode { .. } => 1,
        Regroup::SumSeriesWithWildcards { nodes } => nodes.len() as u64,
        Regroup::AverageSeriesWithWildcards { nodes } => nodes.len() as u64,
    };
    let mut all: u64 = 0;
    for series in set.as_slice() {
        let nodes = (series.path().len() as u64).saturating_mul(numbers.saturating_add(1));
        all = all
            .saturating_add(nodes)
            .saturating_add(work::of_copies(series.values().len() as u64));
    }
    all
}

// The series of each group, by its text.
fn groups_of(
    alloc: Global,
    kind: &Regroup,
    set: &[Series],
) -> Result<IndexMap<GroupName, SeriesSet>, AllocError>
    ensures { IfOk result (λ groups.
        groups.entries ≡ groups_by (λ s. group_text kind.now s.path) set.now) }
{
    let mut groups = IndexMap::new(alloc);
    for series in set {
        let name = group_name(alloc, kind, series.path())?;
        add_to_group(alloc, &mut groups, name, series.copy()?)?;
    }
    Ok(groups)
}

// By which text a series of a path is grouped.
#[tactic(auto, unfolding(crate::specs::Regrouped::group_text))]
fn group_name(alloc: Global, kind: &Regroup, path: &str) -> Result<GroupName, AllocError>
    ensures { IfOk result (λ name. name ≡ group_text kind.now path.now) }
{
    let text = match kind {
        Regroup::GroupByNode { node, .. } => node_text(alloc, *node, path)?,
        Regroup::SumSeriesWithWildcards { nodes } => text_without(alloc, nodes, path)?,
        Regroup::AverageSeriesWithWildcards { nodes } => text_without(alloc, nodes, path)?,
    };
    Ok(GroupName::new(text))
}

// What the series of a group have together.
#[tactic(auto, unfolding(crate::specs::Regrouped::combine_of))]
fn combine_of(kind: &Regroup) -> Combine
    ensures { result ≡ combine_of kind.now }
{
    match kind {
        Regroup::GroupByNode { combine, .. } => *combine,
        Regroup::SumSeriesWithWildcards { .. } => Combine::Sum,
        Regroup::AverageSeriesWithWildcards { .. } => Combine::Average,
    }
}

// Groups of some series by a text become those of these and one more, which has this text.
fn add_to_group(
    alloc: Global,
    groups: &mut IndexMap<GroupName, SeriesSet>,
    name: GroupName,
    series: Series,
) -> Result<(), AllocError>
    ensures { OnOk result ((of : SeriesValue → List ℕ) (set : List SeriesValue) → of series ≡ name
        → groups.old.entries ≡ groups_by of set
        → groups.new.entries ≡ groups_by of (set ++ series ∷ [])) }
{
    if let Some(group) = groups.get_mut(&name) {
        group.push(series)?;
        return Ok(());
    }
    let mut group = SeriesSet::new(alloc);
    group.push(series)?;
    groups.insert(name, group)?;
    Ok(())
}

// Each group combined, once all have a common step.
fn combine_groups(
    alloc: Global,
    kind: Combine,
    groups: &IndexMap<GroupName, SeriesSet>,
    room: &mut Allowance,
) -> Result<SeriesSet, EvalFault>
    requires some { All (λ group. 0 < length group.1) groups.now.entries }
    requires series { All (λ group. AreCombinable group.1) groups.now.entries }
    ensures ok { IfOk result (λ together. combined_groups kind groups.now.entries ≡ Ok together) }
    ensures err { IfErr result (λ fault.
        fault ≢ NoMemory → combined_groups kind groups.now.entries ≡ Err fault) }
    ensures bounds { IfOk result (λ together.
        AllZip (λ group series. IsSoonAfter group.1 series) groups.now.entries together) }
{
    check_steps(groups)?;
    combine_each(alloc, kind, groups, room)
}

// Refuses groups of which one has no common step.
fn check_steps(groups: &IndexMap<GroupName, SeriesSet>) -> Result<(), EvalFault>
    requires { All (λ group. AreCombinable group.1) groups.now.entries }
    ensures ok { IfOk result (λ _. first_wide (members groups.now.entries) ≡ None) }
    ensures err { IfErr result (λ fault.
        option_map StepTooWide (first_wide (members groups.now.entries)) ≡ Some fault) }
{
    for place in 0..groups.len() {
        let Some((_, group)) = groups.get_index(place) else {
            unreachable!()
        };
        common_step(group.as_slice())?;
    }
    Ok(())
}

// Each group combined.
fn combine_each(
    alloc: Global,
    kind: Combine,
    groups: &IndexMap<GroupName, SeriesSet>,
    room: &mut Allowance,
) -> Result<SeriesSet, EvalFault>
    requires some { All (λ group. 0 < length group.1) groups.now.entries }
    requires series { All (λ group. AreCombinable group.1) groups.now.entries }
    ensures ok { IfOk result (λ together.
        each_of (combined_group kind) groups.now.entries ≡ Ok together) }
    ensures err { IfErr result (λ fault.
        fault ≢ NoMemory → each_of (combined_group kind) groups.now.entries ≡ Err fault) }
    ensures bounds { IfOk result (λ together.
        AllZip (λ group series. IsSoonAfter group.1 series) groups.now.entries together) }
{
    let mut together = Vec::with_capacity(alloc, groups.len())?;
    for place in 0..groups.len() {
        let Some((name, group)) = groups.get_index(place) else {
            unreachable!()
        };
        let text = name.as_str();
        together.push(combined_series(alloc, kind, group, text, text, room)?)?;
    }
    Ok(SeriesSet::from_vec(together))
}
