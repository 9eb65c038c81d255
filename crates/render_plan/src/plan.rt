//! A query that was read.

use crate::answer::answer_of;
use crate::fault::QueryFault;
use crate::form::parameters_in;
use crate::needs::{Ends, needs_of};
use crate::settings::{Format, Settings, settled};
use crate::target::Target;
use crate::targets::targets_or_fault;
use render_need::Need;
use series_set::{Allowance, EvalFault, SeriesRows, SeriesSet};
use std::alloc::Global;
use std::marker::Model;

/// A query of the render API: which series it needs, what is made of them, and in which form.
#[derive(Drop)]
pub struct RenderPlan {
    targets: Vec<Target>,
    settings: Settings,
    needs: Vec<Need>,
}

impl Model for RenderPlan {
    ghost use Rattle.std.specs.Coded.{codes};
    ghost use Rattle.render_plan.specs.Asked.{Asked, plan_seen};
    ghost use Rattle.render_plan.specs.Ready.{IsReady};
    ghost use Rattle.render_plan.specs.contracts.target.Target as target;

    ghost Value = { Asked };

    ghost coded = { Prim.hlevel (codes, target.the_row.coded) };

    ghost view = { λ p. record { targets = p.targets.items; settings = p.settings } };

    ghost invariant = { λ p. IsReady
        (plan_seen (record { targets = p.targets.items; settings = p.settings })) p.needs.items };
}

impl RenderPlan {
    ghost use Rattle.std.specs.Prelude.{◌≡◌, ◌≢◌, ◌≤◌, All, IfErr, IfOk, Ok, Err};
    ghost use Rattle.render_plan.specs.Asked.{plan_seen};
    ghost use Rattle.render_plan.specs.Needed.{AreEnds, needs_of};
    ghost use Rattle.render_plan.specs.Bounds.{AreRows, latest_csv_end};
    ghost use Rattle.render_plan.specs.Planned.{read_plan};
    ghost use Rattle.render_plan.specs.Values.{Answers};
    ghost use Rattle.render_plan.specs.declared.settings.Format.TheVariants as format;
    ghost use Rattle.series_set.specs.Series.{end_of};
    ghost use Rattle.series_set.specs.declared.grid.EvalFault.TheVariants as eval;
    ghost use Rattle.render_plan.specs.declared.fault.QueryFault.TheVariants.{NoMemory};

    /// Reads a query at the moment `now`: the parameters of its query string, and then those of its body, as HTML forms are read. The parameters
    /// are `target`, once or more, `from` (a day before now where it is not given), `until` (now), `format` (`json`) and `maxDataPoints`; empty
    /// ones and others say nothing, and of one that is given again the last holds.
    ///
    /// # Errors
    ///
    /// The first fault that holds, in the order of [`QueryFault`].
    #[tactic(auto, unfolding(crate::specs::Planned::read_plan, crate::specs::Needed::needs_of))]
    pub fn read(
        alloc: Global,
        query: &[u8],
        body: &[u8],
        now: u64,
    ) -> Result<RenderPlan, QueryFault>
        ensures ok { IfOk result (λ plan. read_plan query.now body.now now ≡ Ok (plan_seen plan)) }
        ensures err { IfErr result (λ fault. fault ≢ NoMemory
            → read_plan query.now body.now now ≡ Err fault) }
    {
        let given = parameters_in(alloc, query, body)?;
        let targets = targets_or_fault(alloc, given.targets.as_slice())?;
        let settings = settled(&given, now)?;
        let ends = Ends {
            from: settings.from,
            until: settings.until,
        };
        let needs = needs_of(alloc, &targets, ends)?;
        Ok(RenderPlan {
            targets,
            settings,
            needs,
        })
    }

    /// The series that the query needs: one need for each path in its targets, in order. Inside calls that shift moments the ends are
    /// moved by the sum of the shifts, but not before the epoch or behind 4,000,000,000.
    #[tactic(auto, using(crate::proofs::NeedLemmas::needs_are_ends))]
    pub fn needs(&self) -> &[Need]
        ensures value { result.now ≡ needs_of (plan_seen self.now) }
        ensures ends { All AreEnds result.now }
    {
        self.needs.as_slice()
    }

    /// The series of the targets in order, made of those of the needs: one list for each need, in the order of the needs. A JSON answer with a
    /// number of values has no more of them a series. Lists may hold 10,000 series in all, with steps of at most 31,536,000 seconds, which end at
    /// 5,000,000,000 or before; the series of an answer as CSV then end at 253,402,207,200 or before, so that all their moments have dates.
    ///
    /// # Errors
    ///
    /// The first fault met, the arguments of a call before it and from the left, and the targets in order.
    pub fn evaluate(
        &self,
        alloc: Global,
        rows: SeriesRows,
        room: &mut Allowance,
    ) -> Result<SeriesSet, EvalFault>
        requires { AreRows rows }
        ensures ok { IfOk result (λ set. Answers (plan_seen self.now) rows (Ok set)) }
        ensures err { IfErr result (λ fault. fault ≢ eval.NoMemory
            → Answers (plan_seen self.now) rows (Err fault)) }
        ensures early { IfOk result (λ set. (plan_seen self.now).format ≡ format.Csv
            → All (λ s. end_of s ≤ latest_csv_end) set) }
    {
        answer_of(alloc, &self.targets, &self.settings, rows.into_vec(), room)
    }

    /// The form of the answer.
    pub fn format(&self) -> Format
        ensures { result ≡ (plan_seen self.now).format }
    {
        self.settings.format
    }
}
