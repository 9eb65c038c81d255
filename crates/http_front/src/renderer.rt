//! What answers requests.
ghost use Rattle.std.specs.Prelude.{◌≡◌};
ghost use Rattle.http_wire.specs.Reading.{seen};
ghost use Rattle.http_wire.specs.Routes.{is_post};
ghost use Rattle.http_front.specs.Requests.{form_of};

use crate::listing::Listing;
use crate::outcome::{Outcome, found, refused};
use clock_watch::Watch;
use http_wire::{Endpoint, Request, query_of, route};
use outside_io::{Clock, Disk};
use render_plan::{QueryFault, RenderPlan};
use shared_store::{Named, Store, StorePass};
use std::alloc::{AllocError, Global};
use std::sync::Wait;

/// Answers requests of a store, at the moments that a clock tells.
#[derive(Drop)]
pub(crate) struct Renderer<'a, R: Wait, D: Disk, N: Named, C: Clock> {
    pub(crate) rt: &'a R,
    pub(crate) store: &'a Store<D, N>,
    pub(crate) clock: &'a C,
    pub(crate) alloc: Global,
    // What the answer to a question may take.
    pub(crate) answer_bytes: u64,
}

impl<'a, R: Wait, D: Disk, N: Named, C: Clock> Renderer<'a, R, D, N, C> {
    ghost use Rattle.std.specs.Prelude.{◌≡◌, ◌≤◌, IfOk, OnErr};
    ghost use Rattle.http_wire.specs.Reading.{seen};
    ghost use Rattle.render_plan.specs.Asked.{plan_seen};
    ghost use Rattle.shared_store.specs.Passes.{HasRoom};
    ghost use Rattle.http_front.specs.Origin.{SamePass, caller_of, origin_of};
    ghost use Rattle.http_front.specs.Requests.{ComesOf, ComesOfPlan, ComesOfQuery, ShortOf, ShortOfPlan, ShortOfQuery};

    /// What comes of a request. Where memory runs out it has no answer.
    pub(crate) fn answer(
        &self,
        pass: &mut StorePass<N>,
        watch: &mut Watch<C>,
        request: &Request<'_>,
    ) -> Result<Outcome, AllocError>
        requires room { HasRoom pass.old }
        ensures comes { IfOk result (λ outcome. ComesOf (origin_of C.Clock N.Named self.now.clock.now)
            (seen request.now) outcome (caller_of pass.old watch.old)
            (caller_of pass.new watch.new)) }
        ensures short { OnErr result (ShortOf (origin_of C.Clock N.Named self.now.clock.now)
            (seen request.now) (caller_of pass.old watch.old) (caller_of pass.new watch.new)) }
        ensures pass { SamePass pass.old pass.new }
    {
        let query = query_of(request.target);
        let form = form_of(request);
        match route(request.method, request.target) {
            Ok(Endpoint::Render) => self.render(pass, watch, query, form),
            Ok(Endpoint::Find) => self.list(pass, watch, Listing::Nodes, query, form),
            Ok(Endpoint::Expand) => self.list(pass, watch, Listing::Paths, query, form),
            Ok(Endpoint::Index) => self.index(pass, watch),
            Err(why) => Ok(Outcome::Refused(why)),
        }
    }

    // What comes of a query, at the moment that the clock tells now.
    #[tactic(auto, using(crate::proofs::AskLemmas::moment_fits))]
    fn render(
        &self,
        pass: &mut StorePass<N>,
        watch: &mut Watch<C>,
        query: &[u8],
        form: &[u8],
    ) -> Result<Outcome, AllocError>
        requires room { HasRoom pass.old }
        ensures comes { IfOk result
            (λ outcome. ComesOfQuery (origin_of C.Clock N.Named self.now.clock.now)
            query.now form.now outcome (caller_of pass.old watch.old)
            (caller_of pass.new watch.new)) }
        ensures short { OnErr result
            (ShortOfQuery (origin_of C.Clock N.Named self.now.clock.now)
            query.now form.now (caller_of pass.old watch.old) (caller_of pass.new watch.new)) }
        ensures pass { SamePass pass.old pass.new }
    {
        let now = watch.read(self.clock);
        match RenderPlan::read(self.alloc, query, form, u64::from(now)) {
            Ok(plan) => self.ask(pass, &plan, now),
            Err(QueryFault::NoMemory) => Err(AllocError),
            Err(fault) => refused(self.alloc, &render_answer::Refusal::Query(fault)),
        }
    }

    // What comes of a plan at this moment.
    #[tactic(auto, using(crate::proofs::AskLemmas::same_pass))]
    fn ask(
        &self,
        pass: &mut StorePass<N>,
        plan: &RenderPlan,
        now: u32,
    ) -> Result<Outcome, AllocError>
        requires room { HasRoom pass.old }
        requires now { now ≤ 4_000_000_000 }
        ensures comes { IfOk result
            (λ outcome. ComesOfPlan (origin_of C.Clock N.Named self.now.clock.now)
            now (plan_seen plan.now) outcome pass.old pass.new) }
        ensures short { OnErr result
            (ShortOfPlan (origin_of C.Clock N.Named self.now.clock.now)
            now (plan_seen plan.now) pass.old pass.new) }
        ensures pass { SamePass pass.old pass.new }
    {
        let rows = self.store.ask(self.rt, self.alloc, pass, plan.needs(), now);
        found(self.alloc, plan, rows, self.answer_bytes)
    }
}

// The form that the body of a POST is. The body of a GET says nothing.
fn form_of<'b>(request: &Request<'b>) -> &'b [u8]
    ensures { result.now ≡ form_of (seen request.now) }
{
    if is_post(request.method) {
        return request.body;
    }
    b""
}

#[tactic(auto, unfolding(http_wire::specs::Routes::is_post))]
fn is_post(method: &[u8]) -> bool
    ensures { result ≡ is_post method.now }
{
    method == b"POST".as_slice()
}
