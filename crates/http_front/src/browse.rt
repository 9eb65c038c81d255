//! What comes of requests for names.

use crate::listing::{Listing, list_names};
use crate::outcome::Outcome;
use crate::query_fault::refused_queries;
use crate::renderer::Renderer;
use clock_watch::Watch;
use find_api::{FindFault, index_text, read_queries};
use http_wire::MediaType;
use metric_path::MetricPath;
use outside_io::{Clock, Disk};
use path_glob::Glob;
use render_answer::Text;
use shared_store::{Named, StorePass};
use std::alloc::AllocError;
use std::sync::Wait;

impl<'a, R: Wait, D: Disk, N: Named, C: Clock> Renderer<'a, R, D, N, C> {
    ghost use Rattle.std.specs.Prelude.{◌≡◌, ◌<◌, IfOk, OnErr, length};
    ghost use Rattle.shared_store.specs.Passes.{HasRoom};
    ghost use Rattle.http_front.specs.Browses.{AsksNames, ComesOfQueries, GivesUpNames, HasNames, IsIndexText, ShortOfQueries, lists};
    ghost use Rattle.http_front.specs.Origin.{SamePass, caller_of, origin_of};

    /// What comes of queries for names, which are read before the names are asked for.
    pub(crate) fn list(
        &self,
        pass: &mut StorePass<N>,
        watch: &mut Watch<C>,
        listing: Listing,
        query: &[u8],
        form: &[u8],
    ) -> Result<Outcome, AllocError>
        requires room { HasRoom pass.old }
        ensures comes { IfOk result
            (λ outcome. ComesOfQueries (origin_of C.Clock N.Named self.now.clock.now)
            (lists listing) query.now form.now outcome (caller_of pass.old watch.old)
            (caller_of pass.new watch.new)) }
        ensures short { OnErr result
            (ShortOfQueries (origin_of C.Clock N.Named self.now.clock.now)
            query.now form.now (caller_of pass.old watch.old) (caller_of pass.new watch.new)) }
        ensures pass { SamePass pass.old pass.new }
    {
        match read_queries(self.alloc, query, form) {
            Ok(globs) => self.list_found(pass, watch, listing, globs.as_slice()),
            Err(FindFault::NoMemory) => Err(AllocError),
            Err(why) => refused_queries(self.alloc, &why),
        }
    }

    // What comes of these globs.
    fn list_found(
        &self,
        pass: &mut StorePass<N>,
        watch: &mut Watch<C>,
        listing: Listing,
        globs: &[Glob],
    ) -> Result<Outcome, AllocError>
        requires room { HasRoom pass.old }
        requires some { 0 < length globs.now }
        ensures comes { IfOk result
            (λ outcome. HasNames (origin_of C.Clock N.Named self.now.clock.now)
            (lists listing globs.now) outcome (caller_of pass.old watch.old)
            (caller_of pass.new watch.new)) }
        ensures short { OnErr result
            (GivesUpNames (origin_of C.Clock N.Named self.now.clock.now)
            (caller_of pass.old watch.old) (caller_of pass.new watch.new)) }
        ensures pass { SamePass pass.old pass.new }
    {
        let names = self.names(pass, watch)?;
        let text = list_names(self.alloc, listing, globs, names.as_slice())?;
        Ok(Outcome::Found(MediaType::Json, Text::new(text)))
    }

    /// What comes of a request for all names.
    pub(crate) fn index(
        &self,
        pass: &mut StorePass<N>,
        watch: &mut Watch<C>,
    ) -> Result<Outcome, AllocError>
        requires room { HasRoom pass.old }
        ensures comes { IfOk result
            (λ outcome. HasNames (origin_of C.Clock N.Named self.now.clock.now) IsIndexText
            outcome (caller_of pass.old watch.old) (caller_of pass.new watch.new)) }
        ensures short { OnErr result
            (GivesUpNames (origin_of C.Clock N.Named self.now.clock.now)
            (caller_of pass.old watch.old) (caller_of pass.new watch.new)) }
        ensures pass { SamePass pass.old pass.new }
    {
        let names = self.names(pass, watch)?;
        let text = index_text(self.alloc, names.as_slice())?;
        Ok(Outcome::Found(MediaType::Json, Text::new(text)))
    }

    // The names of all metrics, at the moment that the clock tells now.
    fn names(
        &self,
        pass: &mut StorePass<N>,
        watch: &mut Watch<C>,
    ) -> Result<Vec<MetricPath>, AllocError>
        requires room { HasRoom pass.old }
        ensures asks { IfOk result
            (λ names. AsksNames (origin_of C.Clock N.Named self.now.clock.now) names.items
            (caller_of pass.old watch.old) (caller_of pass.new watch.new)) }
        ensures short { OnErr result
            (GivesUpNames (origin_of C.Clock N.Named self.now.clock.now)
            (caller_of pass.old watch.old) (caller_of pass.new watch.new)) }
        ensures pass { SamePass pass.old pass.new }
    {
        let now = watch.read(self.clock);
        self.store.names(self.rt, self.alloc, pass, now)
    }
}
