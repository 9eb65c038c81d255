//! The names of all metrics.
ghost use Rattle.std.specs.Prelude.{◌≡◌, List, IfOk, length};
ghost use Rattle.carbon_history.specs.declared.entry.Entry.{Entry};
ghost use Rattle.carbon_model.specs.Replay.{replay};
ghost use Rattle.shared_store.specs.Asking.{AreDesks, AreDesksOf};
ghost use Rattle.shared_store.specs.Known.{AreInOrder, KnowsAt, lists_of};
ghost use Rattle.shared_store.specs.Naming.{NamesUp, PutsNames, joined};

use crate::class_desk::ClassDesk;
use crate::named::Named;
use crate::store::Store;
use crate::store_pass::StorePass;
use metric_path::MetricPath;
use outside_io::Disk;
use std::alloc::{AllocError, Global};
use std::sync::{MutexGuard, Wait};

impl<N: Named> ClassDesk<N> {
    ghost use Rattle.std.specs.Prelude.{IfOk};
    ghost use Rattle.carbon_model.specs.Found.{Finds};
    ghost use Rattle.carbon_model.specs.Replay.{replay};
    ghost use Rattle.carbon_model.specs.RingFiles.{IsOfClass};
    ghost use Rattle.shared_store.specs.Known.{AreKnownAfter, IsInOrder, IsPieceOf};

    /// The paths of all metrics of the class of which points are pending or something is kept, in
    /// byte order.
    pub(crate) fn names(&self) -> Result<Vec<MetricPath>, AllocError>
        ensures { IfOk result (λ names. Finds (replay N.start self.now.list)
            (IsOfClass self.now.class) names.items) }
    {
        self.desk.names()
    }

    /// The same where some are known beforehand, in byte order: where these are all, nothing is copied.
    pub(crate) fn names_again(&self, names: Vec<MetricPath>) -> Result<Vec<MetricPath>, AllocError>
        requires known { AreKnownAfter N.start self.now.class self.now.list names.items }
        requires order { IsInOrder names.items }
        ensures { IfOk result (λ names. Finds (replay N.start self.now.list)
            (IsOfClass self.now.class) names.items) }
    {
        self.desk.names_again(names)
    }

    /// Paths of metrics of the class of which points are pending or something is kept, `most` at most: those from
    /// this one on, in byte order.
    pub(crate) fn names_from(
        &self,
        least: &MetricPath,
        most: usize,
    ) -> Result<Vec<MetricPath>, AllocError>
        ensures { IfOk result (λ names. IsPieceOf N.start self.now.class self.now.list least.now
            names.items) }
    {
        self.desk.names_from(least, most)
    }
}

// The names of each class, where the locks of all are held: those that are known beforehand, where they are all, and else
// copied.
fn names_of_each<N: Named>(
    alloc: Global,
    desks: &[MutexGuard<'_, ClassDesk<N>>],
    known: Vec<Vec<MetricPath>>,
) -> Result<Vec<Vec<MetricPath>>, AllocError>
    requires sixteen { length desks.now ≡ 16 }
    requires desks { AreDesks desks.now }
    requires lists { length known.items ≡ 16 }
    requires known { KnowsAt N.start desks.now (lists_of known.items) }
    requires order { AreInOrder known.items }
    ensures { IfOk result (λ names. (list : List Entry) → AreDesksOf list desks.now
        → NamesUp (replay N.start list) (joined (lists_of names.items))) }
{
    let mut known = known;
    let mut names = Vec::with_capacity(alloc, desks.len())?;
    for desk in desks {
        let here = known.remove(0);
        names.push(desk.names_again(here)?)?;
    }
    Ok(names)
}

// The names of all classes.
fn join(alloc: Global, lists: Vec<Vec<MetricPath>>) -> Result<Vec<MetricPath>, AllocError>
    ensures { IfOk result (λ names. names.items ≡ joined (lists_of lists.items)) }
{
    let mut names = Vec::new(alloc);
    for list in lists {
        let mut list = list;
        names.append(&mut list)?;
    }
    Ok(names)
}

// The same in byte order. No name is there twice, since it is of one class alone: dropping doubles
// drops none, and shows that the order is strict.
fn put_in_order(names: Vec<MetricPath>) -> Result<Vec<MetricPath>, AllocError>
    ensures { IfOk result (λ sorted. PutsNames names.items sorted.items) }
{
    let mut names = names;
    names.sort()?;
    names.dedup();
    Ok(names)
}

impl<D: Disk, N: Named> Store<D, N> {
    ghost use Rattle.std.specs.Prelude.{◌≡◌, IfErr, IfOk, length};
    ghost use Rattle.shared_store.specs.Known.{AreInOrder, KnowsBy, lists_of};
    ghost use Rattle.shared_store.specs.Naming.{Names, NamesPartly};
    ghost use Rattle.shared_store.specs.Passes.{HasRoom, LooksOn};

    /// The paths of all metrics of which points are pending or something is kept, in byte order, as
    /// they are at one moment of the history: that of the entry of this question, which has one
    /// try.
    #[tactic(auto, using(crate::proofs::AskPassLemmas::on_same))]
    pub fn names(
        &self,
        rt: &impl Wait,
        alloc: Global,
        pass: &mut StorePass<N>,
        now: u32,
    ) -> Result<Vec<MetricPath>, AllocError>
        requires room { HasRoom pass.old }
        ensures names { IfOk result
            (λ names. Names N.start N.passes now names.items pass.old pass.new) }
        ensures partly { IfErr result (λ e. NamesPartly N.start N.passes now pass.old pass.new) }
        ensures looks { LooksOn pass.old pass.new }
    {
        let known = match self.learn_names(rt, alloc, pass) {
            Ok(known) => known,
            Err(refused) => {
                self.order.lock(rt).see_all(pass);
                return Err(refused);
            }
        };
        self.names_by(rt, alloc, pass, known, now)
    }

    // The same where those of each class were learnt before.
    #[tactic(auto, using(crate::proofs::AskPassLemmas::on_same))]
    fn names_by(
        &self,
        rt: &impl Wait,
        alloc: Global,
        pass: &mut StorePass<N>,
        known: Vec<Vec<MetricPath>>,
        now: u32,
    ) -> Result<Vec<MetricPath>, AllocError>
        requires room { HasRoom pass.old }
        requires lists { length known.items ≡ 16 }
        requires known { KnowsBy N.start pass.old.looks (lists_of known.items) }
        requires order { AreInOrder known.items }
        ensures names { IfOk result
            (λ names. Names N.start N.passes now names.items pass.old pass.new) }
        ensures partly { IfErr result (λ e. NamesPartly N.start N.passes now pass.old pass.new) }
        ensures looks { LooksOn pass.old pass.new }
    {
        let mut desks = match self.lock_all(rt, alloc) {
            Ok(desks) => desks,
            Err(refused) => {
                self.order.lock(rt).see_all(pass);
                return Err(refused);
            }
        };
        self.enter_try(rt, &mut desks, pass, 1, now);
        let names = names_of_each(alloc, desks.as_slice(), known)?;
        drop(desks);
        put_in_order(join(alloc, names)?)
    }
}
