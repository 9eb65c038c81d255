//! The sets of states that were active over nodes, and where each byte leads from them.

use crate::bits::Bits;
use crate::positions::Positions;
use crate::tables::Tables;
use std::alloc::{AllocError, Global};
use std::collections::HashMap;
use std::marker::Model;

// The ways from a set: over each byte, and behind these one where rows begin.
const WAYS: usize = 257;

// The last of them.
const BEGIN: usize = 256;

// How many sets are kept for each word that one takes: under two mebibytes for the longest glob.
const SETS_A_WORD: usize = 16;

// How many ways are learned for each of these words. That work is not counted.
const LESSONS_A_WORD: usize = 128;

// A set of active states.
#[derive(Drop)]
struct KnownSet {
    states: Bits,
    // whether one of them is the end of its row
    is_end: bool,
    // the place of the set to which each way leads, and 0 where that is not known
    next: [u16; WAYS],
}

impl KnownSet {
    ghost use Rattle.std.specs.Prelude.{◌≡◌, ◌↔◌, IsTrue, length, replicate};
    ghost use Rattle.path_glob.specs.Bits.{Meet};
    ghost use Rattle.path_glob.specs.Tables.{AreSized};

    // The set of these states.
    fn new(tables: &Tables, states: Bits) -> KnownSet
        requires { AreSized tables.now (length states) }
        ensures states { result.states ≡ states }
        ensures end { IsTrue result.is_end ↔ Meet states tables.now.ends }
        ensures next { result.next ≡ replicate 257 0 }
    {
        let is_end = tables.has_end(&states);
        KnownSet {
            states,
            is_end,
            next: [0; WAYS],
        }
    }
}

/// Sets of states that were active over nodes, the first of which has none. Where a byte leads from
/// one of them is learned once, and then looked up. They are bounded, and so is what is learned.
/// Contracts see the sets.
#[derive(Drop)]
pub(crate) struct KnownSets {
    alloc: Global,
    sets: Vec<KnownSet>,
    // where a set may stand, by the digest of its states
    by_digest: HashMap<u64, usize>,
    // how many sets there may be
    most: usize,
    // how many ways may still be learned
    lessons: usize,
}

impl Model for KnownSets {
    ghost use Rattle.std.specs.Prelude.{List};
    ghost use Rattle.path_glob.specs.declared.known_sets.KnownSet.{KnownSet};

    ghost Value = { List KnownSet };

    ghost view = { λ k. k.sets.items };
}

impl KnownSets {
    ghost use Rattle.std.specs.Prelude.{◌≡◌, ◌≢◌, ◌<◌, ◌≤◌, ℕ, IfOk, IfSome, List, false, length};
    ghost use Rattle.path_glob.specs.Known.{AreKnown, Begins, KeepsSets, LeadsTo, StandAt};
    ghost use Rattle.path_glob.specs.Known.{is_end_at, states_at};
    ghost use Rattle.path_glob.specs.Positions.{Leads, held};
    ghost use Rattle.path_glob.specs.States.{First, LeadOut, mark_at};
    ghost use Rattle.path_glob.specs.Tables.{AreSized, AreTables, IsLed};
    ghost use Rattle.path_glob.specs.declared.states.State.{State};

    /// The first set of states with these tables.
    pub(crate) fn new(alloc: Global, tables: &Tables) -> Result<KnownSets, AllocError>
        requires { AreSized tables.now (length tables.now.firsts) }
        ensures { IfOk result (λ known. AreKnown tables.now known) }
    {
        let words = tables.words();
        let mut sets = Vec::new(alloc);
        sets.push(KnownSet::new(tables, Bits::none(alloc, words)?))?;
        Ok(KnownSets {
            alloc,
            sets,
            by_digest: HashMap::new(alloc),
            most: words.saturating_mul(SETS_A_WORD),
            lessons: words.saturating_mul(LESSONS_A_WORD),
        })
    }

    /// The positions in a node to which these lead over bytes that lead from the first state of a
    /// row to its end. The active states are kept where the caller says, if they are no known set.
    pub(crate) fn after(
        &mut self,
        tables: &Tables,
        active: &mut Bits,
        node: &[u8],
        start: Positions,
    ) -> Positions
        requires known { AreKnown tables.now self.old }
        requires sized { AreSized tables.now (length active.old) }
        requires short { length node.now ≤ 240 }
        ensures known { AreKnown tables.now self.new }
        ensures room { length active.new ≡ length active.old }
        ensures leads { (states : List State) → AreTables states tables.now
            → Leads (LeadOut (mark_at First states) states) node.now (held start) (held result) }
    {
        match self.walk(tables, node, start) {
            Some(reached) => return reached,
            None => return tables.after(active, node, start),
        }
    }

    // The same, where the ways are known or learned now.
    fn walk(&mut self, tables: &Tables, node: &[u8], start: Positions) -> Option<Positions>
        requires known { AreKnown tables.now self.old }
        requires short { length node.now ≤ 240 }
        ensures known { AreKnown tables.now self.new }
        ensures leads { IfSome result (λ reached. (states : List State)
            → AreTables states tables.now
            → Leads (LeadOut (mark_at First states) states) node.now (held start) (held reached)) }
    {
        let mut at = 0;
        let mut reached = Positions::none();
        for i in 0..node.len() {
            at = self.begin(tables, at, start.has(i))?;
            reached = self.reach(at, reached, i);
            at = self.lead(tables, at, usize::from(node[i]))?;
        }
        at = self.begin(tables, at, start.has(node.len()))?;
        Some(self.reach(at, reached, node.len()))
    }

    // The place of the set, if rows begin where this one is active or not.
    fn begin(&mut self, tables: &Tables, at: usize, starts: bool) -> Option<usize>
        requires known { AreKnown tables.now self.old }
        requires within { at < length self.old }
        ensures known { AreKnown tables.now self.new }
        ensures begun { IfSome result
            (λ next. Begins tables.now starts (states_at self.old at) self.new next) }
    {
        if starts {
            return self.lead(tables, at, BEGIN);
        }
        Some(at)
    }

    // The positions, and this one where an active state is the end of its row.
    fn reach(&self, at: usize, reached: Positions, place: usize) -> Positions
        requires within { at < length self.now }
        requires place { place < 241 }
        requires unseen { held reached place ≡ false }
        ensures ended { held result place ≡ is_end_at self.now at }
        ensures others { (j : ℕ) → j ≢ place → held result j ≡ held reached j }
    {
        if self.sets[at].is_end {
            return reached.and(place);
        }
        reached
    }

    // The place of the set to which a way leads from the one at this place.
    fn lead(&mut self, tables: &Tables, at: usize, way: usize) -> Option<usize>
        requires known { AreKnown tables.now self.old }
        requires within { at < length self.old }
        requires way { way < 257 }
        ensures known { AreKnown tables.now self.new }
        ensures led { IfSome result
            (λ next. LeadsTo tables.now self.new way (states_at self.old at) next) }
    {
        let next = self.sets[at].next[way];
        if next != 0 {
            return Some(usize::from(next));
        }
        self.learn(tables, at, way)
    }

    // The same where that is not known yet.
    fn learn(&mut self, tables: &Tables, at: usize, way: usize) -> Option<usize>
        requires known { AreKnown tables.now self.old }
        requires within { at < length self.old }
        requires way { way < 257 }
        ensures known { AreKnown tables.now self.new }
        ensures led { IfSome result
            (λ next. LeadsTo tables.now self.new way (states_at self.old at) next) }
    {
        if self.lessons == 0 || self.sets.len() >= self.most {
            return None;
        }
        self.lessons -= 1;
        let states = self.led(tables, at, way).ok()?;
        let place = self.place_of(tables, states)?;
        self.sets[at].next[way] = u16::try_from(place).ok()?;
        Some(place)
    }

    // The states to which a way leads from the set at this place.
    fn led(&self, tables: &Tables, at: usize, way: usize) -> Result<Bits, AllocError>
        requires known { AreKnown tables.now self.now }
        requires within { at < length self.now }
        ensures { IfOk result (λ states. IsLed tables.now way (states_at self.now at) states) }
    {
        let mut states = self.sets[at].states.copy(self.alloc)?;
        tables.lead(&mut states, way);
        Ok(states)
    }

    // The place of the set of these states, which is put behind the others if it is not among them.
    fn place_of(&mut self, tables: &Tables, states: Bits) -> Option<usize>
        requires known { AreKnown tables.now self.old }
        requires room { length states ≡ length tables.now.firsts }
        ensures known { AreKnown tables.now self.new }
        ensures kept { KeepsSets self.old self.new }
        ensures place { IfSome result (λ place. StandAt self.new states place) }
    {
        let digest = states.digest();
        if let Some(place) = self.noted(digest, &states) {
            return Some(place);
        }
        let place = self.sets.len();
        self.sets.push(KnownSet::new(tables, states)).ok()?;
        self.by_digest.insert(digest, place).ok()?;
        Some(place)
    }

    // The place that was noted for a digest, if these states stand there.
    fn noted(&self, digest: u64, states: &Bits) -> Option<usize>
        ensures { IfSome result (λ place. StandAt self.now states.now place) }
    {
        let place = *self.by_digest.get(&digest)?;
        let set = self.sets.get(place)?;
        if set.states.is(states) {
            return Some(place);
        }
        None
    }
}
