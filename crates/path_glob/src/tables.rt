//! Rows of pieces as an automaton over the bytes of a node, whose states are bits.
ghost use Rattle.std.specs.Prelude.{◌≡◌, ◌==◌, ◌+◌, ◌/◌, IfOk, length};
ghost use Rattle.path_glob.specs.Parts.{covers_byte};
ghost use Rattle.path_glob.specs.States.{leads_on, mark_of};
ghost use Rattle.path_glob.specs.Tables.{AreEmpty, AreEntered, AreMarks, AreSteps, AreTables, HaveRoom};

use crate::bits::Bits;
use crate::cut::ByteSet;
use crate::positions::{Positions, is_covered};
use crate::states::{Kind, State};
use std::alloc::{AllocError, Global};

/// What the states of rows are, each a bit.
#[derive(Drop)]
pub(crate) struct Tables {
    // the first ones of rows
    firsts: Bits,
    // those at a `*`
    stars: Bits,
    // the ends of rows
    ends: Bits,
    // for each byte those from which it leads on to the next state
    over: Vec<Bits>,
}

/// The tables of states.
pub(crate) fn tables_of(alloc: Global, states: &[State<'_>]) -> Result<Tables, AllocError>
    ensures { IfOk result (λ tables. AreTables states.now tables) }
{
    let firsts = states_of_kind(alloc, states, Kind::First)?;
    let stars = states_of_kind(alloc, states, Kind::Star)?;
    let ends = states_of_kind(alloc, states, Kind::End)?;
    let over = steps_of(alloc, states)?;
    Ok(Tables {
        firsts,
        stars,
        ends,
        over,
    })
}

// For each byte the states from which it leads on.
fn steps_of(alloc: Global, states: &[State<'_>]) -> Result<Vec<Bits>, AllocError>
    ensures { IfOk result (λ over. AreSteps states.now over.items) }
{
    let mut over = empty_sets(alloc, states.len() / 64 + 1)?;
    enter_states(over.as_mut_slice(), states);
    Ok(over)
}

// A set without a place for each byte.
fn empty_sets(alloc: Global, words: usize) -> Result<Vec<Bits>, AllocError>
    ensures { IfOk result (λ sets. AreEmpty sets.items words 256) }
{
    let mut sets = Vec::new(alloc);
    for _byte in 0..256_usize {
        sets.push(Bits::none(alloc, words)?)?;
    }
    Ok(sets)
}

// Puts each state into the sets of the bytes that lead on from it.
fn enter_states(over: &mut [Bits], states: &[State<'_>])
    requires { AreEmpty over.old (length states.now / 64 + 1) 256 }
    ensures { AreSteps states.now over.new }
{
    for place in 0..states.len() {
        enter_state(over, states[place], place);
    }
}

// Puts a state at a place into the sets of the bytes that lead on from it.
fn enter_state(over: &mut [Bits], state: State<'_>, place: usize)
    requires { HaveRoom over.old place }
    ensures { AreEntered (leads_on state.entry.next) place over.old over.new }
{
    match state.next {
        None => {}
        Some(bytes) => enter_set(over, bytes, place),
    }
}

// The same into the sets of these bytes. One byte is the most common.
fn enter_set(over: &mut [Bits], bytes: ByteSet<'_>, place: usize)
    requires { HaveRoom over.old place }
    ensures { AreEntered (covers_byte bytes.entry) place over.old over.new }
{
    match bytes {
        ByteSet::One(b) => enter_byte(over, b, place),
        _ => enter_bytes(over, bytes, place),
    }
}

// The same into that of one byte.
fn enter_byte(over: &mut [Bits], b: u8, place: usize)
    requires { HaveRoom over.old place }
    ensures { AreEntered (λ x. x == b) place over.old over.new }
{
    over[usize::from(b)].insert(place);
}

// The same into those of any bytes.
fn enter_bytes(over: &mut [Bits], bytes: ByteSet<'_>, place: usize)
    requires { HaveRoom over.old place }
    ensures { AreEntered (covers_byte bytes.entry) place over.old over.new }
{
    for b in 0..256_usize {
        if is_covered(bytes, b as u8) {
            over[b].insert(place);
        }
    }
}

// The states of a kind.
fn states_of_kind(alloc: Global, states: &[State<'_>], kind: Kind) -> Result<Bits, AllocError>
    ensures { IfOk result (λ bits. AreMarks (mark_of kind) states.now bits) }
{
    let mut bits = Bits::none(alloc, states.len() / 64 + 1)?;
    for (place, state) in states.iter().enumerate() {
        if state.is(kind) {
            bits.insert(place);
        }
    }
    Ok(bits)
}

impl Tables {
    ghost use Rattle.std.specs.Prelude.{◌≡◌, ◌≢◌, ◌↔◌, ℕ, ◌<◌, ◌≤◌, ◌||◌, ◌&&◌, IsTrue, List, false, true, length};
    ghost use Rattle.path_glob.specs.Bits.{Meet};
    ghost use Rattle.path_glob.specs.Positions.{Leads, bit_of, held};
    ghost use Rattle.path_glob.specs.States.{First, LeadOut, mark_at};
    ghost use Rattle.path_glob.specs.Tables.{AreSized, AreTables, IsLed};
    ghost use Rattle.path_glob.specs.declared.states.State.{State};

    /// Leads the active states on by a way: over this byte, or, behind the bytes, to themselves and
    /// the first ones of rows.
    pub(crate) fn lead(&self, active: &mut Bits, way: usize)
        requires sized { AreSized self.now (length active.old) }
        ensures { IsLed self.now way active.old active.new }
    {
        match self.over.get(way) {
            Some(over) => active.step(over, &self.stars),
            None => active.add(&self.firsts),
        }
    }

    /// Whether an active state is the end of its row.
    pub(crate) fn has_end(&self, active: &Bits) -> bool
        requires { AreSized self.now (length active.now) }
        ensures { IsTrue result ↔ Meet active.now self.now.ends }
    {
        active.meets(&self.ends)
    }

    /// How many words its states take.
    pub(crate) fn words(&self) -> usize
        ensures { result ≡ length self.now.firsts }
    {
        self.firsts.words()
    }

    /// The positions in a node to which these lead over bytes that lead from the first state of a row to its
    /// end. The active states are kept where the caller says.
    pub(crate) fn after(&self, active: &mut Bits, node: &[u8], start: Positions) -> Positions
        requires sized { AreSized self.now (length active.old) }
        requires short { length node.now ≤ 240 }
        ensures room { length active.new ≡ length active.old }
        ensures leads { (states : List State) → AreTables states self.now
            → Leads (LeadOut (mark_at First states) states) node.now (held start) (held result) }
    {
        active.clear();
        let mut reached = Positions::none();
        for i in 0..node.len() {
            reached = self.visit(active, start, reached, i);
            let over = &self.over[usize::from(node[i])];
            active.step(over, &self.stars);
        }
        self.visit(active, start, reached, node.len())
    }

    // The same at one position: rows begin where it is one of those at the start, and it is reached where an
    // active state is the end of its row.
    fn visit(
        &self,
        active: &mut Bits,
        start: Positions,
        reached: Positions,
        place: usize,
    ) -> Positions
        requires sized { AreSized self.now (length active.old) }
        requires place { place < 241 }
        requires unseen { held reached place ≡ false }
        ensures room { length active.new ≡ length active.old }
        ensures begun { (p : ℕ) → bit_of active.new p
            ≡ (bit_of active.old p || (held start place && bit_of self.now.firsts p)) }
        ensures ended { (held result place ≡ true) ↔ Meet active.new self.now.ends }
        ensures others { (j : ℕ) → j ≢ place → held result j ≡ held reached j }
    {
        if start.has(place) {
            active.add(&self.firsts);
        }
        if active.meets(&self.ends) {
            return reached.and(place);
        }
        reached
    }
}
