//! The outputs of a link, with what each has open.
ghost use Rattle.std.specs.Prelude.{◌≡◌, ◌<◌, ◌≤◌, ◌++◌, ◌∷◌, [], All, IfOk, IfSome, OnOk, OnErr, length, map, option_map, true, vec_capacity, vec_len};
ghost use Rattle.std.specs.Option.{option_to_list};
ghost use Rattle.fixed_num.specs.Moment.{is_moment};
ghost use Rattle.metric_line.specs.Seen.{seen};
ghost use Rattle.aggregate_front.specs.Gathering.{count_of, emitted_of, is_made};
ghost use Rattle.aggregate_front.specs.Emitting.{CanBeEmitted, open_points, point_of, points_of};

use crate::change::Change;
use crate::deed::{Deed, Done};
use crate::gathered::Gathered;
use crate::hit::{Hit, OutputKey};
use crate::interval::Interval;
use crate::limits::Limits;
use crate::timed_value::TimedValue;
use fixed_num::{GREATEST_MOMENT, LEAST_MOMENT};
use indexmap::IndexMap;
use metric_line::Datum;
use metric_path::MetricPath;
use ring_format::Method;
use std::alloc::{AllocError, Global};
use std::marker::Model;

/// Outputs in the order in which they appeared, up to some limits.
#[derive(Drop)]
pub(crate) struct Outputs {
    entries: IndexMap<OutputKey, Gathered>,
    points: u32,
    limits: Limits,
}

impl Model for Outputs {
    ghost use Rattle.aggregate_front.specs.Emitting.{Held, Keeps};

    ghost Value = { Held };

    ghost view = { λ o. record { limits = o.limits; outputs = o.entries.entries } };

    ghost invariant = { λ o. Keeps o.points o.limits o.entries.entries };
}

impl Outputs {
    ghost use Rattle.std.specs.Prelude.{◌&&◌, None, Some, nat_le, nat_lt, position};
    ghost use Rattle.std.specs.Map.{keys_of, lookup};
    ghost use Rattle.aggregate_front.specs.Gathering.{interval_of};
    ghost use Rattle.aggregate_front.specs.Emitting.{ChangesAt, Did, DidAll, DidMore, FeedsAll, Held, Takes, at_end, is_key, points_held, takes_at};

    /// No outputs.
    pub(crate) fn new(alloc: Global, limits: Limits) -> Outputs
        requires { limits.points < 31_536_000 }
        ensures { result ≡ record { limits = limits; outputs = [] } }
    {
        Outputs {
            entries: IndexMap::new(alloc),
            points: 0,
            limits,
        }
    }

    /// Takes a point to some outputs, one after the other. What it did is told also where memory
    /// runs out.
    pub(crate) fn take_all(
        &mut self,
        alloc: Global,
        hits: &[Hit],
        point: &TimedValue,
        deeds: &mut Vec<Deed>,
        emitted: &mut Vec<Datum>,
    ) -> Result<(), AllocError>
        requires none { deeds.old.items ≡ [] }
        ensures ok { OnOk result (FeedsAll self.old self.new point.now hits.now
            (map seen emitted.old.items) (map seen emitted.new.items)) }
        ensures did { DidAll self.old self.new deeds.new.items }
    {
        for hit in hits {
            self.take_next(alloc, hit, point, deeds, emitted)?;
        }
        Ok(())
    }

    // Takes a point to an output, behind others.
    fn take_next(
        &mut self,
        alloc: Global,
        hit: &Hit,
        point: &TimedValue,
        deeds: &mut Vec<Deed>,
        emitted: &mut Vec<Datum>,
    ) -> Result<(), AllocError>
        ensures ok { OnOk result (FeedsAll self.old self.new point.now (hit.now ∷ [])
            (map seen emitted.old.items) (map seen emitted.new.items)) }
        ensures did { DidMore self.old self.new deeds.old.items deeds.new.items }
    {
        deeds.reserve(1)?;
        match self.take(alloc, hit, *point)? {
            Some(done) => {
                push_within(deeds, done.deed);
                push_emitted(emitted, done.datum)?;
                Ok(())
            }
            None => Ok(()),
        }
    }

    // Takes a point to an output: `None` where it is passed over. Want of memory changes nothing.
    fn take(
        &mut self,
        alloc: Global,
        hit: &Hit,
        point: TimedValue,
    ) -> Result<Option<Done>, AllocError>
        ensures ok { IfOk result (Takes self.old self.new hit.now point) }
        ensures err { OnErr result (self.new ≡ self.old) }
    {
        let start = hit.interval_of(point.time);
        if !is_moment(start) {
            return Ok(None);
        }
        match self.place_of(hit) {
            Some(place) => self.take_at(alloc, place, hit, start, point),
            None => self.make(alloc, hit, start, point),
        }
    }

    /// How many outputs there are.
    pub(crate) fn len(&self) -> usize {
        self.entries.len()
    }

    /// Where an output stands.
    pub(crate) fn find(&self, key: &OutputKey) -> Option<usize> {
        self.entries.get_index_of(key)
    }

    // Where an output stands: at the guess, if that holds, which is found without a look-up.
    fn place_of(&self, hit: &Hit) -> Option<usize>
        ensures { result ≡ position (is_key hit.now.key) (keys_of self.now.outputs) }
    {
        let guess = hit.guess();
        if self.is_at(guess, hit.key()) {
            return Some(guess);
        }
        self.entries.get_index_of(hit.key())
    }

    // Whether an output stands at a place.
    fn is_at(&self, place: usize, key: &OutputKey) -> bool
        ensures { result ≡ true
            → position (is_key key.now) (keys_of self.now.outputs) ≡ Some place }
    {
        if place >= self.entries.len() {
            return false;
        }
        match self.entries.get_index(place) {
            Some((other, _)) => return *key == *other,
            None => return false,
        }
    }

    // Takes a point to an output that has not appeared.
    fn make(
        &mut self,
        alloc: Global,
        hit: &Hit,
        start: u32,
        point: TimedValue,
    ) -> Result<Option<Done>, AllocError>
        requires start { start ≡ interval_of hit.now.seconds point.time }
        requires moment { is_moment start ≡ true }
        requires absent { lookup (is_key hit.now.key) self.old.outputs ≡ None }
        ensures ok { IfOk result (Takes self.old self.new hit.now point) }
        ensures err { OnErr result (self.new ≡ self.old) }
    {
        if !self.has_room() {
            return Ok(None);
        }
        let mut gathered = Gathered::new(alloc, hit.method());
        let _ = gathered.take(alloc, start, point)?;
        let place = self.entries.len();
        self.entries.insert(hit.key().copy()?, gathered)?;
        self.points += 1;
        Ok(Some(Done {
            deed: Deed {
                place,
                change: Change::Made,
            },
            datum: None,
        }))
    }

    // Whether one more point and one more output may be held.
    fn has_room(&self) -> bool
        ensures { result ≡ (nat_lt (points_held self.now.outputs) self.now.limits.points
            && nat_lt (length self.now.outputs) self.now.limits.outputs) }
    {
        self.points < self.limits.points && self.entries.len() < self.limits.outputs as usize
    }

    // Takes a point to the output at a place.
    fn take_at(
        &mut self,
        alloc: Global,
        place: usize,
        hit: &Hit,
        start: u32,
        point: TimedValue,
    ) -> Result<Option<Done>, AllocError>
        requires start { start ≡ interval_of hit.now.seconds point.time }
        requires moment { is_moment start ≡ true }
        requires there { position (is_key hit.now.key) (keys_of self.old.outputs) ≡ Some place }
        ensures ok { IfOk result (Takes self.old self.new hit.now point) }
        ensures err { OnErr result (self.new ≡ self.old) }
    {
        if !self.has_room_at(place, start) {
            return Ok(None);
        }
        let change = self.change(alloc, place, start, point)?;
        match emitted_by(alloc, hit, &change) {
            Ok(datum) => Ok(Some(Done {
                deed: Deed { place, change },
                datum,
            })),
            Err(fault) => {
                self.undo(Deed { place, change });
                Err(fault)
            }
        }
    }

    // Whether the output at a place takes a point in an interval.
    fn has_room_at(&self, place: usize, start: u32) -> bool
        requires { place < length self.now.outputs }
        ensures { result ≡ takes_at self.now place start }
    {
        let Some((_, gathered)) = self.entries.get_index(place) else {
            unreachable!()
        };
        !gathered.is_late(start) && (gathered.opens_sixth(start) || !self.is_full())
    }

    // Takes a point into its interval of the output at a place.
    fn change(
        &mut self,
        alloc: Global,
        place: usize,
        start: u32,
        point: TimedValue,
    ) -> Result<Change, AllocError>
        requires within { place < length self.old.outputs }
        requires moment { is_moment start ≡ true }
        requires room { takes_at self.old place start ≡ true }
        ensures ok { IfOk result (ChangesAt self.old self.new place start point) }
        ensures emitted { IfOk result (λ change. IfSome (emitted_of change) CanBeEmitted) }
        ensures err { OnErr result (self.new ≡ self.old) }
    {
        let Some(gathered) = self.entries.get_index_mut(place) else {
            unreachable!()
        };
        let change = gathered.take(alloc, start, point)?;
        self.points = self.points + 1 - emitted_points(&change);
        Ok(change)
    }

    // Whether as many points are held as may be.
    fn is_full(&self) -> bool
        ensures { result ≡ nat_le self.now.limits.points (points_held self.now.outputs) }
    {
        self.points >= self.limits.points
    }

    /// Takes back what a point did, the last first.
    pub(crate) fn undo_all(&mut self, mut deeds: Vec<Deed>)
        requires { (before : Held) × DidAll before self.old deeds.items }
        ensures { (before : Held) → DidAll before self.old deeds.items → self.new ≡ before }
    {
        while let Some(deed) = deeds.pop() {
            self.undo(deed);
        }
    }

    // Takes back what a point did at an output.
    fn undo(&mut self, deed: Deed)
        requires { (before : Held) × Did before self.old deed }
        ensures { (before : Held) → Did before self.old deed → self.new ≡ before }
    {
        let emitted = emitted_points(&deed.change);
        self.points = self.points + emitted - 1;
        if is_made(&deed.change) {
            let _ = self.entries.pop();
            return;
        }
        let Some(gathered) = self.entries.get_index_mut(deed.place) else {
            unreachable!()
        };
        gathered.undo(deed.change);
    }

    /// The points of all open intervals: the outputs in their order, the intervals of each rising.
    pub(crate) fn at_end(&self, alloc: Global) -> Result<Vec<Datum>, AllocError>
        ensures { IfOk result (λ emitted. map seen emitted.items ≡ at_end self.now.outputs) }
    {
        let mut emitted = Vec::new(alloc);
        for place in 0..self.entries.len() {
            let Some((key, gathered)) = self.entries.get_index(place) else {
                unreachable!()
            };
            push_open(alloc, &mut emitted, key, gathered)?;
        }
        Ok(emitted)
    }
}

// The points of the open intervals of an output, behind others.
fn push_open(
    alloc: Global,
    emitted: &mut Vec<Datum>,
    key: &OutputKey,
    gathered: &Gathered,
) -> Result<(), AllocError>
    requires { All CanBeEmitted gathered.now.intervals }
    ensures { OnOk result (map seen emitted.new.items
        ≡ map seen emitted.old.items ++ open_points (key.now, gathered.now)) }
{
    for interval in gathered.intervals.as_slice() {
        if let Some(datum) = datum_of(alloc, &key.path, gathered.method, interval)? {
            emitted.push(datum)?;
        }
    }
    Ok(())
}

// The point that a change emits.
fn emitted_by(alloc: Global, hit: &Hit, change: &Change) -> Result<Option<Datum>, AllocError>
    requires { IfSome (emitted_of change.now) CanBeEmitted }
    ensures { IfOk result (λ datum. option_to_list (option_map seen datum)
        ≡ points_of hit.now.key.path hit.now.method (emitted_of change.now)) }
{
    match change {
        Change::Emitted { interval, .. } => {
            datum_of(alloc, &hit.key().path, hit.method(), interval)
        }
        _ => Ok(None),
    }
}

// The point that an interval of an output becomes.
fn datum_of(
    alloc: Global,
    path: &MetricPath,
    method: Method,
    interval: &Interval,
) -> Result<Option<Datum>, AllocError>
    requires { CanBeEmitted interval.now }
    ensures { IfOk result (λ datum.
        option_to_list (option_map seen datum) ≡ point_of path.now method interval.now) }
{
    let Some(value) = interval.points.value(alloc, method)? else {
        return Ok(None);
    };
    Ok(Some(Datum {
        path: path.copy()?,
        time: interval.start,
        value,
    }))
}

// How many points the interval had that a change emitted.
fn emitted_points(change: &Change) -> u32
    requires { count_of (emitted_of change.now) ≤ 31536000 }
    ensures { result ≡ count_of (emitted_of change.now) }
{
    match change {
        Change::Emitted { interval, .. } => interval.points.len() as u32,
        _ => 0,
    }
}

fn is_made(change: &Change) -> bool
    ensures { result ≡ is_made change.now }
{
    match change {
        Change::Made => true,
        _ => false,
    }
}

// Adds what a point did, where there is room for it.
fn push_within(deeds: &mut Vec<Deed>, deed: Deed)
    requires { vec_len deeds.old < vec_capacity deeds.old }
    ensures { deeds.new.items ≡ deeds.old.items ++ deed ∷ [] }
{
    match deeds.push(deed) {
        Ok(()) => {}
        Err(_) => unreachable!(),
    }
}

// Adds what a point emitted.
fn push_emitted(emitted: &mut Vec<Datum>, datum: Option<Datum>) -> Result<(), AllocError>
    ensures { OnOk result (emitted.new.items ≡ emitted.old.items ++ option_to_list datum) }
{
    if let Some(datum) = datum {
        emitted.push(datum)?;
    }
    Ok(())
}

fn is_moment(time: u32) -> bool
    ensures { result ≡ is_moment time }
{
    time >= LEAST_MOMENT && time <= GREATEST_MOMENT
}
