//! The outputs of the paths that were seen.
ghost use Rattle.std.specs.Prelude.{◌≡◌, ◌<◌, ◌++◌, [], IfOk, None, OnOk, Some, length, option_map, slice_get};
ghost use Rattle.std.specs.Map.{lookup};
ghost use Rattle.std.specs.Option.{option_to_list};
ghost use Rattle.std.specs.Str.{bytes_eq};
ghost use Rattle.aggregate_front.specs.Fitting.{hit_of, hits_of};
ghost use Rattle.aggregate_rules.specs.Readings.{output_path};
ghost use Rattle.aggregate_front.specs.Emitting.{Knows, MakesRoom};

use crate::hit::{Hit, OutputKey};
use crate::outputs::Outputs;
use aggregate_rules::{AggRules, Rule};
use indexmap::IndexMap;
use metric_path::MetricPath;
use std::alloc::{AllocError, Global};
use std::marker::Model;

/// The most paths and outputs of paths that are known, but for those of one path alone.
const MOST_KNOWN: usize = 40_000;

/// The outputs of a path in the order of their rules. Contracts see the list of them.
#[derive(Drop)]
pub(crate) struct Hits {
    items: Vec<Hit>,
}

impl Model for Hits {
    ghost use Rattle.std.specs.Prelude.{List};
    ghost use Rattle.aggregate_front.specs.Fitting.{HitValue};

    ghost Value = { List HitValue };

    ghost view = { λ h. h.items.items };
}

impl Hits {
    /// The outputs of a path, with what is held so far.
    fn of(
        alloc: Global,
        rules: &AggRules,
        path: &MetricPath,
        outputs: &Outputs,
    ) -> Result<Hits, AllocError>
        ensures { IfOk result (λ hits. hits ≡ hits_of rules.now path.now) }
    {
        let mut items = Vec::new(alloc);
        let mut next = outputs.len();
        let mut places = rules.places_for(path);
        while let Some(place) = places.next() {
            let rule = &rules.as_slice()[place];
            let hit = hit_of(alloc, place, rule, path, outputs, &mut next)?;
            push_hit(&mut items, hit)?;
        }
        Ok(Hits { items })
    }

    // How many there are.
    fn len(&self) -> usize
        ensures { result ≡ length self.now }
    {
        self.items.len()
    }
}

// Adds an output, where there is one.
fn push_hit(items: &mut Vec<Hit>, hit: Option<Hit>) -> Result<(), AllocError>
    ensures { OnOk result (items.new.items ≡ items.old.items ++ option_to_list hit) }
{
    if let Some(hit) = hit {
        items.push(hit)?;
    }
    Ok(())
}

// The output that the rule at a place has for a path; the next one that is made has this place.
fn hit_of(
    alloc: Global,
    place: usize,
    rule: &Rule,
    path: &MetricPath,
    outputs: &Outputs,
    next: &mut usize,
) -> Result<Option<Hit>, AllocError>
    ensures { IfOk result
        (λ hit. hit ≡ option_map (hit_of place rule.now) (output_path rule.now path.now)) }
{
    let Some(path) = rule.output_path(alloc, path)? else {
        return Ok(None);
    };
    let key = OutputKey { rule: place, path };
    let guess = guess_of(outputs, &key, next);
    Ok(Some(Hit::new(key, rule.seconds(), rule.method(), guess)))
}

// Where an output stands, or will, if this point makes it.
fn guess_of(outputs: &Outputs, key: &OutputKey, next: &mut usize) -> usize {
    match outputs.find(key) {
        Some(place) => place,
        None => {
            let guess = *next;
            *next = guess.saturating_add(1);
            guess
        }
    }
}

/// The outputs of paths, each of which was looked at by all rules once. All are forgotten where
/// one more would be too many.
#[derive(Drop)]
pub(crate) struct Known {
    paths: IndexMap<MetricPath, Hits>,
    room: usize,
}

impl Model for Known {
    ghost use Rattle.std.specs.Prelude.{List, ℕ};
    ghost use Rattle.aggregate_front.specs.Fitting.{HitValue};
    ghost use Rattle.aggregate_front.specs.Emitting.{KnowsFew};

    ghost Value = { List (List ℕ × List HitValue) };

    ghost view = { λ k. k.paths.entries };

    ghost invariant = { λ k. KnowsFew k.paths.entries k.room };
}

impl Known {
    /// Nothing known.
    pub(crate) fn new(alloc: Global) -> Known
        ensures { result ≡ [] }
    {
        Known {
            paths: IndexMap::new(alloc),
            room: MOST_KNOWN,
        }
    }

    /// The place of a path, whose outputs are found where they are not known.
    pub(crate) fn place_of(
        &mut self,
        alloc: Global,
        rules: &AggRules,
        path: &MetricPath,
        outputs: &Outputs,
    ) -> Result<usize, AllocError>
        requires { Knows rules.now self.old }
        ensures knows { Knows rules.now self.new }
        ensures place { IfOk result (λ place.
            slice_get self.new place ≡ Some (path.now, hits_of rules.now path.now)) }
    {
        match self.paths.get_index_of(path) {
            Some(place) => return Ok(place),
            None => return self.learn(alloc, rules, path, outputs),
        }
    }

    // The place of a path that is not known, whose outputs are found.
    fn learn(
        &mut self,
        alloc: Global,
        rules: &AggRules,
        path: &MetricPath,
        outputs: &Outputs,
    ) -> Result<usize, AllocError>
        requires knows { Knows rules.now self.old }
        requires absent { lookup (bytes_eq path.now) self.old ≡ None }
        ensures knows { Knows rules.now self.new }
        ensures place { IfOk result (λ place.
            slice_get self.new place ≡ Some (path.now, hits_of rules.now path.now)) }
    {
        let hits = Hits::of(alloc, rules, path, outputs)?;
        let path = path.copy()?;
        let room = make_room(&mut self.paths, self.room, hits.len());
        let place = self.paths.len();
        self.paths.insert(path, hits)?;
        self.room = room;
        Ok(place)
    }

    /// The outputs of the path at a place.
    pub(crate) fn hits(&self, place: usize) -> &[Hit]
        requires { place < length self.now }
        ensures { option_map (λ known. known.1) (slice_get self.now place) ≡ Some result.now }
    {
        let Some((_, hits)) = self.paths.get_index(place) else {
            unreachable!()
        };
        hits.items.as_slice()
    }
}

// Forgets all where one more path with so many outputs is too much. The room behind that path.
fn make_room(paths: &mut IndexMap<MetricPath, Hits>, room: usize, outputs: usize) -> usize
    ensures { MakesRoom paths.old.entries paths.new.entries outputs room result }
{
    if outputs < room {
        return room - outputs - 1;
    }
    paths.clear();
    MOST_KNOWN.saturating_sub(outputs).saturating_sub(1)
}
