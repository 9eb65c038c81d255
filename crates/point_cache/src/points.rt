ghost use Rattle.std.specs.Prelude.{◌≡◌, ◌+◌, [], IfOk, IfErr, IsTrue, length};
ghost use Rattle.point_cache.specs.Points.{IsRising, IsPlaceOf, IsPlaceFor, PutsAt};
ghost use Rattle.point_cache.specs.Pending.{PutsPoint, ReplacesPoint, added};

use crate::Put;
use fixed_num::Milli;
use std::alloc::{AllocError, Global};
use std::marker::Model;

/// The points of one metric, by time: pairs of a moment in seconds since the Unix epoch and a value in thousandths.
#[derive(Drop)]
pub struct Points {
    pairs: Vec<(u32, Milli)>,
}

impl Model for Points {
    ghost use Rattle.std.specs.Prelude.{List, ℕ, ℤ};
    ghost use Rattle.point_cache.specs.Points.{IsRising};

    ghost Value = { List (ℕ × ℤ) };

    ghost view = { λ p. p.pairs.items };

    ghost invariant = { λ p. IsRising p.pairs.items };
}

impl Points {
    ghost use Rattle.std.specs.Prelude.{IfOk};
    ghost use Rattle.point_cache.specs.Points.{IsRising};

    /// No points.
    pub fn new(alloc: Global) -> Points
        ensures { result ≡ [] }
    {
        Points {
            pairs: Vec::new(alloc),
        }
    }

    /// These points, whose times rise.
    pub fn of_rising(alloc: Global, points: &[(u32, Milli)]) -> Result<Points, AllocError>
        requires { IsRising points.now }
        ensures { IfOk result (λ copy. copy ≡ points.now) }
    {
        let pairs = Vec::from_slice(alloc, points)?;
        Ok(Points { pairs })
    }

    /// The pairs of time and value, in rising time.
    pub fn list(&self) -> &[(u32, Milli)]
        ensures list { result.now ≡ self.now }
        ensures rising { IsRising result.now }
    {
        self.pairs.as_slice()
    }

    /// How many points there are.
    pub fn len(&self) -> usize
        ensures { result ≡ length self.now }
    {
        self.pairs.len()
    }

    /// Puts a point: at a time that is there its value is replaced, which takes no memory.
    pub fn put(&mut self, time: u32, value: Milli) -> Put
        ensures put { PutsPoint self.old self.new time value result }
        ensures count { length self.new ≡ length self.old + added result }
    {
        put_pair(&mut self.pairs, time, value)
    }

    /// Puts a point where no new one has room: `Full` where its time is not there.
    pub(crate) fn replace(&mut self, time: u32, value: Milli) -> Put
        ensures put { ReplacesPoint self.old self.new time value result }
        ensures count { length self.new ≡ length self.old + added result }
    {
        replace_pair(&mut self.pairs, time, value)
    }
}

/// Puts a pair into pairs of rising time.
fn put_pair(pairs: &mut Vec<(u32, Milli)>, time: u32, value: Milli) -> Put
    requires { IsRising pairs.old.items }
    ensures put { PutsPoint pairs.old.items pairs.new.items time value result }
    ensures rising { IsRising pairs.new.items }
    ensures count { length pairs.new.items ≡ length pairs.old.items + added result }
{
    match find(pairs, time) {
        Ok(place) => {
            pairs[place] = (time, value);
            Put::Replaced
        }
        Err(place) => match pairs.insert(place, (time, value)) {
            Ok(()) => Put::Stored,
            Err(_) => Put::NoMemory,
        },
    }
}

/// Replaces a pair of pairs of rising time.
fn replace_pair(pairs: &mut Vec<(u32, Milli)>, time: u32, value: Milli) -> Put
    requires { IsRising pairs.old.items }
    ensures put { ReplacesPoint pairs.old.items pairs.new.items time value result }
    ensures rising { IsRising pairs.new.items }
    ensures count { length pairs.new.items ≡ length pairs.old.items + added result }
{
    match find(pairs, time) {
        Ok(place) => {
            pairs[place] = (time, value);
            Put::Replaced
        }
        Err(_) => Put::Full,
    }
}

/// The place of the pair of a time, or else the place that it would have.
fn find(pairs: &[(u32, Milli)], time: u32) -> Result<usize, usize>
    requires { IsRising pairs.now }
    ensures there { IfOk result (IsPlaceOf pairs.now time) }
    ensures absent { IfErr result (IsPlaceFor pairs.now time) }
{
    let place = place_of(pairs, time);
    if place < pairs.len() && pairs[place].0 == time {
        return Ok(place);
    }
    Err(place)
}

/// The place of the first pair that is not before a time, or the number of pairs where all are.
fn place_of(pairs: &[(u32, Milli)], time: u32) -> usize
    requires { IsRising pairs.now }
    ensures { PutsAt pairs.now result time }
{
    // Most points come in rising time.
    if comes_last(pairs, time) {
        return pairs.len();
    }
    pairs.partition_point(|pair| pair.0 < time)
}

/// Whether a time comes after all pairs.
fn comes_last(pairs: &[(u32, Milli)], time: u32) -> bool
    requires { IsRising pairs.now }
    ensures { IsTrue result → PutsAt pairs.now (length pairs.now) time }
{
    pairs.is_empty() || pairs[pairs.len() - 1].0 < time
}
