//! What a drainer may still do in a second.
ghost use Rattle.std.specs.Prelude.{◌≡◌, ◌<◌};
ghost use Rattle.carbon_serve.specs.Rates.{may_more};

use crate::pace::{Pace, Pacer, Permit};
use metric_path::CLASSES;

impl Pacer {
    ghost use Rattle.std.specs.Prelude.{◌≡◌, ◌≢◌, ◌<◌, true};
    ghost use Rattle.carbon_serve.specs.Paces.{Counts, CountsCreate, CountsDrain, IsPermitted, Permits, may_drain};
    ghost use Rattle.carbon_serve.specs.Rates.{is_bounded, may_more};

    /// It has done nothing yet in the second that a clock tells.
    pub(crate) fn new(pace: Pace, now: u32) -> Pacer
        ensures pace { result.pace ≡ pace }
        ensures second { result.second ≡ now }
        ensures none { (result.drains ≡ 0) × (result.creates ≡ 0) }
    {
        Pacer {
            pace,
            second: now,
            drains: 0,
            creates: 0,
            next_drain: 0,
            next_create: 0,
        }
    }

    /// The clock tells a moment: in another second than it was in it has done nothing yet.
    pub(crate) fn advance(&mut self, now: u32)
        ensures pace { self.new.pace ≡ self.old.pace }
        ensures second { self.new.second ≡ now }
        ensures same { self.old.second ≡ now → self.new ≡ self.old }
        ensures other { self.old.second ≢ now → (self.new.drains ≡ 0) × (self.new.creates ≡ 0) }
    {
        if self.second != now {
            self.second = now;
            self.drains = 0;
            self.creates = 0;
        }
    }

    /// The class whose turn comes first: behind the one that last made a file, where files are bounded, and
    /// behind the one that last began a drain, where drains are. Where both are, each counts for every second
    /// second: else the classes that have one of them would keep the other from those behind them.
    pub(crate) fn first_class(&self) -> u32
        ensures { result < 16 }
    {
        if self.follows_creates() {
            self.next_create
        } else {
            self.next_drain
        }
    }

    // Whether the classes have their turns by the files that they made.
    fn follows_creates(&self) -> bool {
        self.bounds_creates() && (self.pace.drains == 0 || self.second % 2 == 0)
    }

    /// Whether there is a bound for the files that it makes.
    pub(crate) fn bounds_creates(&self) -> bool
        ensures { result ≡ is_bounded self.now.pace.creates }
    {
        self.pace.creates > 0
    }

    /// Whether the second has room for a drain more.
    pub(crate) fn may_drain(&self) -> bool
        ensures { result ≡ may_drain self.now }
    {
        may_more(self.pace.drains, self.drains)
    }

    /// The drain that it may begin, where that would make a file that is counted, or not. `None` where
    /// the second has no room for it.
    pub(crate) fn permit(&self, creates: bool) -> Option<Permit>
        ensures { Permits self.now creates result }
    {
        if !self.may_drain() {
            return None;
        }
        if !creates {
            return Some(Permit::Drain);
        }
        if may_more(self.pace.creates, self.creates) {
            Some(Permit::Create)
        } else {
            None
        }
    }

    /// It has begun a drain of a class that it was permitted.
    pub(crate) fn count(&mut self, permit: Permit, class: u32)
        requires class { class < 16 }
        requires permitted { IsPermitted self.old permit }
        ensures { Counts permit self.old self.new }
    {
        self.pass_turn(permit, class);
        self.count_drain();
        if permit == Permit::Create {
            self.count_create();
        }
    }

    // The class has had its turn, where it did what the turns go by.
    fn pass_turn(&mut self, permit: Permit, class: u32)
        requires class { class < 16 }
        ensures pace { self.new.pace ≡ self.old.pace }
        ensures second { self.new.second ≡ self.old.second }
        ensures counts { (self.new.drains ≡ self.old.drains)
            × (self.new.creates ≡ self.old.creates) }
    {
        if !self.follows_creates() {
            self.next_drain = next_class(class);
        } else if permit == Permit::Create {
            self.next_create = next_class(class);
        }
    }

    fn count_drain(&mut self)
        requires { may_more self.old.pace.drains self.old.drains ≡ true }
        ensures counts { CountsDrain self.old self.new }
        ensures creates { self.new.creates ≡ self.old.creates }
    {
        if self.pace.drains > 0 {
            self.drains += 1;
        }
    }

    fn count_create(&mut self)
        requires { may_more self.old.pace.creates self.old.creates ≡ true }
        ensures counts { CountsCreate self.old self.new }
        ensures drains { self.new.drains ≡ self.old.drains }
    {
        if self.pace.creates > 0 {
            self.creates += 1;
        }
    }
}

/// The class behind this one, the first one behind the last.
pub(crate) fn next_class(class: u32) -> u32
    requires { class < 16 }
    ensures { result < 16 }
{
    if class + 1 < CLASSES { class + 1 } else { 0 }
}

fn may_more(most: u32, done: u32) -> bool
    ensures { result ≡ may_more most done }
{
    most == 0 || done < most
}
