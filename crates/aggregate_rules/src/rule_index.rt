//! The rules of a file by the first nodes of their patterns.
ghost use Rattle.std.specs.Prelude.{◌≡◌, ◌<◌, IfOk, None, fold, length, replicate, slice_get};
ghost use Rattle.aggregate_rules.specs.RulePlaces.{IsIndexFrom, class_of, empty_index, front_classes, hashed, with_rule};

use crate::rule::Rule;
use std::alloc::{AllocError, Global};
use std::marker::Model;

// How many classes of first nodes there are.
const FRONT_CLASSES: usize = 4_097;

/// The class of a text: 0 of one without bytes, and else one of the others by its bytes.
#[tactic(auto, unfolding(crate::specs::RulePlaces::class_of))]
pub(crate) fn class_of(text: &[u8]) -> usize
    ensures value { result ≡ class_of text.now }
    ensures within { result < front_classes }
{
    if text.is_empty() {
        return 0;
    }
    1 + hash_of(text)
}

fn hash_of(text: &[u8]) -> usize
    ensures value { result ≡ fold hashed 0 text.now }
    ensures within { result < 4096 }
{
    let mut hash = 0;
    for b in text {
        hash = (hash * 31 + *b as usize) % 4096;
    }
    hash
}

// So many places that are none.
fn nones(alloc: Global, count: usize) -> Result<Vec<Option<usize>>, AllocError>
    ensures { IfOk result (λ nones. nones.items ≡ replicate count None) }
{
    vec![in alloc; None; count]
}

/// Of each class of first nodes the place of its first rule, and of each rule the place of the next
/// one of its class.
#[derive(Drop)]
pub(crate) struct RuleIndex {
    firsts: Vec<Option<usize>>,
    nexts: Vec<Option<usize>>,
}

impl Model for RuleIndex {
    ghost use Rattle.aggregate_rules.specs.RulePlaces.{IndexValue};

    ghost Value = { IndexValue };

    ghost view = { λ i. record { firsts = i.firsts.items; nexts = i.nexts.items } };
}

impl RuleIndex {
    /// The index of some rules.
    pub(crate) fn of(alloc: Global, rules: &[Rule]) -> Result<RuleIndex, AllocError>
        ensures { IfOk result (IsIndexFrom rules.now 0) }
    {
        let mut index = RuleIndex::empty(alloc, FRONT_CLASSES, rules.len())?;
        let mut place = rules.len();
        while place > 0 {
            place -= 1;
            index.put(place, rules[place].class());
        }
        Ok(index)
    }

    // No rule of so many classes, with room for so many rules.
    fn empty(alloc: Global, classes: usize, rules: usize) -> Result<RuleIndex, AllocError>
        ensures { IfOk result (λ index. index ≡ empty_index classes rules) }
    {
        let firsts = nones(alloc, classes)?;
        let nexts = nones(alloc, rules)?;
        Ok(RuleIndex { firsts, nexts })
    }

    // Puts a rule before those of its class.
    fn put(&mut self, place: usize, class: usize)
        requires class { class < length self.old.firsts }
        requires place { place < length self.old.nexts }
        ensures { self.new ≡ with_rule self.old place class }
    {
        self.nexts[place] = self.firsts[class];
        self.firsts[class] = Some(place);
    }

    /// The place of the first rule of a class.
    pub(crate) fn first(&self, class: usize) -> Option<usize>
        requires { class < length self.now.firsts }
        ensures { slice_get self.now.firsts class ≡ Some result }
    {
        self.firsts[class]
    }

    /// The place of the next rule of the class of the rule at a place.
    pub(crate) fn next(&self, place: usize) -> Option<usize>
        requires { place < length self.now.nexts }
        ensures { slice_get self.now.nexts place ≡ Some result }
    {
        self.nexts[place]
    }
}
