//! The rules that a path may come to.
ghost use Rattle.std.specs.Prelude.{◌≡◌, ◌+◌, ◌≤◌, ◌<◌, ◌∷◌, [], IfSome, MatchOption, ℕ, length};
ghost use Rattle.aggregate_rules.specs.RulePlaces.{IsFirst, least_of};

use crate::rules::AggRules;
use std::marker::Model;

/// The places of the rules that a path may come to, rising. Contracts see the list of those that
/// are left.
#[derive(Drop)]
pub struct Places<'a> {
    rules: &'a AggRules,
    class: usize,
    last: Option<usize>,
    own: Option<usize>,
    common: Option<usize>,
}

impl<'a> Model for Places<'a> {
    ghost use Rattle.std.specs.Prelude.{List, ℕ, drop};
    ghost use Rattle.aggregate_rules.specs.RulePlaces.{IsFirst, behind_last, may_fit, places_from};

    ghost Value = { List ℕ };

    ghost view = { λ p. places_from (may_fit p.class) (behind_last p.last) (drop (behind_last p.last) p.rules.now) };

    ghost invariant = { λ p. IsFirst p.rules.now p.class (behind_last p.last) p.own × IsFirst p.rules.now 0 (behind_last p.last) p.common };
}

impl<'a> Places<'a> {
    ghost use Rattle.std.specs.Prelude.{◌≡◌};
    ghost use Rattle.aggregate_rules.specs.RulePlaces.{front_classes, may_fit, places_from};

    /// The places of the rules for the paths of a class.
    pub(crate) fn of(rules: &'a AggRules, class: usize) -> Places<'a>
        requires { class < front_classes }
        ensures { result ≡ places_from (may_fit class) 0 rules.now }
    {
        Places {
            rules,
            class,
            last: None,
            own: rules.first_of(class),
            common: rules.first_of(0),
        }
    }

    /// The next place.
    pub fn next(&mut self) -> Option<usize>
        ensures { MatchOption result (self.old ≡ []) (λ place. self.old ≡ place ∷ self.new) }
    {
        let place = least(self.own, self.common)?;
        self.own = behind(self.rules, self.own, place);
        self.common = behind(self.rules, self.common, place);
        self.last = Some(place);
        Some(place)
    }
}

// The lower of two places, where there are two.
fn least(own: Option<usize>, common: Option<usize>) -> Option<usize>
    ensures { result ≡ least_of own common }
{
    let Some(first) = own else {
        return common;
    };
    let Some(second) = common else {
        return own;
    };
    Some(first.min(second))
}

// The first rule of a class behind a place, where the first from a place before it on is known.
fn behind(rules: &AggRules, first: Option<usize>, place: usize) -> Option<usize>
    requires within { place < length rules.now }
    requires least { IfSome first (λ at. place ≤ at) }
    ensures { (class from : ℕ) → from ≤ place → IsFirst rules.now class from first
        → IsFirst rules.now class (place + 1) result }
{
    let Some(at) = first else {
        return None;
    };
    if at == place {
        return rules.next_of(place);
    }
    first
}
