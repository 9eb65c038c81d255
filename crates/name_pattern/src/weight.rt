//! How much it is to search for a pattern. No answer depends on it.
use regex_hir::Hir;

/// What a pattern is made of.
#[derive(Clone, Copy, Debug, PartialEq, Eq)]
pub struct Weight {
    /// Characters, assertions and choices, each as often as it is repeated: about so many ways to go on are followed side by side at most.
    pub places: u64,
    /// The states that they become, about and at most.
    pub states: u64,
    /// How many different sets of places are followed, about and at most: of a literal one for each byte
    /// and one more, of a class two.
    pub sets: u64,
}

// What a range of characters becomes: a path for each way in which UTF-8 writes some of them.
const RANGE_STATES: u64 = 4;

// More factors of at least 2 than a product of 64 bits has.
const MOST_FACTORS: u64 = 64;

impl Weight {
    const NONE: Weight = Weight {
        places: 0,
        states: 0,
        sets: 1,
    };

    const ONE: Weight = Weight {
        places: 1,
        states: 1,
        sets: 1,
    };

    fn plus(self, other: Weight) -> Weight {
        Weight {
            places: self.places.saturating_add(other.places),
            states: self.states.saturating_add(other.states),
            sets: self.sets.saturating_mul(other.sets),
        }
    }

    fn times(self, count: u64) -> Weight {
        Weight {
            places: self.places.saturating_mul(count),
            states: self.states.saturating_mul(count),
            sets: power(self.sets.max(2), count),
        }
    }

    fn of_bytes(count: usize) -> Weight {
        Weight {
            places: count as u64,
            states: count as u64,
            sets: (count as u64).saturating_add(1),
        }
    }

    fn of_ranges(count: usize) -> Weight {
        Weight {
            places: 1,
            states: RANGE_STATES.saturating_mul(count as u64),
            sets: 2,
        }
    }

    /// What a pattern that was read is made of.
    #[cycle(weight)]
    pub(crate) fn of(hir: &Hir) -> Weight {
        match hir {
            Hir::Empty => Weight::ONE,
            Hir::Literal(bytes) => Weight::of_bytes(bytes.len()),
            Hir::Bytes(class) => Weight::of_ranges(class.ranges.len()),
            Hir::Chars(class) => Weight::of_ranges(class.ranges.len()),
            Hir::Look(_) => Weight::ONE,
            Hir::Repetition { min, max, sub, .. } => {
                Weight::of(sub)
                    .plus(Weight::ONE)
                    .times(most_often(*min, *max))
            }
            Hir::Capture { sub, .. } => Weight::of(sub).plus(Weight::ONE),
            Hir::Concat(parts) => of_all(parts),
            Hir::Alternation(parts) => of_any(parts),
        }
    }
}

#[cycle(weight)]
fn of_all(parts: &[Hir]) -> Weight {
    let mut all = Weight::NONE;
    for part in parts {
        all = all.plus(Weight::of(part)).plus(Weight::ONE);
    }
    all
}

// Of choices among literals no more places are followed than the longest has that has begun.
#[cycle(weight)]
fn of_any(parts: &[Hir]) -> Weight {
    let all = of_all(parts);
    if !parts.iter().all(|part| is_literal(part)) {
        return all;
    }
    Weight {
        sets: all.places.saturating_add(1),
        ..all
    }
}

fn is_literal(part: &Hir) -> bool {
    match part {
        Hir::Literal(_) => true,
        _ => false,
    }
}

// How often what is repeated is written out.
fn most_often(min: u32, max: Option<u32>) -> u64 {
    match max {
        Some(max) => u64::from(max.max(1)),
        None => u64::from(min).saturating_add(1),
    }
}

fn power(base: u64, count: u64) -> u64 {
    let mut product: u64 = 1;
    for _factor in 0..count.min(MOST_FACTORS) {
        product = product.saturating_mul(base);
    }
    product
}
