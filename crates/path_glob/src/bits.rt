//! Sets of places as bits of words.
ghost use Rattle.std.specs.Prelude.{◌≡◌, ◌≢◌, ◌↔◌, ℕ, ◌*◌, ◌/◌, ◌<◌, ◌||◌, ◌&&◌, false, true, IfOk, IsTrue, length, replicate};
ghost use Rattle.path_glob.specs.Bits.{Meet, shifted};
ghost use Rattle.path_glob.specs.Positions.{bit_of};

use crate::positions::next_word;
use std::alloc::{AllocError, Global};
use std::marker::Model;

// An odd number whose bits are without order.
const DIGEST_FACTOR: u64 = 0x9e37_79b9_7f4a_7c15;

/// A set of places, each a bit, 64 to a word.
#[derive(Drop)]
pub(crate) struct Bits {
    words: Vec<u64>,
}

impl Model for Bits {
    ghost use Rattle.std.specs.Prelude.{List, ℕ};

    ghost Value = { List ℕ };

    ghost view = { λ b. b.words.items };
}

impl Bits {
    /// No place, of those that so many words hold.
    pub(crate) fn none(alloc: Global, words: usize) -> Result<Bits, AllocError>
        ensures { IfOk result (λ bits. bits ≡ replicate words 0) }
    {
        let words = vec![in alloc; 0; words]?;
        Ok(Bits { words })
    }

    /// How many words it has.
    pub(crate) fn words(&self) -> usize
        ensures { result ≡ length self.now }
    {
        self.words.len()
    }

    /// The same places.
    pub(crate) fn copy(&self, alloc: Global) -> Result<Bits, AllocError>
        ensures { IfOk result (λ bits. bits ≡ self.now) }
    {
        let words = self.words.as_slice().to_vec(alloc)?;
        Ok(Bits { words })
    }

    /// Whether these are the places of another set.
    pub(crate) fn is(&self, other: &Bits) -> bool
        ensures { IsTrue result → self.now ≡ other.now }
    {
        same_words(self.words.as_slice(), other.words.as_slice())
    }

    /// A number that differs for most sets.
    pub(crate) fn digest(&self) -> u64 {
        digest_of(self.words.as_slice())
    }

    /// Puts a place in.
    pub(crate) fn insert(&mut self, place: usize)
        requires { place / 64 < length self.old }
        ensures room { length self.new ≡ length self.old }
        ensures added { bit_of self.new place ≡ true }
        ensures others { (p : ℕ) → p ≢ place → bit_of self.new p ≡ bit_of self.old p }
    {
        self.words[place / 64] |= 1 << (place % 64);
    }

    /// Takes all places out.
    pub(crate) fn clear(&mut self)
        ensures room { length self.new ≡ length self.old }
        ensures none { (p : ℕ) → bit_of self.new p ≡ false }
    {
        clear_words(self.words.as_mut_slice());
    }

    /// Puts in the places of another set.
    pub(crate) fn add(&mut self, others: &Bits)
        requires { length others.now ≡ length self.old }
        ensures room { length self.new ≡ length self.old }
        ensures either { (p : ℕ) → bit_of self.new p ≡ (bit_of self.old p || bit_of others.now p) }
    {
        add_words(self.words.as_mut_slice(), others.words.as_slice());
    }

    /// Whether a place is in both sets.
    pub(crate) fn meets(&self, others: &Bits) -> bool
        requires { length others.now ≡ length self.now }
        ensures { IsTrue result ↔ Meet self.now others.now }
    {
        words_meet(self.words.as_slice(), others.words.as_slice())
    }

    /// Moves the places that are also among the first set on by one; those that are also among the second
    /// stay as well.
    pub(crate) fn step(&mut self, on: &Bits, stay: &Bits)
        requires on { length on.now ≡ length self.old }
        requires stay { length stay.now ≡ length self.old }
        ensures room { length self.new ≡ length self.old }
        ensures moved { (p : ℕ) → p < 64 * length self.old → bit_of self.new p
            ≡ (shifted (λ q. bit_of self.old q && bit_of on.now q) p || (bit_of self.old p && bit_of stay.now p)) }
    {
        step_words(
            self.words.as_mut_slice(),
            on.words.as_slice(),
            stay.words.as_slice(),
        );
    }
}

// Whether words are those of another set.
fn same_words(words: &[u64], others: &[u64]) -> bool
    ensures { IsTrue result → words.now ≡ others.now }
{
    words == others
}

// A number that differs for most words.
fn digest_of(words: &[u64]) -> u64 {
    let mut digest = 0_u64;
    for word in words {
        digest = (digest.rotate_left(5) ^ *word).wrapping_mul(DIGEST_FACTOR);
    }
    digest
}

// Takes all bits out.
fn clear_words(words: &mut [u64])
    ensures { (p : ℕ) → bit_of words.new p ≡ false }
{
    for k in 0..words.len() {
        words[k] = 0;
    }
}

// Puts the bits of other words in.
fn add_words(words: &mut [u64], others: &[u64])
    requires { length others.now ≡ length words.old }
    ensures { (p : ℕ) → bit_of words.new p ≡ (bit_of words.old p || bit_of others.now p) }
{
    for k in 0..words.len() {
        words[k] |= others[k];
    }
}

// Whether words have a bit in common.
fn words_meet(words: &[u64], others: &[u64]) -> bool
    requires { length others.now ≡ length words.now }
    ensures { IsTrue result ↔ Meet words.now others.now }
{
    let mut common = 0;
    for k in 0..words.len() {
        common |= words[k] & others[k];
    }
    has_bit(common)
}

// Whether a bit of a word is set.
fn has_bit(word: u64) -> bool
    ensures { IsTrue result ↔ 0 < word }
{
    word != 0
}

// Moves the bits that the first words have too on by one; those that the second have stay as well.
fn step_words(words: &mut [u64], on: &[u64], stay: &[u64])
    requires on { length on.now ≡ length words.old }
    requires stay { length stay.now ≡ length words.old }
    ensures { (p : ℕ) → p < 64 * length words.old → bit_of words.new p
        ≡ (shifted (λ q. bit_of words.old q && bit_of on.now q) p || (bit_of words.old p && bit_of stay.now p)) }
{
    let mut before = 0;
    for k in 0..words.len() {
        let moving = words[k] & on[k];
        words[k] = next_word(moving, before) | (words[k] & stay[k]);
        before = moving;
    }
}
