//! How the positions in a node move on over its bytes.
ghost use Rattle.std.specs.Prelude.{◌≡◌, ◌≢◌, ◌↔◌, ◌⊎◌, ℕ, ◌+◌, ◌==◌, ◌<◌, ◌≤◌, ◌||◌, ◌&&◌, Bool, true, false, IsTrue, get_or, length};
ghost use Rattle.std.specs.Int.{bit_at};
ghost use Rattle.std.specs.List.{list_any};
ghost use Rattle.path_glob.specs.Glob.{Covers, is_within};
ghost use Rattle.path_glob.specs.Reading.{members_of, ranges_of};
ghost use Rattle.path_glob.specs.Parts.{RangeIn, covers_byte, simple_said};
ghost use Rattle.path_glob.specs.Positions.{HeldBefore, Leads, SetBefore, held};

use crate::cut::{ByteSet, SimplePiece};
use crate::places::Node;

/// Some of the positions in a node: those that a front of a glob's pieces leads to. There are at most 241 in
/// a node, one before each byte and one behind the last, and each is a bit.
#[derive(Clone, Copy)]
pub(crate) struct Positions {
    words: [u64; 4],
}

impl Positions {
    /// No position.
    pub(crate) fn none() -> Positions
        ensures { (j : ℕ) → held result j ≡ false }
    {
        Positions { words: [0; 4] }
    }

    /// The position before the first byte.
    pub(crate) fn start() -> Positions
        ensures first { held result 0 ≡ true }
        ensures other { (j : ℕ) → 0 < j → held result j ≡ false }
    {
        Positions {
            words: [1, 0, 0, 0],
        }
    }

    /// Whether this position is among them.
    #[tactic(auto, unfolding(crate::specs::Positions::bit_of))]
    pub(crate) fn has(self, place: usize) -> bool
        requires { place < 241 }
        ensures { result ≡ held self place }
    {
        (self.words[place / 64] >> (place % 64)) & 1 == 1
    }

    /// Whether there is none.
    pub(crate) fn is_none(self) -> bool
        ensures { IsTrue result → (j : ℕ) → j < 241 → held self j ≡ false }
    {
        let [a, b, c, d] = self.words;
        a | b | c | d == 0
    }

    /// These positions, and the others.
    pub(crate) fn with(self, others: Positions) -> Positions
        ensures { (j : ℕ) → j < 241 → held result j ≡ (held self j || held others j) }
    {
        let [a, b, c, d] = self.words;
        let [e, f, g, h] = others.words;
        Positions {
            words: [a | e, b | f, c | g, d | h],
        }
    }

    // Those that are among the others too.
    fn among(self, others: Positions) -> Positions
        ensures { (j : ℕ) → j < 241 → held result j ≡ (held self j && held others j) }
    {
        let [a, b, c, d] = self.words;
        let [e, f, g, h] = others.words;
        Positions {
            words: [a & e, b & f, c & g, d & h],
        }
    }

    /// These, and one more.
    pub(crate) fn and(self, place: usize) -> Positions
        requires { place < 241 }
        ensures added { held result place ≡ true }
        ensures others { (j : ℕ) → j ≢ place → held result j ≡ held self j }
    {
        let mut words = self.words;
        words[place / 64] |= 1 << (place % 64);
        Positions { words }
    }

    /// The positions to which these lead over bytes that the piece covers.
    pub(crate) fn after(self, piece: SimplePiece<'_>, node: &Node<'_>) -> Positions
        requires { length node.now ≤ 240 }
        ensures { Leads (Covers (simple_said piece.entry)) node.now (held self) (held result) }
    {
        match piece {
            SimplePiece::AnyRow => return self.after_any_row(),
            SimplePiece::Byte(bytes) => return self.after_byte(bytes, node),
        }
    }

    /// Those to which these lead over any row of bytes.
    pub(crate) fn after_any_row(self) -> Positions
        ensures { (j : ℕ) → j < 241 → ((held result j ≡ true) ↔ HeldBefore self j) }
    {
        let [a, b, c, d] = self.words;
        Positions {
            words: [
                onward(0, a),
                onward(a, b),
                onward(a | b, c),
                onward(a | b | c, d),
            ],
        }
    }

    /// Those to which these lead over this byte.
    pub(crate) fn after_one(self, b: u8, node: &Node<'_>) -> Positions
        requires { length node.now ≤ 240 }
        ensures first { held result 0 ≡ false }
        ensures next { (j : ℕ) → j < length node.now
            → held result (j + 1) ≡ (held self j && (get_or node.now j 0 == b)) }
    {
        self.among(node.before(b)).next()
    }

    // Those to which these lead over one of these bytes.
    fn after_byte(self, bytes: ByteSet<'_>, node: &Node<'_>) -> Positions
        requires { length node.now ≤ 240 }
        ensures first { held result 0 ≡ false }
        ensures next { (j : ℕ) → j < length node.now
            → held result (j + 1) ≡ (held self j && covers_byte bytes.entry (get_or node.now j 0)) }
    {
        match bytes {
            ByteSet::Any => return self.next(),
            _ => return self.among(node.covered(bytes)).next(),
        }
    }

    // Those one place on.
    fn next(self) -> Positions
        ensures first { held result 0 ≡ false }
        ensures next { (j : ℕ) → j < 240 → held result (j + 1) ≡ held self j }
    {
        let [a, b, c, d] = self.words;
        Positions {
            words: [
                next_word(a, 0),
                next_word(b, a),
                next_word(c, b),
                next_word(d, c),
            ],
        }
    }
}

// The bits of a word from its lowest one on, or all where the words before it have one.
fn onward(before: u64, word: u64) -> u64
    ensures lowest { 0 < word → SetBefore word 63 }
    ensures bits { (i : ℕ) → i < 64
        → ((bit_at result i ≡ 1) ↔ ((0 < before) ⊎ SetBefore word i)) }
{
    if before != 0 {
        return u64::MAX;
    }
    if word == 0 {
        return 0;
    }
    u64::MAX << word.trailing_zeros()
}

/// The bits of a word one place on, behind the last of the word before it.
pub(crate) fn next_word(word: u64, before: u64) -> u64
    ensures first { bit_at result 0 ≡ bit_at before 63 }
    ensures next { (i : ℕ) → i < 63 → bit_at result (i + 1) ≡ bit_at word i }
{
    (word << 1) | (before >> 63)
}

/// The positions before the bytes of a node that are one of these.
pub(crate) fn covered(bytes: ByteSet<'_>, node: &[u8]) -> Positions
    requires { length node.now ≤ 240 }
    ensures { (j : ℕ) → j < length node.now
        → held result j ≡ covers_byte bytes.entry (get_or node.now j 0) }
{
    let mut found = Positions::none();
    for i in 0..node.len() {
        if is_covered(bytes, node[i]) {
            found = found.and(i);
        }
    }
    found
}

/// Whether a byte is one of these.
pub(crate) fn is_covered(bytes: ByteSet<'_>, b: u8) -> bool
    ensures { result ≡ covers_byte bytes.entry b }
{
    match bytes {
        ByteSet::One(x) => return b == x,
        ByteSet::Any => return true,
        ByteSet::Members(members) => return is_member(members, b),
    }
}

// Whether a byte is one of the members of a list.
fn is_member(members: &[u8], b: u8) -> bool
    ensures { result ≡ list_any (is_within b) (members_of members.now) }
{
    let Some((first, rest)) = members.split_first() else {
        return false;
    };
    if *first == b'-' {
        return b == b'-' || is_in_ranges(rest, b);
    }
    is_in_ranges(members, b)
}

// Whether a byte is in a range, where a `-` between two bytes makes one of them.
fn is_in_ranges(members: &[u8], b: u8) -> bool
    ensures { result ≡ list_any (is_within b) (ranges_of members.now) }
{
    let mut rest = members;
    while let Some(found) = next_range(rest) {
        if found.first <= b && b <= found.last {
            return true;
        }
        rest = found.after;
    }
    false
}

// The first range of a list's members, and what follows it.
#[derive(Clone, Copy)]
struct FirstRange<'a> {
    first: u8,
    last: u8,
    after: &'a [u8],
}

// The first range: of three bytes, or of one alone.
fn next_range(members: &[u8]) -> Option<FirstRange<'_>>
    ensures { RangeIn members.now result }
{
    match members {
        [] => return None,
        [first, b'-', last, after @ ..] => {
            return Some(FirstRange {
                first: *first,
                last: *last,
                after,
            });
        }
        [only, after @ ..] => {
            return Some(FirstRange {
                first: *only,
                last: *only,
                after,
            });
        }
    }
}
