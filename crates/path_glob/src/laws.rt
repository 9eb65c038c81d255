//! What globs fit, piece by piece from the left. The functions do nothing: what they ensure is the law.
ghost use Rattle.std.specs.Prelude.{◌≡◌, ◌≢◌, ◌↔◌, ◌==◌, ℕ, List, [], ◌∷◌, ◌++◌, All, false, None, codes};
ghost use Rattle.std.specs.Cmp.Lexicographic.{slice_cmp};
ghost use Rattle.std.specs.List.{slice_split};
ghost use Rattle.std.specs.Ordering.{nat_cmp};
ghost use Rattle.std.specs.declared.cmp.Ordering.TheVariants.{Less};
ghost use Rattle.path_glob.specs.Faults.{glob_fault};
ghost use Rattle.path_glob.specs.Glob.{Range};
ghost use Rattle.path_glob.specs.Laws.{AreBytes, BeginsWith, DotThen, FirstThen, FitsPath, FitsSome, IsByte, IsClosed, IsMember, IsOneByte};
ghost use Rattle.path_glob.specs.Parts.{HasNone};
ghost use Rattle.path_glob.specs.Reading.{is_comma, is_special, members_of, only, range};
ghost use Rattle.path_glob.specs.Stretch.{Fills};

/// A byte that is no dot, wildcard, bracket or brace stands for itself, and a dot for the end of a node.
pub fn bytes_stand_for_themselves()
    ensures end { (path : List ℕ) → FitsPath [] path ↔ (path ≡ []) }
    ensures byte { (b : ℕ) (glob path : List ℕ) → is_special b ≡ false → (b == 46) ≡ false
        → (FitsPath (b ∷ glob) path ↔ FirstThen (IsByte b) glob path) }
    ensures dot { (glob path : List ℕ) → FitsPath (46 ∷ glob) path ↔ DotThen glob path }
{}

/// `?` stands for one byte and `*` for any number of them, none included. Neither stands for a dot.
pub fn wildcards_stay_within_a_node()
    ensures any_byte { (glob path : List ℕ)
        → FitsPath (63 ∷ glob) path ↔ FirstThen IsOneByte glob path }
    ensures any_row { (glob path : List ℕ)
        → FitsPath (42 ∷ glob) path ↔ FirstThen AreBytes glob path }
{}

/// A list in brackets stands for one byte of its members, and its ranges hold both their ends.
pub fn lists_stand_for_one_byte()
    ensures { (members glob path : List ℕ)
        → HasNone 46 members → HasNone 93 members → HasNone 123 members
        → (FitsPath (91 ∷ (members ++ 93 ∷ glob)) path ↔ FirstThen (IsMember members) glob path) }
{}

/// What a `-` in a list says: it makes a range of the bytes on both its sides, and is itself where it comes
/// first or last.
pub fn dashes_make_ranges()
    ensures between { members_of (codes "a-fx") ≡ range 97 102 ∷ only 120 ∷ [] }
    ensures first { members_of (codes "-a-f") ≡ only 45 ∷ range 97 102 ∷ [] }
    ensures last { members_of (codes "a-") ≡ only 97 ∷ only 45 ∷ [] }
    ensures again { members_of (codes "a-b--d") ≡ range 97 98 ∷ range 45 100 ∷ [] }
{}

/// A glob that begins with braces fits what a glob fits that has one of their values in their place.
pub fn braces_stand_for_their_values()
    ensures { (inner glob path : List ℕ) → HasNone 46 inner → HasNone 125 inner
        → All IsClosed (slice_split is_comma inner)
        → (FitsPath (123 ∷ (inner ++ 125 ∷ glob)) path
        ↔ FitsSome (slice_split is_comma inner) glob path) }
{}

/// Which values have closed lists: those made of bytes outside brackets, and of whole lists.
pub fn values_are_closed()
    ensures none { IsClosed [] }
    ensures byte { (b : ℕ) → (b == 46) ≡ false → (b == 91) ≡ false → (b == 123) ≡ false
        → IsClosed (b ∷ []) }
    ensures list { (members : List ℕ)
        → HasNone 46 members → HasNone 93 members → HasNone 123 members
        → IsClosed (91 ∷ (members ++ 93 ∷ [])) }
    ensures both { (first value : List ℕ) → IsClosed first → IsClosed value
        → IsClosed (first ++ value) }
{}

/// In byte order the texts that begin with a front stand together, from the front on: none is below it, and
/// none stands behind a text above it that does not begin with it.
pub fn texts_with_one_front_stand_together()
    ensures from { (front rest : List ℕ) → slice_cmp nat_cmp (front ++ rest) front ≢ Less }
    ensures to { (front text later : List ℕ) → slice_cmp nat_cmp text front ≢ Less
        → (BeginsWith front text → ⊥) → slice_cmp nat_cmp later text ≢ Less
        → BeginsWith front later → ⊥ }
{}

/// A glob is a whole stretch of the bytes that globs may hold, with the commas that stand within braces.
pub fn globs_are_whole_stretches()
    ensures { (glob : List ℕ) → glob_fault glob ≡ None → Fills false glob }
{}
