//! What holds of all queries. The functions do nothing: what they ensure is the law.
ghost use Rattle.std.specs.Prelude.{◌≡◌, ℕ, List, Option};
ghost use Rattle.outside_io.specs.Image.{Image};
ghost use Rattle.carbon_model.specs.State.{State};
ghost use Rattle.render_need.specs.declared.need.Need.{Need};
ghost use Rattle.render_need.specs.Rows.{Rows};
ghost use Rattle.found_rows.specs.Rows.{FindsAll, HasRows, HasTooManyPoints, HasTooManySeries};

/// The metrics that needs find in a state are one list for each need. So one number says how many series are too many, and one how many values are.
pub fn what_needs_find_is_one_list()
    ensures found { (s : State) (now : ℕ) (needs : List Need) (xs ys : List (List (List ℕ)))
        → FindsAll s now needs xs → FindsAll s now needs ys → xs ≡ ys }
    ensures series { (s : State) (now : ℕ) (needs : List Need) (a b : ℕ)
        → HasTooManySeries s now needs a → HasTooManySeries s now needs b → a ≡ b }
    ensures points { (s : State) (now : ℕ) (needs : List Need) (a b : ℕ)
        → HasTooManyPoints s now needs a → HasTooManyPoints s now needs b → a ≡ b }
{}

/// A query has rows, or too many series, or too many values, and never two of these.
pub fn queries_end_in_one_way()
    ensures counts { (s : State) (now : ℕ) (needs : List Need) (a b : ℕ)
        → HasTooManySeries s now needs a → HasTooManyPoints s now needs b → ⊥ }
    ensures series { (told : ℕ → Option Image) (s : State) (now : ℕ) (needs : List Need)
        (rows : Rows) (count : ℕ)
        → HasRows told s now needs rows → HasTooManySeries s now needs count → ⊥ }
    ensures points { (told : ℕ → Option Image) (s : State) (now : ℕ) (needs : List Need)
        (rows : Rows) (count : ℕ)
        → HasRows told s now needs rows → HasTooManyPoints s now needs count → ⊥ }
{}
