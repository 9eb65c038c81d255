ghost use Rattle.std.specs.Prelude.{◌≡◌, ◌↔◌, ◌⊎◌, ℕ, Bool, true, List, [], ◌++◌, Option, None};
ghost use Rattle.outside_io.specs.Image.{Image};
ghost use Rattle.metric_path.specs.Path.{path_fault};
ghost use Rattle.carbon_history.specs.Entries.{about_class};
ghost use Rattle.carbon_history.specs.declared.entry.Entry.{Entry as Event};
ghost use Rattle.carbon_model.specs.Found.{Finds, IsKnown};
ghost use Rattle.carbon_model.specs.State.{SamePart, State, picked};
ghost use Rattle.carbon_model.specs.RingFiles.{Opens, Settings};
ghost use Rattle.carbon_model.specs.Replay.{DrainsClass, DrainsSome, IsLegal, IsLegalHistory, after, replay};
ghost use Rattle.carbon_model.specs.Sound.{IsSound};

/// A front of a legal history is legal, and the rest is legal from the state after it.
pub fn fronts_are_legal()
    ensures { (s : State) (front rest : List Event) → IsLegalHistory s (front ++ rest)
        → IsLegalHistory s front × IsLegalHistory (replay s front) rest }
{}

/// The state after two lists of entries is the state after the second, from that after the first.
pub fn replay_in_parts()
    ensures { (s : State) (front rest : List Event)
        → replay s (front ++ rest) ≡ replay (replay s front) rest }
{}

/// The classes are independent: a history is legal exactly where the entries about each class are, and the part of a class in its
/// replay is that in the replay of its own entries.
pub fn classes_are_independent()
    ensures legal { (s : State) (h : List Event) → IsLegalHistory s h
        ↔ ((class : ℕ) → IsLegalHistory s (about_class class h)) }
    ensures part { (s : State) (h : List Event) (class : ℕ)
        → SamePart class (replay s h) (replay s (about_class class h)) }
{}

/// Every state in which a run may begin is sound.
pub fn openings_are_sound()
    ensures { (settings : Settings) (told : ℕ → Option Image) (s : State) → Opens settings told s
        → IsSound s }
{}

/// A legal entry leaves a sound state sound.
pub fn legal_entries_keep_states_sound()
    ensures { (s : State) (entry : Event) → IsSound s → IsLegal s entry → IsSound (after s entry) }
{}

/// Every state that a legal history reaches from an opening is sound, and has pending points and archives of legal paths alone.
pub fn runs_know_legal_paths_alone()
    ensures sound { (settings : Settings) (told : ℕ → Option Image) (s : State) (h : List Event)
        → Opens settings told s
        → IsLegalHistory s h → IsSound (replay s h) }
    ensures legal { (settings : Settings) (told : ℕ → Option Image) (s : State) (h : List Event)
        (path : List ℕ)
        → Opens settings told s → IsLegalHistory s h → IsKnown (replay s h) path → path_fault path ≡ None }
{}

/// Of a sound state a class picks nothing exactly where nothing of it is pending.
pub fn classes_pick_where_something_is_pending()
    ensures { (s : State) (class : ℕ) → IsSound s → (picked s class ≡ None)
        ↔ (s.pending class ≡ []) }
{}

/// What is drained is no choice: of two lists of drains of a class one goes on where the other ends, and two that drain the class of a
/// sound state are one.
pub fn drains_follow_from_the_state()
    ensures fronts { (s : State) (pass class now : ℕ) (xs ys : List Event)
        → DrainsSome s pass class now xs
        → DrainsSome s pass class now ys → (rest : List Event) × ((ys ≡ xs ++ rest) ⊎ (xs ≡ ys ++ rest)) }
    ensures one { (s : State) (pass class now : ℕ) (xs ys : List Event) → IsSound s
        → DrainsClass s pass class now xs
        → DrainsClass s pass class now ys → xs ≡ ys }
{}

/// The metrics that a pattern finds are one list.
pub fn found_metrics_are_one_list()
    ensures { (s : State) (fits : List ℕ → Bool) (xs ys : List (List ℕ))
        → Finds s (λ path. fits path ≡ true) xs
        → Finds s (λ path. fits path ≡ true) ys → xs ≡ ys }
{}
