//! What carbon does, as definitions that the contracts of the upper crates cite, with the plain data that they speak of, and
//! the laws of these definitions.
#![tactic(auto)]

mod laws;
mod series;

pub use laws::{
    classes_are_independent, classes_pick_where_something_is_pending, drains_follow_from_the_state,
    found_metrics_are_one_list, fronts_are_legal, legal_entries_keep_states_sound,
    openings_are_sound, replay_in_parts, runs_know_legal_paths_alone,
};
pub use series::{Series, Values};
