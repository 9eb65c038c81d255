#![tactic(auto)]
//! Globs over metric paths, with wildcards that work within one node, as `servers.web[1-4].{cpu,mem*}`.
//!
//! A glob has at most 4,096 bytes. It is nodes joined by dots, and a node is one or more pieces:
//!
//! - a byte that a node of a path may hold, which stands for itself;
//! - `*`, any row of bytes, and `?`, any one byte;
//! - `[` members `]`, one byte of the list: members are bytes that a node of a path may hold, and ranges
//!   as `a-f`. The first member is no `!`. A first `-`, and one directly before the `]`, is itself;
//! - `{` values `}`, one of the values, which commas separate: each is a row of the pieces above, and may
//!   have none.
//!
//! [`Glob::matches`] holds a glob against one path. [`GlobSearch`] holds it against many, makes long patterns ready
//! for that and learns where bytes lead in them, or remembers what came of the nodes whose trying takes long, and
//! counts its [`Work`].

mod automaton;
mod bits;
mod check;
mod cover;
mod cut;
mod fault;
mod glob;
mod glob_search;
mod groups;
mod hold_work;
mod known_sets;
mod laws;
mod node_search;
mod places;
mod positions;
mod run;
mod states;
mod tables;
mod work;

pub use fault::GlobFault;
pub use glob::Glob;
pub use glob_search::GlobSearch;
pub use laws::{
    braces_stand_for_their_values, bytes_stand_for_themselves, dashes_make_ranges,
    globs_are_whole_stretches, lists_stand_for_one_byte, texts_with_one_front_stand_together,
    values_are_closed, wildcards_stay_within_a_node,
};
pub use run::{behind_run, run_of};
pub use work::Work;
