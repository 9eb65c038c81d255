//! What a class is after a crash, as laws of the definitions of what a crash may leave. Of a class
//! whose drains go through the log, an image that a crash leaves at any moment starts as the replay
//! of a front of its entries, and that holds each drain whose writing had ended.
#![tactic(auto)]

mod laws;

pub use laws::{
    a_crash_leaves_a_front_of_the_drains, a_crash_of_a_start_starts_as_before,
    a_kill_leaves_a_front_of_the_drains, a_start_over_what_a_crash_left,
    an_image_without_damage_starts_as_it_reads, what_a_run_left_starts_as_it_kept,
};
