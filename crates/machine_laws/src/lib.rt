//! Laws of the plain machine: what is so of every step and every run, by its definitions alone.
#![tactic(auto)]

mod laws;

pub use laws::{
    each_function_is_taken_in_time, every_event_has_a_step, every_run_goes_on,
    file_sets_stay_in_steps, functions_stay_sound, one_step, staged_blocks_are_counted,
};
