//! The two texts that the program reads: the commands of the host and its guests, and the schedule.
#![tactic(auto)]

mod commands;
mod entries;
mod fault;
mod guest;
mod guest_text;
mod host_text;
mod keys;
mod machine_text;
mod numbers;
mod reading;
mod runs;
mod schedule;
mod schedule_words;
mod script;
mod store;
mod strings;
mod words;

pub use commands::{Commands, buffers_of};
pub use fault::{InputFault, Limit};
pub use schedule::{MOST_BYTES, Schedule, read_schedule};
pub use script::read_commands;

#[cfg(test)]
mod tests;
