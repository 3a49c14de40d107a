//! The requests that wait for one function, each under its number.
#![tactic(auto)]

mod queue;

pub use queue::Queue;
