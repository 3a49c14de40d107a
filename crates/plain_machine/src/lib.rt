//! The plain machine: what each step does to whole files and functions, and what it says of it.
#![tactic(auto)]

mod outcome;
mod setting;

pub use outcome::{Answer, Built, Handled, How, Outcome};
pub use setting::Setting;
