//! The top call of the program: it makes an image, or reads the texts, takes the steps and writes the trace.
#![tactic(auto)]

mod ending;
mod fault;
mod inputs;
mod monitor;
mod reading;
mod steps;
mod texts;
mod words;

pub use ending::Status;
pub use monitor::run;
