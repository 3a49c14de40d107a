//! The machine while it runs over a disk: its files, its functions, and one step for each event.
#![tactic(auto)]

mod commits;
mod fault;
mod functions;
mod handling;
mod opening;
mod requests;
mod serving;
mod session;

pub use fault::StepFault;
pub use plain_machine::{Answer, Built, Handled, How, Outcome, Setting};
pub use session::Session;
