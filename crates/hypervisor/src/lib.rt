//! The host: which file each function has, and what its commands do.
#![tactic(auto)]

mod attachments;
mod change;
mod commands;
mod needing;

pub use attachments::Attachments;
pub use change::{Change, HostDone};
pub use commands::command;
pub use needing::needs;
