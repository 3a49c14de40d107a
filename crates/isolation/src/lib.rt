//! Isolation: what a guest sees is decided by the history of its own file alone.
#![tactic(auto)]

mod laws;

pub use laws::{a_guest_sees_its_own_file, no_foreign_bytes, the_own_history_decides};
