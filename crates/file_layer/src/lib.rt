//! The files of an image, over its journal: their table, where their blocks stand, and how they change.
#![tactic(auto)]

mod answers;
mod changes;
mod files;
mod laws;
mod loading;
mod staging;

pub use block_map::FileRuns;
pub use files::{FileFault, Files, Held};
pub use laws::{files_are_shown, files_stay};
