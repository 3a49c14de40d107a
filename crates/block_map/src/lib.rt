//! Which data blocks of an image are free, and where the blocks stand that its files hold.
#![tactic(auto)]

mod free_bits;
mod held_runs;
mod map;

pub use held_runs::FileRuns;
pub use map::BlockMap;
