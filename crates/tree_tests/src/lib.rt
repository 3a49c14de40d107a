//! Trees of runs as a caller meets them: built, walked, pruned and given back, in one memory and one pool. Nothing of
//! the machine stands on this crate: its tests cross the crates below it, and a benchmark of walks uses it.
#![tactic(auto)]

mod plain_runs;
mod planting;

pub use plain_runs::PlainRuns;
pub use planting::{AREA, Planting};

#[cfg(test)]
mod deep;
#[cfg(test)]
mod eleven;
#[cfg(test)]
mod forest;
#[cfg(test)]
mod plain_tree;
#[cfg(test)]
mod reclaiming;
#[cfg(test)]
mod small;
