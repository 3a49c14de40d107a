//! The nodes that lack on the way to a block are made in the tree of a file's runs, in a host's memory.
#![tactic(auto)]

mod building;
mod nodes;
#[cfg(test)]
mod tests;
mod way;

pub use building::{Built, build_path};
pub use way::nodes_needed;
