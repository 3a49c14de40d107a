//! The way of the device from the root of a tree in a host's memory to what the tree says of one block.
#![tactic(auto)]

mod found;
mod laws;
mod walking;

pub use found::{Found, WalkEnd};
pub use laws::{walks_end_one_way, walks_fetch_five_nodes_at_most};
pub use walking::{MOST_FETCHES, walk};

#[cfg(test)]
mod tests;
