//! Trees, and leaves of trees, are given back.
#![tactic(auto)]

mod dropping;
mod finding;
mod pruning;
mod reclaiming;
mod roots;
mod words;

pub use dropping::drop_tree;
pub use pruning::{Pruned, prune_leaf};
pub use reclaiming::reclaim;
pub use roots::Roots;
