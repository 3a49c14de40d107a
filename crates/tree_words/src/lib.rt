//! What words of a host's memory show of the tree of a file's runs, and how such words are put there.
#![tactic(auto)]

mod laws;
#[cfg(test)]
mod tests;
mod words;

pub use laws::{
    leaves_go, nodes_are_apart, nodes_keep_the_rules, nodes_link, nodes_say, paths_lack,
    paths_stand, trees_stay_apart, trees_stay_shown, words_show_one_tree,
};
pub use words::{child_at, link_child, store_node};
