//! Laws of the trees of all functions: when one of them changes, all are as they were said to be.
#![tactic(auto)]

mod laws;

pub use laws::{
    no_trees_stand_at_first, nodes_given_back_are_counted, runs_of_no_tree_may_change,
    trees_stay_when_a_leaf_goes, trees_stay_when_one_goes, trees_stay_when_one_grows,
};
