//! Which nodes the tree of a file's runs has, which blocks each covers, and which lead to a block.
#![tactic(auto)]

mod laws;
mod shape;
#[cfg(test)]
mod tests;

pub use laws::{
    borders_rise, leaves_have_all_runs, leaves_hold_runs, levels_are_tenfold, nodes_hang,
    nodes_have_children, nodes_stand_over_runs, one_node_covers, paths_are_as_long,
    paths_lead_to_leaves, runs_are_few, the_root_covers_all, there_is_one_top, tops_of_some_trees,
    trees_are_low,
};
pub use shape::{
    FANOUT, HIGHEST, border_of, children_of, leaf_over, node_over, span_of, top_of, width_of,
};
