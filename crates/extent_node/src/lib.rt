//! The words of a node of a tree in a host's memory: a leaf with runs of a file, or an inner node with the addresses
//! of other nodes.
#![tactic(auto)]

mod checks;
mod entries;
mod laws;
mod look;
mod node;
mod read;
mod rules;
mod write;

pub use checks::check_node;
pub use entries::{Entries, Entry, MOST_ENTRIES};
pub use laws::{
    nodes_have_no_bad_word, one_entry_holds_a_block, one_word_is_the_first_bad, words_are_one_node,
    words_without_a_bad_one_are_a_node,
};
pub use look::{entry_in, holding};
pub use node::{BadNode, Kind, Node};
pub use read::read_node;
pub use write::write_node;

#[cfg(test)]
mod tests;
