use extent_node::BadNode;
use nesc_base::Run;

/// What a tree says of a block.
#[derive(Clone, Copy, Debug, PartialEq, Eq)]
pub enum Found {
    /// A leaf's entry has the block: the entry, as a run of the file.
    Mapped(Run),
    /// The leaf over the block has no entry for it.
    Hole,
    /// The node over the block does not stand.
    Pruned,
    /// The words that were met are no node, or none that leads to the block: where, and the bad word.
    Bad(BadNode),
}

/// How a walk ended.
#[derive(Clone, Copy, Debug, PartialEq, Eq)]
pub struct WalkEnd {
    /// What the tree says of the block.
    pub found: Found,
    /// How many nodes were fetched: none to five.
    pub fetched: u32,
}

/// What a walk makes of the words of a node.
#[derive(Clone, Copy)]
pub enum Verdict {
    /// It ends.
    Ends(Found),
    /// It goes on at this address.
    GoesOn(u32),
}
