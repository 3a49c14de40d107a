use crate::entries::Entries;

/// What a node's entries are.
#[derive(Clone, Copy, Debug, PartialEq, Eq)]
pub enum Kind {
    /// Runs of the file.
    Leaf,
    /// Nodes below.
    Inner,
}

/// A node: its kind, and its entries.
#[derive(Debug, Drop)]
pub enum Node {
    /// A leaf: runs of the file, of which it may have none.
    Leaf(Entries),
    /// An inner node: what each node below covers, and where it stands.
    Inner(Entries),
}

/// Words that are no node.
#[derive(Clone, Copy, Debug, PartialEq, Eq)]
pub struct BadNode {
    /// The address at which they were read.
    pub address: u32,
    /// The first of them that is wrong, given those below it: 0 to 31.
    pub word: u32,
}
