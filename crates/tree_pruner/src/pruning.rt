ghost use Rattle.tree_pruner.specs.Dropping.{HasTree};
ghost use Rattle.tree_pruner.specs.Pruning.{PrunesLeaf};

use crate::finding::{Place, leaf_under};
use host_memory::NodePool;
use nesc_base::{LONGEST_FILE, Memory};
use tree_shape::HIGHEST;
use tree_words::link_child;

/// A leaf that was given back.
#[derive(Clone, Copy, Debug, PartialEq, Eq)]
pub struct Pruned {
    /// The first block that it covered.
    pub lo: u32,
    /// The first block past those that it covered.
    pub hi: u32,
    /// The address of the tree's root now: 0 where the leaf was the root.
    pub root: u32,
}

/// Gives back the leaf over block `v` of the tree under `root`. Its parent leads to no node there from now on. `None`
/// says that no leaf that stands covers the block, as none covers one past the end of every file: nothing has changed.
pub fn prune_leaf<M: Memory>(
    pool: &mut NodePool,
    memory: &mut M,
    root: u32,
    v: u32,
) -> Option<Pruned>
    requires { HasTree pool.old (M.known memory.old).words root }
    ensures { PrunesLeaf root v pool.old pool.new (M.known memory.old) (M.known memory.new) result }
{
    if v >= LONGEST_FILE {
        return None;
    }
    let whole = Place {
        node: root,
        parent: 0,
        entry: 0,
        lo: 0,
        hi: LONGEST_FILE,
    };
    let leaf = leaf_under(memory, whole, v, HIGHEST);
    if leaf.node == 0 {
        return None;
    }
    pool.give_back(leaf.node);
    let Place { lo, hi, .. } = leaf;
    if leaf.parent == 0 {
        return Some(Pruned { lo, hi, root: 0 });
    }
    link_child(memory, leaf.parent, leaf.entry, 0);
    Some(Pruned { lo, hi, root })
}
