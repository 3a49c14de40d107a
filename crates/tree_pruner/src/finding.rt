ghost use Rattle.std.specs.Prelude.{◌≡◌, length};
ghost use Rattle.nesc_base.specs.Memory.{IsNodeOf, node_at};
ghost use Rattle.tree_pruner.specs.Finding.{FindsLeaf, HasPlaceOver, HasWayDown, IsEntryOver, IsPlaceBelow};

use crate::words::{address_in, is_inner, word_at};
use nesc_base::Memory;

/// Where the node of a level stands that leads to a block, or would stand.
#[derive(Clone, Copy, Debug, PartialEq, Eq)]
pub struct Place {
    /// Its address, 0 where it does not stand.
    pub node: u32,
    /// The address of the node above it, 0 above the root.
    pub parent: u32,
    /// Which entry there is its own, counted from 0.
    pub entry: u32,
    /// The first block that it covers.
    pub lo: u32,
    /// The first block past those that it covers.
    pub hi: u32,
}

/// From the place of a node that leads to block `v` down to that of the leaf, or of the first node that does not stand.
pub(crate) fn leaf_under<M: Memory>(memory: &M, place: Place, v: u32, height: u32) -> Place
    requires { HasPlaceOver (M.known memory.now).words place v height }
    ensures { FindsLeaf (M.known memory.now).words v place result }
{
    if !is_inner(memory, place.node) {
        return place;
    }
    leaf_under(memory, place_below(memory, place.node, v), v, height - 1)
}

// Where the node under an inner node stands, or would, that leads to block `v`.
fn place_below<M: Memory>(memory: &M, node: u32, v: u32) -> Place
    requires node { IsNodeOf (M.known memory.now).words node }
    requires way { HasWayDown (node_at (M.known memory.now).words node) v (length (M.known memory.now).words) }
    ensures { IsPlaceBelow (M.known memory.now).words node v result }
{
    let entry = entry_over(memory, node, v);
    let first = word_at(memory, node, 2 + 3 * entry) as u32;
    let count = word_at(memory, node, 3 + 3 * entry) as u32;
    Place {
        node: address_in(memory, word_at(memory, node, 4 + 3 * entry)),
        parent: node,
        entry,
        lo: first,
        hi: first + count,
    }
}

// Which entry of an inner node holds block `v`.
fn entry_over<M: Memory>(memory: &M, node: u32, v: u32) -> u32
    requires node { IsNodeOf (M.known memory.now).words node }
    requires way { HasWayDown (node_at (M.known memory.now).words node) v (length (M.known memory.now).words) }
    ensures { IsEntryOver (node_at (M.known memory.now).words node) v result }
{
    let block = u64::from(v);
    for i in 0..word_at(memory, node, 1) as u32 {
        let first = word_at(memory, node, 2 + 3 * i);
        if first <= block && block - first < word_at(memory, node, 3 + 3 * i) {
            return i;
        }
    }
    0
}
