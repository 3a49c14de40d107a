ghost use Rattle.std.specs.Prelude.{◌≡◌, ℕ, ◌-◌, ◌<◌, ◌≤◌, ◌^◌, Some, slice_get};
ghost use Rattle.nesc_base.specs.Files.{longest_file};
ghost use Rattle.nesc_base.specs.Memory.{IsNodeOf, node_at};
ghost use Rattle.nesc_base.specs.Runs.{AreRuns};
ghost use Rattle.tree_shape.specs.Shape.{highest};
ghost use Rattle.tree_words.specs.Shown.{ShowsTree};
ghost use Rattle.tree_builder.specs.Building.{NeedsIn};
ghost use Rattle.tree_builder.specs.Ways.{IsWayIn, slot, slot_word};

use nesc_base::{Memory, Runs};
use tree_shape::{FANOUT, leaf_over, node_over, top_of};
use tree_words::child_at;

/// How far the path from the root to the leaf over a block stands. Nodes stand from the root on down.
#[derive(Clone, Copy, Debug, PartialEq, Eq)]
pub struct Way {
    /// The root's level, 0 to 6. Leaves are level 0.
    pub top: u32,
    /// The number of the leaf over the block, among the leaves of the tree in rising order.
    pub leaf: u32,
    /// How many nodes of the path do not stand, which are the lowest, 0 to 7.
    pub lacking: u32,
    /// The address of the lowest that stands, 0 where none does.
    pub lowest: u32,
}

/// How many nodes of the path to block `v` do not stand in the tree of these runs under the address `root`, 0 to 7: as
/// many must be free for [`build_path`](crate::build_path). Under address 0 nothing stands.
///
/// Before the call the words show a part of this tree under `root`, and `v` is below 1,048,576. Of each inner node of
/// the path that stands one word is read, and nothing is fetched.
pub fn nodes_needed<R: Runs, M: Memory>(runs: &R, memory: &M, root: u32, v: u32) -> u32
    requires block { v < longest_file }
    requires shows { ShowsTree (M.known memory.now).words root (R.runs runs.now) }
    ensures { NeedsIn (M.known memory.now).words root (R.runs runs.now) v result }
{
    find_way(runs, memory, root, v).lacking
}

/// Goes down from a root to the leaf over a block as far as the nodes stand.
pub fn find_way<R: Runs, M: Memory>(runs: &R, memory: &M, root: u32, v: u32) -> Way
    requires block { v < longest_file }
    requires shows { ShowsTree (M.known memory.now).words root (R.runs runs.now) }
    ensures way { IsWayIn (M.known memory.now).words root (R.runs runs.now) v result }
    ensures are { AreRuns (R.runs runs.now) }
{
    // Asked, so that it is known that an address is a number of 32 bits.
    let _words = memory.words();
    let top = top_of(runs.count());
    let mut way = Way {
        top,
        leaf: leaf_over(runs, v),
        lacking: top + 1,
        lowest: 0,
    };
    let mut next = root;
    while next != 0 {
        way.lacking -= 1;
        way.lowest = next;
        next = next_below(memory, way);
    }
    way
}

// The address below the lowest node that stands on the way to the leaf, 0 where that node is the leaf.
fn next_below<M: Memory>(memory: &M, way: Way) -> u32
    requires node { 0 < way.lacking → IsNodeOf (M.known memory.now).words way.lowest }
    requires low { way.lacking ≤ highest }
    requires small { let at = slot_word (slot (way.lacking - 1) way.leaf) in
        (address : ℕ) → 0 < way.lacking → slice_get (node_at (M.known memory.now).words way.lowest) at ≡ Some address
        → address < 2 ^ 32 }
    ensures leaf { way.lacking ≡ 0 → result ≡ 0 }
    ensures inner { let at = slot_word (slot (way.lacking - 1) way.leaf) in
        0 < way.lacking → slice_get (node_at (M.known memory.now).words way.lowest) at ≡ Some result }
{
    if way.lacking == 0 {
        return 0;
    }
    child_at(memory, way.lowest, slot_of(way.lacking - 1, way.leaf)) as u32
}

/// Which child of the node above it is the node of a level that leads to a leaf.
pub fn slot_of(level: u32, leaf: u32) -> u32
    requires { level ≤ highest }
    ensures { result ≡ slot level leaf }
{
    node_over(level, leaf) % FANOUT
}
