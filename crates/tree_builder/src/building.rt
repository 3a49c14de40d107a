ghost use Rattle.std.specs.Prelude.{◌≡◌, ◌≢◌, ◌+◌, ◌<◌, ◌≤◌, length};
ghost use Rattle.nesc_base.specs.Files.{longest_file};
ghost use Rattle.nesc_base.specs.Memory.{IsNodeOf};
ghost use Rattle.host_memory.specs.Pool.{HasRoom, Takes, free_of};
ghost use Rattle.tree_shape.specs.Shape.{highest, width};
ghost use Rattle.tree_words.specs.Changed.{with_words};
ghost use Rattle.tree_builder.specs.Building.{BuildsPath, MayBuild};
ghost use Rattle.tree_builder.specs.Ways.{LinksPath, MakesNodes};

use crate::nodes::words_of;
use crate::way::{Way, find_way, slot_of};
use host_memory::NodePool;
use nesc_base::{Memory, NODE_WORDS, Runs};
use tree_shape::border_of;
use tree_words::{link_child, store_node};

/// What [`build_path`] built.
#[derive(Clone, Copy, Debug, PartialEq, Eq)]
pub struct Built {
    /// The address of the tree's root: the same as before, but where nothing of the tree stood.
    pub root: u32,
    /// The first block that the new leaf covers, 0 in the file's first leaf.
    pub lo: u32,
    /// The first block past those that it covers, 1,048,576 in the file's last leaf.
    pub hi: u32,
    /// How many nodes were made, 1 to 7.
    pub nodes: u32,
}

/// Builds what does not stand of the path to block `v` in the tree of these runs under the address `root`, 0 where
/// nothing of the tree stands. The words then show all that stood before and the whole path, and nothing else.
///
/// Before the call the words show a part of this tree under `root`, `v` is below 1,048,576, and its leaf does not
/// stand. The nodes that stand are taken from the pool, at least as many are free as
/// [`nodes_needed`](crate::nodes_needed) answers, and the memory has room for all nodes of the pool.
///
/// The new nodes are taken from the pool, and the lowest node of the path that stood gets the address of the highest
/// new one. No other node's words change. At most eleven runs are read for each node that is made, and some seventeen
/// to find the leaf. No memory is taken, and nothing can fail.
pub fn build_path<R: Runs, M: Memory>(
    runs: &R,
    pool: &mut NodePool,
    memory: &mut M,
    root: u32,
    v: u32,
) -> Built
    requires block { v < longest_file }
    requires may { MayBuild pool.old (M.known memory.old) root (R.runs runs.now) v }
    ensures { BuildsPath (R.runs runs.now) root v pool.old pool.new (M.known memory.old) (M.known memory.new) result }
{
    let way = find_way(runs, memory, root, v);
    let made = make_nodes(runs, pool, memory, way);
    Built {
        root: link_path(memory, way, root, made),
        lo: border_of(runs, 0, way.leaf),
        hi: border_of(runs, 0, way.leaf + 1),
        nodes: way.lacking,
    }
}

// Makes the nodes of the path that do not stand, from the leaf on up, and gives the address of the last.
fn make_nodes<R: Runs, M: Memory>(runs: &R, pool: &mut NodePool, memory: &mut M, way: Way) -> u32
    requires enough { way.lacking ≤ free_of pool.old }
    requires low { way.lacking ≤ highest + 1 }
    requires among { way.leaf < width (length (R.runs runs.now)) 0 }
    requires room { HasRoom (length (M.known memory.old).words) pool.old }
    ensures { let before = M.known memory.old in
        let after = M.known memory.new in
        MakesNodes (R.runs runs.now) way.leaf way.lacking pool.old pool.new before after result }
{
    let mut made = 0;
    for level in 0..way.lacking {
        let words = words_of(runs, level, way.leaf, made);
        made = make_node(pool, memory, &words);
    }
    made
}

// Takes a node, puts its words there, and gives its address.
fn make_node<M: Memory>(pool: &mut NodePool, memory: &mut M, words: &[u64; NODE_WORDS]) -> u32
    requires some { 0 < free_of pool.old }
    requires room { HasRoom (length (M.known memory.old).words) pool.old }
    ensures takes { Takes pool.old result pool.new }
    ensures stores { let old = M.known memory.old in
        M.known memory.new ≡ record old { words = with_words old.words result words.now } }
{
    let Some(node) = pool.take() else {
        unreachable!()
    };
    store_node(memory, node, words);
    node
}

// Links the last node that was made into the lowest of the path that stood, and gives the root's address.
fn link_path<M: Memory>(memory: &mut M, way: Way, root: u32, made: u32) -> u32
    requires low { way.lacking ≤ highest + 1 }
    requires some { 0 < way.lacking }
    requires node { way.lowest ≢ 0 → IsNodeOf (M.known memory.old).words way.lowest }
    ensures { LinksPath way root made (M.known memory.old) (M.known memory.new) result }
{
    if way.lowest == 0 {
        return made;
    }
    link_child(memory, way.lowest, slot_of(way.lacking - 1, way.leaf), made);
    root
}
