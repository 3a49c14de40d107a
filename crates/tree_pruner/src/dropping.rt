ghost use Rattle.std.specs.Prelude.{◌≡◌};
ghost use Rattle.tree_pruner.specs.Dropping.{DropsTree, HasTree};
ghost use Rattle.tree_pruner.specs.Parts.{DropsPart, HasPart};

use crate::words::{address_in, hanging, word_at};
use host_memory::NodePool;
use nesc_base::Memory;
use tree_shape::HIGHEST;

/// Gives back all nodes of the tree under `root` that stand, and says how many they were. The words of the memory stay.
pub fn drop_tree<M: Memory>(pool: &mut NodePool, memory: &mut M, root: u32) -> u32
    requires { HasTree pool.old (M.known memory.old).words root }
    ensures drops { DropsTree (M.known memory.old).words root result pool.old pool.new }
    ensures memory { M.known memory.new ≡ M.known memory.old }
{
    let free = pool.free();
    drop_part(pool, memory, root, HIGHEST);
    pool.free() - free
}

// Gives back the node at an address and those under it, as many as stand: none where the address is 0.
fn drop_part<M: Memory>(pool: &mut NodePool, memory: &M, node: u32, height: u32)
    requires { HasPart pool.old (M.known memory.now).words node height }
    ensures { DropsPart (M.known memory.now).words node pool.old pool.new }
{
    if node == 0 {
        return;
    }
    for i in 0..hanging(memory, node) {
        let child = address_in(memory, word_at(memory, node, 4 + 3 * i));
        drop_part(pool, memory, child, height - 1);
    }
    pool.give_back(node);
}
