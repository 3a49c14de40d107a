ghost use Rattle.std.specs.Prelude.{◌≡◌, ◌+◌, ◌*◌, ◌<◌, Some, slice_get};
ghost use Rattle.nesc_base.specs.Memory.{IsNodeOf, Stores, node_at};
ghost use Rattle.tree_shape.specs.Shape.{fanout};
ghost use Rattle.tree_words.specs.Changed.{with_words};

use nesc_base::{Memory, NODE_WORDS};

/// Which word of an inner node has the address of its first child.
const FIRST_CHILD: u32 = 4;
/// How many words an entry has.
const ENTRY_WORDS: u32 = 3;

/// The address of child `i` of the inner node at an address, 0 where the child does not stand.
pub fn child_at<M: Memory>(memory: &M, node: u32, i: u32) -> u64
    requires node { IsNodeOf (M.known memory.now).words node }
    requires child { i < fanout }
    ensures { slice_get (node_at (M.known memory.now).words node) (4 + 3 * i) ≡ Some result }
{
    memory.load(node + FIRST_CHILD + ENTRY_WORDS * i)
}

/// Child `i` of the inner node at an address stands at this address from now on.
pub fn link_child<M: Memory>(memory: &mut M, node: u32, i: u32, child: u32)
    requires node { IsNodeOf (M.known memory.old).words node }
    requires child { i < fanout }
    ensures { Stores (node + (4 + 3 * i)) child (M.known memory.old) (M.known memory.new) }
{
    memory.store(node + FIRST_CHILD + ENTRY_WORDS * i, u64::from(child));
}

/// Puts the words of a node at an address.
pub fn store_node<M: Memory>(memory: &mut M, node: u32, words: &[u64; NODE_WORDS])
    requires { IsNodeOf (M.known memory.old).words node }
    ensures { let old = M.known memory.old in
        M.known memory.new ≡ record old { words = with_words old.words node words.now } }
{
    for (at, word) in words.iter().enumerate() {
        memory.store(node + at as u32, *word);
    }
}
