ghost use Rattle.std.specs.Prelude.{◌≡◌, ◌≢◌, ◌⊎◌, ◌↔◌, ℕ, ◌<◌, ◌≤◌, length, true};
ghost use Rattle.nesc_base.specs.Memory.{IsNodeOf, node_at};
ghost use Rattle.extent_node.specs.Entries.{most_entries};
ghost use Rattle.extent_node.specs.Words.{word};
ghost use Rattle.tree_pruner.specs.Finding.{IsInner};
ghost use Rattle.tree_pruner.specs.Parts.{hanging};

use nesc_base::Memory;

// What word 0 of an inner node says.
const INNER: u64 = 2;

/// Whether an inner node stands at an address; at address 0 no node stands.
pub(crate) fn is_inner<M: Memory>(memory: &M, node: u32) -> bool
    requires { node ≢ 0 → IsNodeOf (M.known memory.now).words node }
    ensures { (result ≡ true) ↔ ((node ≢ 0) × IsInner (node_at (M.known memory.now).words node)) }
{
    node != 0 && memory.load(node) == INNER
}

/// Word `i` of the node at an address.
pub(crate) fn word_at<M: Memory>(memory: &M, node: u32, i: u32) -> u64
    requires node { IsNodeOf (M.known memory.now).words node }
    requires within { i < 32 }
    ensures { result ≡ word (node_at (M.known memory.now).words node) i }
{
    memory.load(node + i)
}

/// How many nodes may hang under the node at an address: a leaf has none.
pub(crate) fn hanging<M: Memory>(memory: &M, node: u32) -> u32
    requires node { IsNodeOf (M.known memory.now).words node }
    requires few { hanging (node_at (M.known memory.now).words node) ≤ most_entries }
    ensures { result ≡ hanging (node_at (M.known memory.now).words node) }
{
    if word_at(memory, node, 0) != INNER {
        return 0;
    }
    word_at(memory, node, 1) as u32
}

/// The address that a word is, inside the memory.
pub(crate) fn address_in<M: Memory>(memory: &M, word: u64) -> u32
    requires { word ≤ length (M.known memory.now).words }
    ensures { result ≡ word }
{
    word.min(u64::from(memory.words())) as u32
}
