ghost use Rattle.std.specs.Prelude.{◌≡◌, ◌≤◌, length};
ghost use Rattle.nesc_base.specs.Fault.{Rose};
ghost use Rattle.tree_walker.specs.Walking.{IsMappedInto, IsRoot, Says, Walks, WalksOver};
ghost use Rattle.tree_walker.specs.Walking.{inner_says, leaf_says, most_fetches, run_of};

use crate::found::{Found, Verdict, WalkEnd};
use extent_node::{BadNode, Entry, Kind, check_node, holding};
use nesc_base::{Area, Memory, NODE_WORDS, Run};

/// How many nodes a walk fetches at most.
pub const MOST_FETCHES: u32 = 5;

/// Walks from the root of a tree, 0 where there is none, to what the tree says of block `v`. Each node on the way is
/// fetched once, and judged by the words that the fetch gave: a leaf's runs lie in the area. It returns over any words.
///
/// - Address 0 is `Pruned`.
/// - A leaf is `Mapped` where an entry has the block, else `Hole`.
/// - An inner node leads on by the entry that has the block.
/// - `Bad` names the first bad word of words that are no node, word 1 of an inner node no entry of which has the block,
///   and word 0 of a sixth node, which is not fetched.
pub fn walk<M: Memory>(memory: &mut M, root: u32, v: u32, area: Area) -> WalkEnd
    requires { IsRoot (M.known memory.old).words root }
    ensures few { result.fetched ≤ most_fetches }
    ensures mapped { IsMappedInto area v result.found }
    ensures given { Walks most_fetches root v area result (M.known memory.old) (M.known memory.new) }
    ensures over { let old = M.known memory.old in let new = M.known memory.new in
        ¬ Rose old.bent new.bent → WalksOver root v area result old new }
{
    walk_on(memory, root, v, area, MOST_FETCHES)
}

// Walks on from an address, with so many fetches left.
fn walk_on<M: Memory>(memory: &mut M, address: u32, v: u32, area: Area, left: u32) -> WalkEnd
    requires few { left ≤ most_fetches }
    requires root { IsRoot (M.known memory.old).words address }
    ensures few { result.fetched ≤ left }
    ensures walks { Walks left address v area result (M.known memory.old) (M.known memory.new) }
{
    if address == 0 {
        return WalkEnd {
            found: Found::Pruned,
            fetched: 0,
        };
    }
    if left == 0 {
        let found = Found::Bad(BadNode { address, word: 0 });
        return WalkEnd { found, fetched: 0 };
    }
    let words = memory.fetch(address);
    match judge(&words, address, v, memory.words(), area) {
        Verdict::Ends(found) => WalkEnd { found, fetched: 1 },
        Verdict::GoesOn(next) => {
            let end = walk_on(memory, next, v, area, left - 1);
            WalkEnd {
                found: end.found,
                fetched: 1 + end.fetched,
            }
        }
    }
}

// What the words at an address say of block `v`.
fn judge(words: &[u64; NODE_WORDS], address: u32, v: u32, memory_words: u32, area: Area) -> Verdict
    ensures { Says memory_words area v (record { address = address; given = words.now }) result }
{
    match check_node(words, address, memory_words, area) {
        Ok(Kind::Leaf) => Verdict::Ends(in_leaf(holding(words, v))),
        Ok(Kind::Inner) => below(holding(words, v), address),
        Err(bad) => Verdict::Ends(Found::Bad(bad)),
    }
}

// The run that an entry of a leaf says.
fn run_of(entry: Entry) -> Run
    ensures { result ≡ run_of entry }
{
    Run {
        first: entry.first,
        count: entry.count,
        place: entry.place,
    }
}

// What a leaf says where this entry has the block.
fn in_leaf(entry: Option<Entry>) -> Found
    ensures { result ≡ leaf_says entry }
{
    match entry {
        Some(entry) => Found::Mapped(run_of(entry)),
        None => Found::Hole,
    }
}

// Where the way goes on from an inner node where this entry has the block.
fn below(entry: Option<Entry>, address: u32) -> Verdict
    ensures { result ≡ inner_says address entry }
{
    match entry {
        Some(entry) => Verdict::GoesOn(entry.place),
        None => Verdict::Ends(Found::Bad(BadNode { address, word: 1 })),
    }
}
