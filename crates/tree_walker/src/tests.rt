use crate::{Found, WalkEnd, walk};
use extent_node::BadNode;
use nesc_base::{Area, Memory, NODE_WORDS, Run};

const AREA: Area = Area { from: 275, to: 291 };

const MEMORY_WORDS: usize = 128;

/// A memory of three nodes at 32, 64 and 96, which gives the words that it holds.
#[derive(Drop)]
struct SmallMemory {
    words: [u64; MEMORY_WORDS],
}

impl Memory for SmallMemory {
    ghost use Rattle.std.specs.Prelude.{None};

    ghost known = { λ memory. record { words = memory.words; fetched = None; bent = 0 } };

    fn words(&self) -> u32 {
        self.words.len() as u32
    }

    fn load(&self, at: u32) -> u64 {
        self.words[at as usize]
    }

    fn store(&mut self, at: u32, word: u64) {
        self.words[at as usize] = word;
    }

    fn fetch(&mut self, node: u32) -> [u64; NODE_WORDS] {
        let from = node as usize;
        let mut given = [0; NODE_WORDS];
        given.copy_from_slice(&self.words[from..from + NODE_WORDS]);
        given
    }
}

/// Puts these words at the beginning of the node at an address.
fn put(words: &mut [u64], node: usize, beginning: &[u64]) {
    for (word, first) in words.iter_mut().skip(node).zip(beginning) {
        *word = *first;
    }
}

/// The memory of the nodes that begin with these words.
fn memory_of(first: &[u64], second: &[u64], third: &[u64]) -> SmallMemory {
    let mut words = [0; MEMORY_WORDS];
    put(&mut words, 32, first);
    put(&mut words, 64, second);
    put(&mut words, 96, third);
    SmallMemory { words }
}

/// How a walk from the root ends, or `None` where no node may stand there.
fn walked<M: Memory>(memory: &mut M, root: u32, v: u32) -> Option<WalkEnd> {
    let words = memory.words();
    if root % 32 != 0 || words < 32 || root > words - 32 {
        return None;
    }
    Some(walk(memory, root, v, AREA))
}

fn end(found: Found, fetched: u32) -> Option<WalkEnd> {
    Some(WalkEnd { found, fetched })
}

fn bad(address: u32, word: u32) -> Found {
    Found::Bad(BadNode { address, word })
}

#[test]
fn node_that_leads_to_itself_is_fetched_five_times(rt: HostRuntime) {
    let mut memory = memory_of(&[2, 1, 0, 1_048_576, 32], &[], &[]);
    assert_eq!(rt; walked(&mut memory, 32, 7), end(bad(32, 0), 5));
}

#[test]
fn walk_ends_at_run_hole_and_pruned_node(rt: HostRuntime) {
    let leaf = [1, 2, 0, 2, 275, 3, 1, 290];
    let mut memory = memory_of(&[2, 2, 0, 20, 96, 20, 1_048_556, 0], &[], &leaf);
    let run = Run {
        first: 0,
        count: 2,
        place: 275,
    };
    assert_eq!(rt; walked(&mut memory, 32, 1), end(Found::Mapped(run), 2));
    assert_eq!(rt; walked(&mut memory, 32, 2), end(Found::Hole, 2));
    assert_eq!(rt; walked(&mut memory, 32, 19), end(Found::Hole, 2));
    assert_eq!(rt; walked(&mut memory, 32, 20), end(Found::Pruned, 1));
    assert_eq!(rt; walked(&mut memory, 96, 20), end(Found::Hole, 1));
    assert_eq!(rt; walked(&mut memory, 0, 1), end(Found::Pruned, 0));
}

#[test]
fn words_that_are_no_node_or_lead_astray_are_bad(rt: HostRuntime) {
    let mut memory = memory_of(&[2, 1, 5, 10, 64], &[1, 1, 0, 1, 291], &[]);
    assert_eq!(rt; walked(&mut memory, 32, 4), end(bad(32, 1), 1));
    assert_eq!(rt; walked(&mut memory, 32, 15), end(bad(32, 1), 1));
    assert_eq!(rt; walked(&mut memory, 32, 5), end(bad(64, 4), 2));
    assert_eq!(rt; walked(&mut memory, 96, 5), end(bad(96, 0), 1));
}
