ghost use Rattle.std.specs.Prelude.{◌≡◌, ◌+◌, ◌*◌, ◌≤◌, length, map, slice_get};
ghost use Rattle.std.specs.List.{range_with_len};
ghost use Rattle.nesc_base.specs.Runs.{AreRuns};

use crate::{build_path, nodes_needed};
use host_memory::{NodePool, WordMemory};
use nesc_base::{Memory, NODE_WORDS, Run, Runs};
use std::test::Fail;

/// So many runs of one block each: every second block of a file from its first on, at places one behind the other from
/// 275 on.
#[derive(Drop)]
struct Spaced {
    count: u32,
    ghost few: { count ≤ 65536 },
}

impl Runs for Spaced {
    ghost runs = { λ spaced.
        map (λ k. record { first = 2 * k; count = 1; place = 275 + k }) (range_with_len 0 spaced.count) };

    fn count(&self) -> u32 {
        self.count
    }

    fn run(&self, k: u32) -> Option<Run> {
        if k >= self.count {
            return None;
        }
        Some(Run {
            first: 2 * k,
            count: 1,
            place: 275 + k,
        })
    }
}

/// The words of the node at an address, `None` where the memory has none there.
fn node_at<M: Memory>(memory: &mut M, node: u64) -> Option<[u64; NODE_WORDS]> {
    let (words, size) = (u64::from(memory.words()), NODE_WORDS as u64);
    if node % size != 0 || words < size || node > words - size {
        return None;
    }
    Some(memory.fetch(node as u32))
}

#[test]
fn path_to_the_first_block_is_a_leaf_under_a_root(rt: HostRuntime) -> Result<(), Fail> {
    let runs = Spaced { count: 11 };
    let mut pool = NodePool::new(rt.alloc(), 8)?;
    let mut memory = WordMemory::new(rt.alloc(), 288)?;
    assert_eq!(rt; nodes_needed(&runs, &memory, 0, 0), 2);
    let built = build_path(&runs, &mut pool, &mut memory, 0, 0);
    assert_eq!(rt; (built.lo, built.hi, built.nodes), (0, 20, 2));
    assert_eq!(rt; pool.free(), 6);
    let root = node_at(&mut memory, u64::from(built.root)).unwrap_or([0; NODE_WORDS]);
    let leaf = root[4];
    assert_eq!(rt;
        root,
        [
            2, 2, 0, 20, leaf, 20, 1_048_556, 0, 0, 0, 0, 0, 0, 0, 0, 0, 0, 0, 0, 0, 0, 0, 0, 0, 0,
            0, 0, 0, 0, 0, 0, 0,
        ]
    );
    assert_eq!(rt;
        node_at(&mut memory, leaf),
        Some([
            1, 10, 0, 1, 275, 2, 1, 276, 4, 1, 277, 6, 1, 278, 8, 1, 279, 10, 1, 280, 12, 1, 281,
            14, 1, 282, 16, 1, 283, 18, 1, 284,
        ])
    );
    Ok(())
}

#[test]
fn second_leaf_is_linked_into_the_root(rt: HostRuntime) -> Result<(), Fail> {
    let runs = Spaced { count: 11 };
    let mut pool = NodePool::new(rt.alloc(), 8)?;
    let mut memory = WordMemory::new(rt.alloc(), 288)?;
    let first = build_path(&runs, &mut pool, &mut memory, 0, 0);
    assert!(rt; first.hi == 20);
    let second = build_path(&runs, &mut pool, &mut memory, first.root, 20);
    assert_eq!(rt; (second.lo, second.hi, second.nodes), (20, 1_048_576, 1));
    assert_eq!(rt; second.root, first.root);
    let root = node_at(&mut memory, u64::from(first.root)).unwrap_or([0; NODE_WORDS]);
    let leaf = node_at(&mut memory, root[7]).unwrap_or([0; NODE_WORDS]);
    assert_eq!(rt;
        leaf,
        [
            1, 1, 20, 1, 285, 0, 0, 0, 0, 0, 0, 0, 0, 0, 0, 0, 0, 0, 0, 0, 0, 0, 0, 0, 0, 0, 0, 0,
            0, 0, 0, 0,
        ]
    );
    Ok(())
}

#[test]
fn file_with_no_run_has_one_empty_leaf_over_all_blocks(rt: HostRuntime) -> Result<(), Fail> {
    let runs = Spaced { count: 0 };
    let mut pool = NodePool::new(rt.alloc(), 8)?;
    let mut memory = WordMemory::new(rt.alloc(), 288)?;
    let built = build_path(&runs, &mut pool, &mut memory, 0, 1_048_575);
    assert_eq!(rt; (built.lo, built.hi, built.nodes), (0, 1_048_576, 1));
    let leaf = node_at(&mut memory, u64::from(built.root)).unwrap_or([9; NODE_WORDS]);
    assert_eq!(rt;
        leaf,
        [
            1, 0, 0, 0, 0, 0, 0, 0, 0, 0, 0, 0, 0, 0, 0, 0, 0, 0, 0, 0, 0, 0, 0, 0, 0, 0, 0, 0, 0,
            0, 0, 0,
        ]
    );
    Ok(())
}

#[test]
fn leaf_of_few_runs_is_the_root(rt: HostRuntime) -> Result<(), Fail> {
    let runs = Spaced { count: 2 };
    let mut pool = NodePool::new(rt.alloc(), 8)?;
    let mut memory = WordMemory::new(rt.alloc(), 288)?;
    let built = build_path(&runs, &mut pool, &mut memory, 0, 7);
    assert_eq!(rt; (built.lo, built.hi, built.nodes), (0, 1_048_576, 1));
    let leaf = node_at(&mut memory, u64::from(built.root)).unwrap_or([0; NODE_WORDS]);
    assert_eq!(rt;
        leaf,
        [
            1, 2, 0, 1, 275, 2, 1, 276, 0, 0, 0, 0, 0, 0, 0, 0, 0, 0, 0, 0, 0, 0, 0, 0, 0, 0, 0, 0,
            0, 0, 0, 0,
        ]
    );
    Ok(())
}
