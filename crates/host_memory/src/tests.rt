use crate::{NodePool, WordMemory};
use nesc_base::{Memory, NODE_WORDS};
use std::test::Fail;

/// The first eight addresses that a pool gives, 0 where it gives none.
fn take_eight(pool: &mut NodePool) -> [u32; 8] {
    let mut addresses = [0; 8];
    for address in addresses.iter_mut() {
        *address = pool.take().unwrap_or(0);
    }
    addresses.sort_unstable();
    addresses
}

#[test]
fn pool_of_eight_gives_eight_addresses_and_then_none(rt: HostRuntime) -> Result<(), Fail> {
    let mut pool = NodePool::new(rt.alloc(), 8)?;
    assert_eq!(rt; pool.free(), 8);
    assert_eq!(rt;
        take_eight(&mut pool),
        [32, 64, 96, 128, 160, 192, 224, 256]
    );
    assert_eq!(rt; pool.take(), None);
    assert_eq!(rt; pool.free(), 0);
    Ok(())
}

fn take_and_give_back(pool: &mut NodePool) -> Option<u32> {
    let node = pool.take()?;
    pool.give_back(node);
    Some(node)
}

#[test]
fn node_that_is_given_back_is_taken_again(rt: HostRuntime) -> Result<(), Fail> {
    let mut pool = NodePool::new(rt.alloc(), 1)?;
    for _ in 0..3 {
        assert_eq!(rt; take_and_give_back(&mut pool), Some(32));
        assert_eq!(rt; pool.free(), 1);
    }
    assert_eq!(rt; pool.take(), Some(32));
    assert_eq!(rt; pool.take(), None);
    Ok(())
}

#[test]
fn reset_makes_every_node_free(rt: HostRuntime) -> Result<(), Fail> {
    let mut pool = NodePool::new(rt.alloc(), 8)?;
    for _ in 0..3 {
        pool.take();
    }
    assert_eq!(rt; pool.free(), 5);
    pool.reset();
    assert_eq!(rt; pool.free(), 8);
    assert_eq!(rt;
        take_eight(&mut pool),
        [32, 64, 96, 128, 160, 192, 224, 256]
    );
    Ok(())
}

#[test]
fn pool_of_no_node_gives_none(rt: HostRuntime) -> Result<(), Fail> {
    let mut pool = NodePool::new(rt.alloc(), 0)?;
    assert_eq!(rt; pool.take(), None);
    assert_eq!(rt; pool.free(), 0);
    Ok(())
}

fn put<M: Memory>(memory: &mut M, at: u32, word: u64) {
    if at < memory.words() {
        memory.store(at, word);
    }
}

fn word_at<M: Memory>(memory: &M, at: u32) -> Option<u64> {
    if at < memory.words() {
        return Some(memory.load(at));
    }
    None
}

fn node_at<M: Memory>(memory: &mut M, node: u32) -> Option<[u64; NODE_WORDS]> {
    let words = memory.words();
    let size = NODE_WORDS as u32;
    if node % size == 0 && size <= words && node <= words - size {
        return Some(memory.fetch(node));
    }
    None
}

#[test]
fn memory_gives_what_was_stored(rt: HostRuntime) -> Result<(), Fail> {
    let mut memory = WordMemory::new(rt.alloc(), 64)?;
    assert_eq!(rt; memory.words(), 64);
    assert_eq!(rt; word_at(&memory, 63), Some(0));
    put(&mut memory, 63, u64::MAX);
    assert_eq!(rt; word_at(&memory, 63), Some(u64::MAX));
    assert_eq!(rt; word_at(&memory, 62), Some(0));
    assert_eq!(rt; word_at(&memory, 64), None);
    Ok(())
}

#[test]
fn node_at_the_end_is_fetched_whole(rt: HostRuntime) -> Result<(), Fail> {
    let mut memory = WordMemory::new(rt.alloc(), 96)?;
    put(&mut memory, 63, 7);
    put(&mut memory, 64, 1);
    put(&mut memory, 95, u64::MAX);
    let mut want = [0; NODE_WORDS];
    want[0] = 1;
    want[31] = u64::MAX;
    assert_eq!(rt; node_at(&mut memory, 64), Some(want));
    assert_eq!(rt; node_at(&mut memory, 96), None);
    Ok(())
}

fn lists(memory: &WordMemory, want: &[u32]) -> bool {
    memory.fetched().is_some_and(|list| list == want)
}

#[test]
fn fetches_are_listed_in_order(rt: HostRuntime) -> Result<(), Fail> {
    let mut memory = WordMemory::new(rt.alloc(), 96)?;
    assert!(rt; lists(&memory, &[]));
    for node in [64, 32, 64] {
        assert_eq!(rt; node_at(&mut memory, node), Some([0; NODE_WORDS]));
    }
    put(&mut memory, 32, 1);
    assert_eq!(rt; word_at(&memory, 32), Some(1));
    assert!(rt; lists(&memory, &[64, 32, 64]));
    Ok(())
}
