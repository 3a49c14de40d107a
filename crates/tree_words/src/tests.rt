use crate::{child_at, link_child, store_node};
use host_memory::WordMemory;
use nesc_base::{Memory, NODE_WORDS};
use std::test::Fail;

/// An inner node with two children, which stand at 64 and 128: of the blocks from 0 to 39, and from 40 on.
const INNER: [u64; NODE_WORDS] = [
    2, 2, 0, 40, 64, 40, 1048536, 128, 0, 0, 0, 0, 0, 0, 0, 0, 0, 0, 0, 0, 0, 0, 0, 0, 0, 0, 0, 0,
    0, 0, 0, 0,
];

#[test]
fn children_stand_where_their_parent_says(rt: HostRuntime) -> Result<(), Fail> {
    let mut memory = WordMemory::new(rt.alloc(), 96)?;
    store_node(&mut memory, 32, &INNER);
    assert_eq!(rt; child_at(&memory, 32, 0), 64);
    assert_eq!(rt; child_at(&memory, 32, 1), 128);
    assert_eq!(rt; child_at(&memory, 32, 2), 0);
    Ok(())
}

#[test]
fn child_that_is_linked_stands(rt: HostRuntime) -> Result<(), Fail> {
    let mut memory = WordMemory::new(rt.alloc(), 96)?;
    store_node(&mut memory, 32, &INNER);
    link_child(&mut memory, 32, 1, 160);
    assert_eq!(rt; child_at(&memory, 32, 0), 64);
    assert_eq!(rt; child_at(&memory, 32, 1), 160);
    assert_eq!(rt; memory.load(38), 1048536);
    assert_eq!(rt; memory.load(40), 0);
    Ok(())
}

#[test]
fn node_has_the_words_that_were_stored(rt: HostRuntime) -> Result<(), Fail> {
    let mut memory = WordMemory::new(rt.alloc(), 96)?;
    store_node(&mut memory, 32, &[7; NODE_WORDS]);
    assert_eq!(rt; memory.load(31), 0);
    assert_eq!(rt; memory.load(32), 7);
    assert_eq!(rt; memory.load(63), 7);
    assert_eq!(rt; memory.load(64), 0);
    Ok(())
}
