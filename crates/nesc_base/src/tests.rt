use crate::{BLOCK_BYTES, Block, Blocks, Geometry, LONGEST_NAME, Name, PERIOD_BYTES};
use std::test::Fail;

#[test]
fn names(rt: HostRuntime) {
    let longest = [b'n'; LONGEST_NAME];
    let too_long = [b'n'; LONGEST_NAME + 1];
    for bytes in [b"a".as_slice(), b"vm-1.disk_2", &longest] {
        assert!(rt; Name::read(bytes).is_some_and(|name| name.bytes() == bytes));
    }
    for bytes in [b"".as_slice(), b"A", b"a b", b"a/b", &too_long] {
        assert!(rt; Name::read(bytes).is_none());
    }
}

/// A block of each form in which one may be kept: zeros, eight bytes that repeat, eight that do so but for the last
/// byte, and bytes that do not repeat.
fn forms() -> [Block; 4] {
    let eight = Block::repeated(b"01234567");
    let mut torn = eight;
    torn.0[BLOCK_BYTES - 1] = 0;
    let mut rising = Block::zero();
    for (k, byte) in rising.0.iter_mut().enumerate() {
        *byte = (k % 256) as u8;
    }
    [Block::zero(), eight, torn, rising]
}

fn put(blocks: &mut Blocks, k: u32, block: &Block) {
    if k < blocks.len() {
        blocks.set(k, block);
    }
}

fn put_repeated(blocks: &mut Blocks, k: u32, bytes: &[u8; PERIOD_BYTES]) {
    if k < blocks.len() {
        blocks.set_repeated(k, bytes);
    }
}

fn holds(blocks: &Blocks, k: u32, block: &Block) -> bool {
    k < blocks.len() && blocks.get(k) == *block
}

#[test]
fn blocks_of_each_form_are_given_back(rt: HostRuntime) -> Result<(), Fail> {
    let forms = forms();
    // A buffer of which the last four blocks are filled, each in each form after another.
    let mut blocks = Blocks::zeros(rt.alloc(), 64)?;
    for shift in 0..4 {
        for k in 0..4 {
            put(&mut blocks, 60 + k, &forms[(k as usize + shift) % 4]);
        }
        for k in 0..4 {
            let want = &forms[(k as usize + shift) % 4];
            assert!(rt; holds(&blocks, 60 + k, want), "{k} by {shift}");
        }
    }
    assert_eq!(rt; blocks.len(), 64);
    assert!(rt; holds(&blocks, 59, &Block::zero()));
    Ok(())
}

#[test]
fn blocks_are_filled_again(rt: HostRuntime) -> Result<(), Fail> {
    let [zero, eight, torn, rising] = forms();
    let mut blocks = Blocks::zeros(rt.alloc(), 2)?;
    put(&mut blocks, 1, &rising);
    blocks.refill(64);
    assert_eq!(rt; blocks.len(), 64);
    assert!(rt; holds(&blocks, 1, &zero));
    put(&mut blocks, 63, &torn);
    put_repeated(&mut blocks, 1, b"01234567");
    assert!(rt; holds(&blocks, 1, &eight) && holds(&blocks, 63, &torn));
    put_repeated(&mut blocks, 63, b"01234567");
    assert!(rt; holds(&blocks, 63, &eight));
    Ok(())
}

#[test]
fn parts_of_images(rt: HostRuntime) {
    let sizes = [(16, 64), (4_096, 256), (65_536, 1_024)];
    let parts = [
        (1, 66, 69, 205, 273, 274, 275, 291),
        (2, 289, 293, 877, 1_169, 1_170, 1_202, 5_298),
        (7, 1_537, 1_546, 4_636, 6_181, 6_182, 6_694, 72_230),
    ];
    for ((blocks, slack), part) in sizes.into_iter().zip(parts) {
        let geometry = Geometry {
            version: 1,
            blocks,
            slack,
        };
        assert_eq!(rt; geometry.list_blocks(), part.0);
        assert_eq!(rt; geometry.slot_room(), part.1);
        assert_eq!(rt; geometry.slot_at(1), 1);
        assert_eq!(rt; geometry.slot_at(2), part.2);
        assert_eq!(rt; geometry.slot_at(4), part.3);
        assert_eq!(rt; geometry.table_at(), part.4);
        assert_eq!(rt; geometry.map_at(), part.5);
        assert_eq!(rt; geometry.area_from(), part.6);
        assert_eq!(rt; geometry.total(), part.7);
    }
}
