ghost use Rattle.std.specs.Prelude.{◌≡◌, ◌<◌, ◌≤◌, ◌^◌, ℕ, List, ◌∷◌, MatchOption, length, slice_index, take};
ghost use Rattle.nesc_base.specs.declared.block.Block.{Block};
ghost use Rattle.nesc_base.specs.declared.geometry.Geometry.{Geometry};
ghost use Rattle.nesc_base.specs.Geometry.{IsGeometry, list_blocks, slot_room};
ghost use Rattle.slot_layout.specs.Targets.{BeginsWithList, AreTargets, IsListOf, list_block};

use crate::numbers::{BLOCK_NUMBERS, NUMBER_BYTES, number_at, put_number};
use nesc_base::{Block, Geometry};

/// Reads the list of a slot from its list blocks. It answers how many targets there are, which stand at the front
/// of `into` then, or `None` where the blocks have no list; `into` then holds anything.
pub fn list_of(blocks: &[Block], geometry: Geometry, into: &mut [u32]) -> Option<u32>
    requires sizes { IsGeometry geometry }
    requires blocks { length blocks.now ≡ list_blocks geometry }
    requires room { slot_room geometry ≤ length into.old }
    ensures { MatchOption result (¬ ((targets : _) × IsListOf geometry blocks.now targets))
        (λ count. (count ≤ length into.new) × IsListOf geometry blocks.now (take count into.new)) }
{
    let count = number_at(blocks, 0);
    if count > geometry.slot_room() {
        return None;
    }
    let total = geometry.total();
    // The targets rise, so each is at least the one before and one more.
    let mut least = geometry.table_at();
    for i in 0..count as usize {
        let target = number_at(blocks, i + 1);
        if target < least || total <= target {
            return None;
        }
        into[i] = target;
        least = target + 1;
    }
    Some(count)
}

/// Block `b` of the list of these targets, counted from 0, with zeros behind the last target.
pub fn list_block(targets: &[u32], geometry: Geometry, b: u32) -> Block
    requires sizes { IsGeometry geometry }
    requires targets { AreTargets geometry targets.now }
    requires within { b < list_blocks geometry }
    ensures { result ≡ list_block targets.now b }
{
    let mut block = Block::zero();
    let from = BLOCK_NUMBERS * b as usize;
    let numbers = (1 + targets.len()).saturating_sub(from).min(BLOCK_NUMBERS);
    for i in 0..numbers {
        put_number(&mut block, NUMBER_BYTES * i, list_number(targets, from + i));
    }
    block
}

/// Number `i` of a list, counted from 0: how many targets there are, and then each of them.
fn list_number(targets: &[u32], i: usize) -> u32
    requires fits { length targets.now < 2 ^ 32 }
    requires within { i ≤ length targets.now }
    ensures { result ≡ slice_index (length targets.now ∷ targets.now) i }
{
    if i == 0 {
        targets.len() as u32
    } else {
        targets[i - 1]
    }
}

/// A list reads back from the blocks that it needs, whatever stands in the list blocks behind them.
pub fn lists_read_back()
    ensures { (geometry : Geometry) (targets : List ℕ) (blocks : List Block) → AreTargets geometry targets
        → BeginsWithList geometry targets blocks → IsListOf geometry blocks targets }
{}

#[cfg(test)]
mod tests {
    use super::{list_block, list_of};
    use byteorder::{ByteOrder, LittleEndian};
    use nesc_base::{Block, Geometry};

    /// A block of these numbers, with something else behind them.
    fn block_of(numbers: &[u32]) -> Block
        requires { length numbers.now ≤ 256 }
    {
        let mut block = Block([0xEE; 1024]);
        for i in 0..numbers.len() {
            LittleEndian::write_u32(&mut block.0[4 * i..], numbers[i]);
        }
        block
    }

    #[test]
    fn lists(rt: HostRuntime) {
        let least = Geometry {
            version: 1,
            blocks: 16,
            slack: 64,
        };
        let mut into = [0; 289];
        assert!(rt; list_of(&[block_of(&[2, 273, 290])], least, &mut into) == Some(2));
        assert!(rt; into[..2] == [273, 290]);
        for numbers in [
            [2, 280, 280],
            [2, 281, 280],
            [2, 272, 280],
            [2, 280, 291],
            [67, 273, 274],
        ] {
            assert!(rt;
                list_of(&[block_of(&numbers)], least, &mut into).is_none(),
                "at {numbers:?}"
            );
        }

        let wide = Geometry {
            version: 1,
            blocks: 4096,
            slack: 256,
        };
        let mut numbers = [289; 290];
        for i in 1..290 {
            numbers[i] = 1200 + 14 * i as u32;
        }
        let (front, back) = numbers.split_at(256);
        let blocks = [block_of(front), block_of(back)];
        let count = list_of(&blocks, wide, &mut into);
        assert!(rt; count == Some(289));
        assert!(rt; into[..] == numbers[1..]);
        if let Some(count) = count {
            let targets = &into[..count as usize];
            assert!(rt; list_block(targets, wide, 0) == blocks[0]);
            assert!(rt; list_block(targets, wide, 1).0[..136] == blocks[1].0[..136]);
        }
    }
}
