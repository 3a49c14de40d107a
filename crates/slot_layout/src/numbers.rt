ghost use Rattle.std.specs.Prelude.{◌≡◌, ◌<◌, ◌≤◌, ℕ, ◌+◌, ◌*◌, ◌/◌, List, ◌++◌, length, drop};
ghost use Rattle.byteorder.specs.Endian.{little_number};
ghost use Rattle.nesc_base.specs.Block.{block_size};
ghost use Rattle.nesc_base.specs.declared.block.Block.{Block};
ghost use Rattle.slot_layout.specs.Bytes.{block_of_bytes, four_bytes, padded, spelled};
ghost use Rattle.slot_layout.specs.Whole.{AreWhole, IsWhole, numbers_in_block};

use byteorder::{ByteOrder, LittleEndian};
use nesc_base::{BLOCK_BYTES, Block};

/// How many bytes a number has.
pub const NUMBER_BYTES: usize = 4;

/// How many numbers a block has.
pub const BLOCK_NUMBERS: usize = BLOCK_BYTES / NUMBER_BYTES;

/// The number in the four bytes from `at` on.
pub fn number_in(block: &Block, at: usize) -> u32
    requires { at + 4 ≤ block_size }
    ensures number { result ≡ little_number 4 (drop at block.now.0) }
    ensures whole { IsWhole block.now }
{
    LittleEndian::read_u32(&block.0[at..])
}

/// Number `i`, counted from 0, of the numbers that stand in blocks one behind the other.
pub fn number_at(blocks: &[Block], i: usize) -> u32
    requires { i < numbers_in_block * length blocks.now }
    ensures number { AreWhole blocks.now (i / numbers_in_block)
        → result ≡ little_number 4 (drop (4 * i) (spelled (λ block. block.0) blocks.now)) }
    ensures whole { AreWhole blocks.now (i / numbers_in_block) → AreWhole blocks.now (i / numbers_in_block + 1) }
{
    number_in(
        &blocks[i / BLOCK_NUMBERS],
        NUMBER_BYTES * (i % BLOCK_NUMBERS),
    )
}

/// Puts bytes behind the first `at` bytes of a block that has zeros from there on.
pub fn put_bytes(block: &mut Block, at: usize, bytes: &[u8])
    requires { at + length bytes.now ≤ block_size }
    ensures { (front : List ℕ) → length front ≡ at → block.old ≡ block_of_bytes (padded block_size front)
        → block.new ≡ block_of_bytes (padded block_size (front ++ bytes.now)) }
{
    block.0[at..at + bytes.len()].copy_from_slice(bytes);
}

/// Puts a number behind the first `at` bytes of a block that has zeros from there on.
pub fn put_number(block: &mut Block, at: usize, number: u32)
    requires { at + 4 ≤ block_size }
    ensures { (front : List ℕ) → length front ≡ at → block.old ≡ block_of_bytes (padded block_size front)
        → block.new ≡ block_of_bytes (padded block_size (front ++ four_bytes number)) }
{
    LittleEndian::write_u32(&mut block.0[at..], number);
}
