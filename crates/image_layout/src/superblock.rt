ghost use Rattle.std.specs.Prelude.{◌≡◌, ◌↔◌, IsTrue, MatchOption, drop};
ghost use Rattle.byteorder.specs.Endian.{little_number};
ghost use Rattle.nesc_base.specs.Geometry.{IsGeometry};
ghost use Rattle.image_layout.specs.Super.{IsSuperblock, blocks_at, slack_at, version_at};

use nesc_base::{Block, Geometry};
use slot_layout::{number_in, put_bytes, put_number};

/// The version of the layout.
const VERSION: u32 = 1;

// At which bytes of the superblock the numbers stand.
const VERSION_AT: usize = 8;

const BLOCKS_AT: usize = 12;

const SLACK_AT: usize = 16;

const TOTAL_AT: usize = 20;

/// How the image is divided whose superblock this is, or `None` where the block is no superblock.
pub fn read_super(block: &Block) -> Option<Geometry>
    ensures { MatchOption result (¬ ((geometry : _) × IsSuperblock block.now geometry)) (IsSuperblock block.now) }
{
    let geometry = sizes_of(block);
    // Only the spelling of these sizes is their superblock, so the rest of the block is judged by it.
    if are_sizes(geometry) && write_super(geometry) == *block {
        Some(geometry)
    } else {
        None
    }
}

/// The superblock of an image so divided.
pub fn write_super(geometry: Geometry) -> Block
    requires { IsGeometry geometry }
    ensures { IsSuperblock result geometry }
{
    let mut block = Block::zero();
    put_bytes(&mut block, 0, b"NESCHOST");
    put_number(&mut block, VERSION_AT, geometry.version);
    put_number(&mut block, BLOCKS_AT, geometry.blocks);
    put_number(&mut block, SLACK_AT, geometry.slack);
    put_number(&mut block, TOTAL_AT, geometry.total());
    block
}

/// The sizes that stand where those of a superblock do.
fn sizes_of(block: &Block) -> Geometry
    ensures version { result.version ≡ little_number 4 (drop version_at block.now.0) }
    ensures blocks { result.blocks ≡ little_number 4 (drop blocks_at block.now.0) }
    ensures slack { result.slack ≡ little_number 4 (drop slack_at block.now.0) }
{
    Geometry {
        version: number_in(block, VERSION_AT),
        blocks: number_in(block, BLOCKS_AT),
        slack: number_in(block, SLACK_AT),
    }
}

/// Whether there may be an image of these sizes.
fn are_sizes(geometry: Geometry) -> bool
    ensures { IsTrue result ↔ IsGeometry geometry }
{
    geometry.version == VERSION
        && (Geometry::LEAST_BLOCKS..=Geometry::MOST_BLOCKS).contains(&geometry.blocks)
        && (Geometry::LEAST_SLACK..=Geometry::MOST_SLACK).contains(&geometry.slack)
}

#[cfg(test)]
mod tests {
    use super::{read_super, write_super};
    use nesc_base::Geometry;

    #[test]
    fn the_least_image(rt: HostRuntime) {
        let least = Geometry {
            version: 1,
            blocks: 16,
            slack: 64,
        };
        let block = write_super(least);
        let front = b"NESCHOST\x01\0\0\0\x10\0\0\0\x40\0\0\0\x23\x01\0\0";
        assert!(rt; block.0[..24] == front[..]);
        assert!(rt; block.0[24..].iter().all(|&byte| byte == 0));
        assert!(rt; read_super(&block) == Some(least));
        for place in 0..24 {
            let mut changed = block;
            changed.0[place] ^= 1;
            assert!(rt; read_super(&changed).is_none(), "at {place}");
        }
    }
}
