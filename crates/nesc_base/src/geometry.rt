ghost use Rattle.std.specs.Prelude.{◌≡◌, ◌≤◌};
ghost use Rattle.nesc_base.specs.Geometry as geo;

use crate::BLOCK_BYTES;

/// How an image's blocks are divided: the superblock, four slots of the journal, the table of files, the map of
/// owners and the data blocks, in this order.
#[derive(Clone, Copy, Debug, PartialEq, Eq)]
pub struct Geometry {
    /// The version of the layout: 1.
    pub version: u32,
    /// How many data blocks there are: 16 to 65,536.
    pub blocks: u32,
    /// How many data blocks may be changed between two commits: 64 to 1,024.
    pub slack: u32,
}

impl Geometry {
    /// How few data blocks there may be.
    pub const LEAST_BLOCKS: u32 = 16;

    /// How many data blocks there may be.
    pub const MOST_BLOCKS: u32 = 65_536;

    /// How few data blocks may be changed between two commits.
    pub const LEAST_SLACK: u32 = 64;

    /// How many data blocks may be changed between two commits.
    pub const MOST_SLACK: u32 = 1_024;

    /// How many data blocks a map block has the owners of.
    pub const BLOCK_OWNERS: u32 = 128;

    /// How many map blocks there may be.
    pub const MOST_MAP_BLOCKS: u32 = Geometry::MOST_BLOCKS / Geometry::BLOCK_OWNERS;

    /// How many blocks the table has.
    fn table_blocks(&self) -> u32
        ensures { result ≡ geo.table_blocks self.now }
    {
        1
    }

    /// How many blocks the map has.
    fn map_blocks(&self) -> u32
        requires { geo.IsGeometry self.now }
        ensures { result ≡ geo.map_blocks self.now }
    {
        self.blocks.div_ceil(Geometry::BLOCK_OWNERS)
    }

    /// How many data blocks a slot has.
    pub fn slot_room(&self) -> u32
        requires { geo.IsGeometry self.now }
        ensures { result ≡ geo.slot_room self.now }
    {
        self.slack + self.map_blocks() + self.table_blocks()
    }

    /// How many blocks a slot's list has.
    pub fn list_blocks(&self) -> u32
        requires { geo.IsGeometry self.now }
        ensures { result ≡ geo.list_blocks self.now }
    {
        (4 + 4 * self.slot_room()).div_ceil(BLOCK_BYTES as u32)
    }

    /// How many blocks a slot has.
    fn slot_blocks(&self) -> u32
        requires { geo.IsGeometry self.now }
        ensures { result ≡ geo.slot_blocks self.now }
    {
        1 + self.list_blocks() + self.slot_room()
    }

    /// Where slot `k` begins, with `k` from 1 to 4.
    pub fn slot_at(&self, k: u32) -> u32
        requires sizes { geo.IsGeometry self.now }
        requires some { 1 ≤ k }
        requires within { k ≤ 4 }
        ensures { result ≡ geo.slot_at self.now k }
    {
        1 + (k - 1) * self.slot_blocks()
    }

    /// Where the table begins.
    pub fn table_at(&self) -> u32
        requires { geo.IsGeometry self.now }
        ensures { result ≡ geo.table_at self.now }
    {
        1 + 4 * self.slot_blocks()
    }

    /// Where the map begins.
    pub fn map_at(&self) -> u32
        requires { geo.IsGeometry self.now }
        ensures { result ≡ geo.map_at self.now }
    {
        self.table_at() + self.table_blocks()
    }

    /// Where the data blocks begin.
    pub fn area_from(&self) -> u32
        requires { geo.IsGeometry self.now }
        ensures { result ≡ geo.area_from self.now }
    {
        self.map_at() + self.map_blocks()
    }

    /// How many blocks an image has.
    pub fn total(&self) -> u32
        requires { geo.IsGeometry self.now }
        ensures { result ≡ geo.total self.now }
    {
        self.area_from() + self.blocks
    }
}
