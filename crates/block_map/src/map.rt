ghost use Rattle.std.specs.Prelude.{◌≡◌, ◌+◌, ◌-◌, ◌<◌, ◌≤◌, ◌^◌, IfOk, MatchOption, None, Some, length, slice_get};
ghost use Rattle.nesc_base.specs.Geometry.{IsGeometry};
ghost use Rattle.block_map.specs.Map.{AreRunsIn, BlockMap, HoldsNoneFrom, IsFreeAt, IsFull, IsLastHeld};
ghost use Rattle.block_map.specs.Map.{IsLowestFree, IsMap, IsNextHeld, IsNextRun, IsPlace, IsUnheld, MayHold};
ghost use Rattle.block_map.specs.Map.{StandsAt, cleared, count_free, count_held, empty_map, with_owner};

use crate::free_bits::FreeBits;
use crate::held_runs::{FileRuns, HeldRuns};
use nesc_base::{FileNo, Geometry, MOST_FILES, NoMemory, Run};
use std::alloc::Global;
use std::marker::Model;

/// Which data blocks of an image are free, and for each other the block of a file that it holds. No block of a file
/// stands at two places.
///
/// Places are numbers of blocks of the image. A block is found by a binary search among the runs of all files, and the
/// lowest free data block by a look at words of 64 bits, from the lowest on that may have one. What is given or taken
/// back may move the runs that come later in memory.
#[derive(Drop)]
pub struct BlockMap {
    from: u32,
    // who holds each data block
    owners: Vec<Option<(FileNo, u32)>>,
    // the same by files
    runs: HeldRuns,
    // the data blocks that nobody holds, and how many they are
    free_bits: FreeBits,
    free: u32,
    // how many each file holds, by its number
    held: [u32; MOST_FILES as usize + 1],
}

impl Model for BlockMap {
    ghost use Rattle.block_map.specs.Map as value;
    ghost use Rattle.block_map.specs.Map.{map_code};
    ghost use Rattle.block_map.specs.Sound.{IsSound};
    ghost use Rattle.std.specs.Prelude.{vec_capacity};

    ghost Value = { value.BlockMap };

    ghost coded = { map_code };

    ghost view = { λ m. record { from = m.from; owners = m.owners.items } };

    ghost invariant = { λ m.
        IsSound m.from m.owners.items m.runs.runs.items (vec_capacity m.runs.runs) m.free_bits m.free m.held };
}

impl BlockMap {
    /// A map of the data blocks of images of this division, each of them free. An `Err` says that there is no memory
    /// for it. No other call takes any.
    pub fn new(alloc: Global, geometry: Geometry) -> Result<BlockMap, NoMemory>
        requires { IsGeometry geometry }
        ensures { IfOk result (λ map. map ≡ empty_map geometry) }
    {
        let blocks = geometry.blocks;
        Ok(BlockMap {
            from: geometry.area_from(),
            owners: vec![in alloc; None; blocks as usize]?,
            runs: HeldRuns::new(alloc, blocks)?,
            free_bits: FreeBits::new(alloc, blocks)?,
            free: blocks,
            held: [0; MOST_FILES as usize + 1],
        })
    }

    /// Makes every data block free.
    pub fn clear(&mut self)
        ensures { self.new ≡ cleared self.old }
    {
        self.owners.fill(None);
        self.runs.clear();
        self.free_bits.set_all();
        self.free = self.owners.len() as u32;
        self.held = [0; MOST_FILES as usize + 1];
    }

    /// How many data blocks are free.
    pub fn free(&self) -> u32
        ensures count { result ≡ count_free self.now.owners }
        ensures sound { IsMap self.now }
    {
        self.free
    }

    /// The place of the lowest free data block, or `None` where none is free.
    pub fn lowest_free(&self) -> Option<u32>
        ensures { MatchOption result (IsFull self.now) (IsLowestFree self.now) }
    {
        Some(self.from + self.free_bits.lowest()?)
    }

    /// How many blocks the file holds.
    pub fn held(&self, file: FileNo) -> u32
        ensures { result ≡ count_held file.0 self.now.owners }
    {
        self.held.get(usize::from(file.0)).copied().unwrap_or(0)
    }

    /// Where block `v` of the file stands, or `None` where the file does not hold it.
    pub fn place(&self, file: FileNo, v: u32) -> Option<u32>
        ensures { MatchOption result (IsUnheld self.now file.0 v) (StandsAt self.now file.0 v) }
    {
        self.runs.place(file, v)
    }

    /// Gives the lowest free data block to block `v` of the file, which it does not hold, and says its place, or `None`
    /// where none is free.
    pub fn give(&mut self, file: FileNo, v: u32) -> Option<u32>
        requires may { MayHold file.0 v }
        requires unheld { IsUnheld self.old file.0 v }
        ensures { MatchOption result (IsFull self.old × (self.new ≡ self.old))
            (λ at. IsLowestFree self.old at × (self.new ≡ with_owner self.old at (Some (file, v)))) }
    {
        let at = self.from + self.free_bits.seek()?;
        self.set(at, file, v);
        Some(at)
    }

    /// Gives the data block at this place, which is free, to block `v` of the file, which it does not hold.
    pub fn set(&mut self, at: u32, file: FileNo, v: u32)
        requires free { IsFreeAt self.old at }
        requires may { MayHold file.0 v }
        requires unheld { IsUnheld self.old file.0 v }
        ensures { self.new ≡ with_owner self.old at (Some (file, v)) }
    {
        let k = at - self.from;
        self.owners[k as usize] = Some((file, v));
        self.runs.add(file, v, at);
        self.free_bits.clear(k);
        self.free -= 1;
        self.held[usize::from(file.0)] += 1;
    }

    /// Takes back the data block of block `v` of the file, and says its place, or `None` where the file does not hold
    /// the block.
    pub fn take_back(&mut self, file: FileNo, v: u32) -> Option<u32>
        ensures { MatchOption result (IsUnheld self.old file.0 v × (self.new ≡ self.old))
            (λ at. StandsAt self.old file.0 v at × (self.new ≡ with_owner self.old at None)) }
    {
        let at = self.runs.take(file, v)?;
        let k = at - self.from;
        self.owners[k as usize] = None;
        self.free_bits.set(k);
        self.free += 1;
        self.held[usize::from(file.0)] -= 1;
        Some(at)
    }

    /// The first block from `from` on that the file holds, and its place, or `None` where there is none.
    pub fn next_held(&self, file: FileNo, from: u32) -> Option<(u32, u32)>
        ensures { MatchOption result (HoldsNoneFrom self.now file.0 from)
            (λ found. IsNextHeld self.now file.0 from found.0 found.1) }
    {
        let run = self.next_run(file, from)?;
        let v = run.first.max(from);
        Some((v, run.place + (v - run.first)))
    }

    /// The last block that the file holds, and its place, or `None` where it holds none.
    pub fn last_held(&self, file: FileNo) -> Option<(u32, u32)>
        ensures { MatchOption result (HoldsNoneFrom self.now file.0 0)
            (λ found. IsLastHeld self.now file.0 found.0 found.1) }
    {
        let run = self.runs.last(file)?;
        Some((run.first + (run.count - 1), run.place + (run.count - 1)))
    }

    /// The block of a file that the data block at this place holds, or `None` where it is free.
    pub fn owner(&self, at: u32) -> Option<(FileNo, u32)>
        requires { IsPlace self.now at }
        ensures { slice_get self.now.owners (at - self.now.from) ≡ Some result }
    {
        self.owners[(at - self.from) as usize]
    }

    /// The first of the file's runs that has a block from `from` on, or `None` where there is none.
    pub fn next_run(&self, file: FileNo, from: u32) -> Option<Run>
        ensures { MatchOption result (HoldsNoneFrom self.now file.0 from) (IsNextRun self.now file.0 from) }
    {
        self.runs.next(file, from)
    }

    /// All runs of the file, in rising order.
    pub fn runs(&self, file: FileNo) -> FileRuns<'_>
        ensures { AreRunsIn self.now file.0 result }
    {
        self.runs.of_file(file)
    }
}
