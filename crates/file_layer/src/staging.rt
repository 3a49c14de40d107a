ghost use Rattle.std.specs.Prelude.{◌≡◌, ◌+◌, ◌-◌, ◌*◌, ◌<◌, ◌≤◌, ℕ, MatchOption, Some, None};
ghost use Rattle.std.specs.Prelude.{drop, length, slice_get, slice_set, false, replicate, take};
ghost use Rattle.nesc_base.specs.Geometry.{block_owners, map_blocks, most_map_blocks, table_at};
ghost use Rattle.block_map.specs.Map.{IsFull, IsLowestFree, IsPlace, IsUnheld, StandsAt, with_owner};
ghost use Rattle.image_layout.specs.Owners.{owner_block};
ghost use Rattle.image_layout.specs.Table.{table_block};
ghost use Rattle.host_journal.specs.Journal.{staging};
ghost use Rattle.file_layer.specs.Changing.{GoesOn};
ghost use Rattle.file_layer.specs.Layer.{Fits, IsLayer, IsUsed, entry_of, owners_of};
ghost use Rattle.file_layer.specs.Staging.{StagesMap, marking};
ghost use Rattle.file_layer.specs.TakingBack.{TakesBack};

use crate::Files;
use host_journal::Journal;
use image_layout::{Owners, owner_block, table_block};
use nesc_base::{Block, FileNo, Geometry};

// How many map blocks there are at most.
const MOST_MAP_BLOCKS: usize = Geometry::MOST_MAP_BLOCKS as usize;

/// The map blocks whose owners have changed, so that each is staged once, whatever changes in it.
#[derive(Drop)]
pub(crate) struct Touched {
    marks: [bool; MOST_MAP_BLOCKS],
}

impl Touched {
    /// None of them.
    pub fn none() -> Touched
        ensures { result.marks ≡ replicate most_map_blocks false }
    {
        Touched {
            marks: [false; MOST_MAP_BLOCKS],
        }
    }
}

impl Files {
    // Stages the table.
    pub(crate) fn stage_table(&self, journal: &mut Journal)
        requires { Fits self.now journal.old }
        ensures { journal.new ≡ staging journal.old (table_at self.now.geometry) (table_block self.now.table) }
    {
        journal.stage(self.geometry.table_at(), &table_block(&self.table));
    }

    // Stages the map blocks that are marked.
    pub(crate) fn stage_map(&self, journal: &mut Journal, touched: &Touched)
        requires fits { Fits self.now journal.old }
        requires marks { length touched.now.marks ≡ most_map_blocks }
        ensures stages { StagesMap self.now touched.now.marks journal.old journal.new }
        ensures goes { GoesOn journal.old journal.new }
    {
        let map_at = self.geometry.map_at();
        for b in 0..self.geometry.area_from() - map_at {
            if touched.marks[b as usize] {
                journal.stage(map_at + b, &self.map_block(b));
            }
        }
    }

    // The map block of these owners.
    fn map_block(&self, b: u32) -> Block
        requires layer { IsLayer self.now }
        requires within { b < map_blocks self.now.geometry }
        ensures { result ≡ owner_block (take block_owners (drop (block_owners * b) (owners_of self.now))) }
    {
        let mut owners = Owners::empty();
        let first = Geometry::BLOCK_OWNERS * b;
        let last = self.geometry.blocks.min(first + Geometry::BLOCK_OWNERS);
        for k in first..last {
            owners.set(k - first, self.map.owner(self.geometry.area_from() + k));
        }
        owner_block(&owners)
    }

    // Gives the lowest free data block to a block that is not held, and marks its map block. `None` says that none is
    // free.
    pub(crate) fn give(&mut self, file: FileNo, v: u32, touched: &mut Touched) -> Option<u32>
        requires layer { IsLayer self.old }
        requires below { (entry : _) → entry_of self.old file.0 ≡ Some entry → v < entry.length }
        requires used { IsUsed self.old file.0 }
        requires unheld { IsUnheld self.old.map file.0 v }
        requires marks { length touched.old.marks ≡ most_map_blocks }
        ensures given { MatchOption result (IsFull self.old.map × (self.new ≡ self.old))
            (λ at. IsLowestFree self.old.map at
            × (self.new ≡ record self.old { map = with_owner self.old.map at (Some (file, v)) })) }
        ensures marked { MatchOption result (touched.new ≡ touched.old)
            (λ at. touched.new.marks ≡ marking self.old.geometry touched.old.marks at) }
        ensures layer { IsLayer self.new }
    {
        let at = self.map.give(file, v)?;
        self.mark(at, touched);
        Some(at)
    }

    // Takes back the data block of a block that is held and has the journal forget it, and marks its map block.
    pub(crate) fn give_back(
        &mut self,
        journal: &mut Journal,
        file: FileNo,
        v: u32,
        touched: &mut Touched,
    )
        requires fits { Fits self.old journal.old }
        requires marks { length touched.old.marks ≡ most_map_blocks }
        requires stands { (at : ℕ) × StandsAt self.old.map file.0 v at }
        ensures taken { TakesBack file.0 v self.old journal.old touched.old.marks self.new
            journal.new touched.new.marks }
        ensures fits { Fits self.new journal.new }
    {
        if let Some(at) = self.map.take_back(file, v) {
            journal.forget(at);
            self.mark(at, touched);
        }
    }

    // Marks the map block that has the owner of the data block at a place.
    fn mark(&self, at: u32, touched: &mut Touched)
        requires layer { IsLayer self.now }
        requires place { IsPlace self.now.map at }
        requires marks { length touched.old.marks ≡ most_map_blocks }
        ensures { touched.new.marks ≡ marking self.now.geometry touched.old.marks at }
    {
        let b = (at - self.geometry.area_from()) / Geometry::BLOCK_OWNERS;
        touched.marks[b as usize] = true;
    }
}
