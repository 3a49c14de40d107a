ghost use Rattle.std.specs.Prelude.{◌≡◌, ◌+◌, ◌<◌, ◌≤◌, ◌^◌, IfOk, false, length, take};
ghost use Rattle.std.specs.FinMap.{contains_key, empty, get, insert, len, remove};
ghost use Rattle.std.specs.Option.{option_copied};
ghost use Rattle.host_journal.specs.Staged.{targets_of};
ghost use Rattle.host_journal.specs.Store.{IsPlaceOf};

use nesc_base::{Block, NoMemory};
use std::alloc::Global;
use std::marker::Model;

/// The blocks that are staged, each of which one look-up finds by the place that it is for. All memory is taken at
/// first.
#[derive(Drop)]
pub(crate) struct StagedBlocks {
    // the first place that a block can be staged for
    from: u32,
    // where a place's block is in `blocks`, for each place from `from` on
    index: Vec<Option<u16>>,
    // the places, one for each block
    targets: Vec<u32>,
    blocks: Vec<Block>,
    room: u32,
}

impl Model for StagedBlocks {
    ghost use Rattle.std.specs.Prelude.{length, vec_capacity};
    ghost use Rattle.host_journal.specs.Store.{AreStaged, Store, staged_as, store_code};

    ghost Value = { Store };

    ghost coded = { store_code };

    ghost view = { λ s. record {
      staged = staged_as s.targets.items s.blocks.items;
      from = s.from;
      places = length s.index.items;
      room = s.room;
    } };

    ghost invariant = { λ s. AreStaged s.from s.index.items s.targets.items s.blocks.items s.room
        (vec_capacity s.targets) (vec_capacity s.blocks) };
}

impl StagedBlocks {
    /// No blocks, with the memory for `room` of them, for as many places from `from` on. An `Err` says that there is no
    /// memory for them. No other call takes any.
    pub fn new(alloc: Global, from: u32, places: u32, room: u32) -> Result<StagedBlocks, NoMemory>
        requires fits { from + places < 2 ^ 32 }
        requires few { room < 2 ^ 16 }
        ensures { IfOk result (λ store. store ≡ record { staged = empty; from = from; places = places; room = room }) }
    {
        Ok(StagedBlocks {
            from,
            index: vec![in alloc; None; places as usize]?,
            targets: Vec::with_capacity(alloc, room as usize)?,
            blocks: Vec::with_capacity(alloc, room as usize)?,
            room,
        })
    }

    /// How many blocks are staged.
    pub fn len(&self) -> usize
        ensures count { result ≡ len self.now.staged }
        ensures within { result ≤ self.now.room }
    {
        self.targets.len()
    }

    /// The block that is staged for a place, or `None` where none is.
    pub fn get(&self, at: u32) -> Option<&Block>
        requires { IsPlaceOf self.now at }
        ensures { option_copied result ≡ get self.now.staged at }
    {
        let i = self.index[(at - self.from) as usize]?;
        Some(&self.blocks[usize::from(i)])
    }

    /// Stages a copy of the block for a place, over what was staged for it before.
    pub fn put(&mut self, at: u32, block: &Block)
        requires place { IsPlaceOf self.old at }
        requires room { contains_key self.old.staged at ≡ false → len self.old.staged < self.old.room }
        ensures { self.new ≡ record self.old { staged = insert self.old.staged at block.now } }
    {
        let place = (at - self.from) as usize;
        if let Some(i) = self.index[place] {
            self.blocks[usize::from(i)] = *block;
            return;
        }
        self.index[place] = Some(self.targets.len() as u16);
        self.targets.push_reserved(at);
        self.blocks.push_reserved(*block);
    }

    /// Nothing is staged for a place any more.
    pub fn remove(&mut self, at: u32)
        requires { IsPlaceOf self.old at }
        ensures { self.new ≡ record self.old { staged = remove self.old.staged at } }
    {
        let place = (at - self.from) as usize;
        let Some(i) = self.index[place] else {
            return;
        };
        // The last block takes the place of the one that goes.
        let last = self.targets[self.targets.len() - 1];
        self.index[(last - self.from) as usize] = Some(i);
        self.index[place] = None;
        self.targets.swap_remove(usize::from(i));
        self.blocks.swap_remove(usize::from(i));
    }

    /// Nothing is staged any more.
    pub fn clear(&mut self)
        ensures { self.new ≡ record self.old { staged = empty } }
    {
        for at in &self.targets {
            self.index[(*at - self.from) as usize] = None;
        }
        self.targets.clear();
        self.blocks.clear();
    }

    /// Puts the places that blocks are staged for at the front of `into`, in rising order, and says how many there are.
    pub fn sort_targets(&self, into: &mut [u32]) -> usize
        requires { len self.now.staged ≤ length into.old }
        ensures count { result ≡ len self.now.staged }
        ensures targets { take result into.new ≡ targets_of self.now.staged }
        ensures length { length into.new ≡ length into.old }
    {
        let count = self.targets.len();
        into[..count].copy_from_slice(&self.targets);
        into[..count].sort_unstable();
        count
    }
}
