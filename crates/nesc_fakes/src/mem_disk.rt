ghost use Rattle.std.specs.Prelude.{◌≡◌, ◌+◌, ◌<◌, ◌≤◌, ◌↔◌, ◌⊎◌, true, false, [], ◌∷◌, ◌++◌, IsErr, OnOk};
ghost use Rattle.std.specs.Prelude.{OnErr, Contains, Some, length, take, slice_get, slice_set, slice_index_or};
ghost use Rattle.nesc_base.specs.Count.{risen};
ghost use Rattle.nesc_base.specs.Disk.{Goes, IsSettled, OrUnsynced, Unchanged, WritesAt, here, nowhere};
ghost use Rattle.nesc_base.specs.Fault.{HasCause, Rose};

use crate::torn::{drawn, torn_block};
use nesc_base::{Block, Disk, DiskFault, NoMemory};
use std::alloc::Global;
use std::marker::Model;

/// A write or a sync that the disk was asked for. `clock` is where the clock stood after it, and `before` the block
/// that stood at the place before it.
#[derive(Clone, Copy, Debug)]
pub enum Call {
    /// A write of the block at a place, which may have failed.
    Write { clock: u64, at: u32, before: Block },
    /// A sync, and whether it succeeded.
    Sync { clock: u64, done: bool },
}

impl Call {
    ghost use Rattle.std.specs.Prelude.{ℕ, List, MatchOption};
    ghost use Rattle.nesc_base.specs.declared.block.Block.{Block};
    ghost use Rattle.nesc_fakes.specs.MemDisk.{is_unsynced_by, without};

    // The block that stood at a place before this call, if it came after `k` and wrote there.
    fn before_at(&self, k: u64, at: u32) -> Option<Block>
        ensures { MatchOption result
            ((blocks : List Block) → slice_get (without k self.now blocks) at ≡ slice_get blocks at)
            (λ before. (blocks : List Block) → at < length blocks
            → slice_get (without k self.now blocks) at ≡ Some before) }
    {
        match self {
            Call::Write {
                clock,
                at: place,
                before,
            } if k < *clock && *place == at => Some(*before),
            _ => None,
        }
    }

    // Whether a place is unsynced at `k` after this call, if before it was so or not.
    fn leaves_unsynced(&self, k: u64, at: u32, was: bool) -> bool
        ensures { result ≡ is_unsynced_by k at self.now was }
    {
        match self {
            Call::Write {
                clock,
                at: place,
                ..
            } => was || (*clock <= k && *place == at),
            Call::Sync { clock, done } => was && !(*clock <= k && *done),
        }
    }
}

/// A disk in memory, of blocks of 1024 bytes. It keeps every write and sync, so that its memory grows with them, and
/// so tells what a stop at each moment could have left. It fails at the calls that it was told.
#[derive(Debug, Drop)]
pub struct MemDisk {
    blocks: Vec<Block>,
    calls: Vec<Call>,
    clock: u64,
    reads: u64,
    faults: u64,
    read_fails: Vec<u64>,
    write_fails: Vec<u64>,
}

impl Model for MemDisk {
    ghost use Rattle.std.specs.Prelude.{◌-◌, vec_len, vec_capacity};
    ghost use Rattle.nesc_fakes.specs.MemDisk.{IsSound, MemDiskState};

    ghost Value = { MemDiskState };

    ghost view = { λ d. record {
      blocks = d.blocks.items;
      calls = d.calls.items;
      clock = d.clock;
      reads = d.reads;
      faults = d.faults;
      read_fails = d.read_fails.items;
      write_fails = d.write_fails.items;
      room = vec_capacity d.calls - vec_len d.calls;
    } };

    ghost invariant = { λ d. IsSound d.blocks.items d.calls.items d.clock };
}

impl MemDisk {
    ghost use Rattle.std.specs.Prelude.{ℕ, IfOk, IsTrue, replicate};
    ghost use Rattle.nesc_base.specs.Block.{zero_block};
    ghost use Rattle.nesc_fakes.specs.MemDisk.{contents_at, fresh, put_all, unsynced, IsLeft};
    ghost use Rattle.nesc_fakes.specs.Torn.{torn_at};

    /// A disk of these blocks, of which it drops those past the first 2^32 - 1. `read_fails` lists the reads that fail,
    /// by their numbers, from 1 on, and `write_fails` the writes and the syncs, which are numbered together: the number
    /// of one of these is the clock after it. A number stands still at 2^64 - 1, so that if this one is listed, all
    /// later calls fail too.
    pub fn new(
        alloc: Global,
        mut blocks: Vec<Block>,
        read_fails: Vec<u64>,
        write_fails: Vec<u64>,
    ) -> MemDisk
        ensures { result ≡ fresh blocks.items read_fails.items write_fails.items }
    {
        blocks.truncate(u32::MAX as usize);
        MemDisk {
            blocks,
            calls: Vec::new(alloc),
            clock: 0,
            reads: 0,
            faults: 0,
            read_fails,
            write_fails,
        }
    }

    /// A disk of so many blocks of zeros but for these, each put at its place, of which these reads fail. What is put
    /// past the end is dropped. An `Err` says that there is no memory for it.
    pub fn with_blocks(
        alloc: Global,
        size: usize,
        blocks: &[(usize, Block)],
        read_fails: &[u64],
    ) -> Result<MemDisk, NoMemory>
        ensures { IfOk result (λ disk.
            disk ≡ fresh (put_all blocks.now (replicate size zero_block)) read_fails.now []) }
    {
        let mut image = vec![in alloc; Block::zero(); size]?;
        for (at, block) in blocks {
            if *at < image.len() {
                image[*at] = *block;
            }
        }
        let read_fails = Vec::from_slice(alloc, read_fails)?;
        Ok(MemDisk::new(alloc, image, read_fails, Vec::new(alloc)))
    }

    /// What the disk reads as, block by block.
    pub fn contents(&self) -> &[Block]
        ensures { result.now ≡ self.now.blocks }
    {
        &self.blocks
    }

    /// The writes and syncs that the disk was given, in order, those that failed too. One that there was no memory to
    /// keep is not among them.
    pub fn calls(&self) -> &[Call]
        ensures { result.now ≡ self.now.calls }
    {
        &self.calls
    }

    /// Whether a stop while the clock stood at `k` could have left these blocks. It never could at a clock value to
    /// come, nor in a disk of more blocks or of fewer.
    pub fn could_leave(&self, k: u64, image: &[Block]) -> bool
        ensures { IsTrue result ↔ IsLeft self.now k image.now }
    {
        if self.clock < k || image.len() != self.blocks.len() {
            return false;
        }
        for (i, block) in image.iter().enumerate() {
            let at = i as u32;
            if *block != self.block_at(k, at) && !self.is_unsynced(k, at) {
                return false;
            }
        }
        true
    }

    /// An image that a stop while the clock stood at `k` could have left. The places that were unsynced hold bytes that
    /// a generator draws from `pick` on, so that other picks give other bytes; from 0 it would draw zeros alone. An
    /// `Err` says that there is no memory for it.
    pub fn image(&self, alloc: Global, k: u64, pick: u64) -> Result<Vec<Block>, NoMemory>
        requires over { k ≤ self.now.clock }
        requires seeded { 0 < pick }
        ensures left { IfOk result (λ image. IsLeft self.now k image.items) }
        ensures torn { IfOk result (λ image. (at : ℕ) → at < length image.items
            → Contains (unsynced k self.now.calls []) at →
            slice_get image.items at ≡ Some (torn_at pick at)) }
    {
        let mut image = Vec::new(alloc);
        let mut x = pick;
        for at in 0..self.blocks.len() as u32 {
            x = drawn(x);
            image.push(self.left_at(k, at, torn_block(x)))?;
        }
        Ok(image)
    }

    // What a stop leaves at a place: this block where the place is unsynced, and else the one that stood there.
    fn left_at(&self, k: u64, at: u32, torn: Block) -> Block
        requires { at < length self.now.blocks }
        ensures torn { Contains (unsynced k self.now.calls []) at → result ≡ torn }
        ensures whole { ¬ Contains (unsynced k self.now.calls []) at
            → slice_get (contents_at self.now k) at ≡ Some result }
    {
        if self.is_unsynced(k, at) {
            torn
        } else {
            self.block_at(k, at)
        }
    }

    // The block that stood at a place when the clock stood at `k`.
    fn block_at(&self, k: u64, at: u32) -> Block
        requires { at < length self.now.blocks }
        ensures { slice_get (contents_at self.now k) at ≡ Some result }
    {
        let now = self.blocks[at as usize];
        if k == self.clock {
            return now;
        }
        for call in &self.calls {
            if let Some(before) = call.before_at(k, at) {
                return before;
            }
        }
        now
    }

    // Whether no sync had made sure of a place yet when the clock stood at `k`.
    fn is_unsynced(&self, k: u64, at: u32) -> bool
        ensures { IsTrue result ↔ Contains (unsynced k self.now.calls []) at }
    {
        let mut unsynced = false;
        for call in &self.calls {
            unsynced = call.leaves_unsynced(k, at, unsynced);
        }
        unsynced
    }
}

impl Disk for MemDisk {
    ghost use Rattle.nesc_fakes.specs.declared.mem_disk.Call.TheVariants.{Write, Sync};
    ghost use Rattle.nesc_fakes.specs.MemDisk.{AreUnsynced, Failed, known_of};
    ghost use Rattle.nesc_fakes.specs.MemDiskLaws.{reads_as_left, left_now};
    ghost use Rattle.std.proofs.Common.{refl};

    ghost known = { known_of };

    ghost reads_as_left = { λ d _ _. reads_as_left d };

    ghost reads_whole = { λ d _. refl };

    ghost left_now = { λ d image _ _ left. left_now d image left };

    ghost left_by_now = { λ d k image _ _ left. left.by_now };

    ghost keeps_itself = { λ d. tt };

    ghost keeps_on = { λ a b c _ _. tt };

    fn blocks(&self) -> u32
        ensures { result ≡ length self.now.blocks }
    {
        self.blocks.len() as u32
    }

    fn clock(&self) -> u64
        ensures { result ≡ self.now.clock }
    {
        self.clock
    }

    /// Reads the block at a place. An `Err` comes at the reads that are listed, and at no others: the buffer stays as
    /// it is, and the count of faults rises by one, up to 2^64 - 1.
    fn read(&mut self, at: u32, into: &mut Block) -> Result<(), DiskFault>
        requires { at < length self.old.blocks }
        ensures block { OnOk result (slice_get self.old.blocks at ≡ Some into.new) }
        ensures unchanged { Unchanged (known_of self.old) (known_of self.new) }
        ensures goes { Goes (known_of self.old) (known_of self.new) }
        ensures cause { HasCause self.old.faults self.new.faults (IsErr result) }

        // It fails at the reads that are listed.
        ensures listed { IsErr result ↔ Contains self.old.read_fails (risen self.old.reads) }

        // What each call leaves.
        ensures ok { OnOk result (self.new ≡ record self.old { reads = risen self.old.reads }) }
        ensures err { OnErr result
            (self.new ≡ record self.old { reads = risen self.old.reads; faults = risen self.old.faults }) }
        ensures none { OnErr result (into.new ≡ into.old) }
    {
        self.reads = self.reads.saturating_add(1);
        if self.read_fails.contains(&self.reads) {
            self.faults = self.faults.saturating_add(1);
            return Err(DiskFault);
        }
        *into = self.blocks[at as usize];
        Ok(())
    }

    /// Writes the block at a place. An `Err` comes at the calls that are listed, and where there is no memory to keep
    /// one more: the disk reads as before, and the count of faults rises by one, up to 2^64 - 1. Where the call is kept
    /// the place is unsynced from then on, as after an `Ok`, until a sync succeeds.
    fn write(&mut self, at: u32, from: &Block) -> Result<(), DiskFault>
        requires { at < length self.old.blocks }
        ensures written { OnOk result (self.new.blocks ≡ slice_set self.old.blocks at from.now) }
        ensures writes { WritesAt (here at) (known_of self.old) (known_of self.new) }
        ensures rises { Rose self.old.clock self.new.clock }
        ensures goes { Goes (known_of self.old) (known_of self.new) }
        ensures cause { HasCause self.old.faults self.new.faults (IsErr result) }

        // The place is unsynced now, besides those that were, unless there was no memory to keep the call.
        ensures unsynced { AreUnsynced self.new (OrUnsynced (here at) (known_of self.old))
            ⊎ (IsErr result × ((self.old.room ≡ 0) × AreUnsynced self.new (known_of self.old).unsynced)) }

        // It fails at the calls that are listed, and else only where the list of calls has no memory for one more.
        ensures listed { Contains self.old.write_fails (risen self.old.clock) → IsErr result }
        ensures only { IsErr result → Contains self.old.write_fails (risen self.old.clock) ⊎ (self.old.room ≡ 0) }

        // What each call leaves: one that fails is kept too, unless there is no memory for it. The block at the place
        // is written down as the one before, and `from` only stands for it past the end, where nothing is written.
        ensures ok { OnOk result (self.new ≡ record self.old {
          blocks = slice_set self.old.blocks at from.now;
          calls = self.old.calls ++ Write (risen self.old.clock) at (slice_index_or self.old.blocks at from.now) ∷ [];
          clock = risen self.old.clock;
          room = self.new.room;
        }) }
        ensures err { OnErr result
            (Failed (Write (risen self.old.clock) at (slice_index_or self.old.blocks at from.now)) self.old self.new) }
        ensures room { self.old.room + length self.old.calls ≤ self.new.room + length self.new.calls }
    {
        self.clock = self.clock.saturating_add(1);
        let before = self.blocks[at as usize];
        let call = Call::Write {
            clock: self.clock,
            at,
            before,
        };
        if self.calls.push(call).is_err() || self.write_fails.contains(&self.clock) {
            self.faults = self.faults.saturating_add(1);
            return Err(DiskFault);
        }
        self.blocks[at as usize] = *from;
        Ok(())
    }

    /// Makes sure of what was written. An `Err` comes at the calls that are listed, and where there is no memory to
    /// keep one more: what was unsynced is so still, and the count of faults rises by one, up to 2^64 - 1.
    fn sync(&mut self) -> Result<(), DiskFault>
        ensures contents { self.new.blocks ≡ self.old.blocks }
        ensures settled { OnOk result (IsSettled (known_of self.new)) }
        ensures writes { WritesAt nowhere (known_of self.old) (known_of self.new) }
        ensures rises { Rose self.old.clock self.new.clock }
        ensures goes { Goes (known_of self.old) (known_of self.new) }
        ensures cause { HasCause self.old.faults self.new.faults (IsErr result) }

        // After an `Err` what was unsynced is so still, and nothing else.
        ensures unsynced { OnErr result (AreUnsynced self.new (known_of self.old).unsynced) }

        // It fails at the calls that are listed, and else only where the list of calls has no memory for one more.
        ensures listed { Contains self.old.write_fails (risen self.old.clock) → IsErr result }
        ensures only { IsErr result → Contains self.old.write_fails (risen self.old.clock) ⊎ (self.old.room ≡ 0) }

        // What each call leaves: one that fails is kept too, unless there is no memory for it.
        ensures ok { OnOk result (self.new ≡ record self.old {
          calls = self.old.calls ++ Sync (risen self.old.clock) true ∷ [];
          clock = risen self.old.clock;
          room = self.new.room;
        }) }
        ensures err { OnErr result (Failed (Sync (risen self.old.clock) false) self.old self.new) }
        ensures room { self.old.room + length self.old.calls ≤ self.new.room + length self.new.calls }
    {
        self.clock = self.clock.saturating_add(1);
        let done = !self.write_fails.contains(&self.clock);
        let call = Call::Sync {
            clock: self.clock,
            done,
        };
        if self.calls.push(call).is_err() || !done {
            self.faults = self.faults.saturating_add(1);
            return Err(DiskFault);
        }
        Ok(())
    }
}
