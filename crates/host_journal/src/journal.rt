ghost use Rattle.std.specs.Prelude.{◌≡◌, ◌+◌, ◌<◌, ◌≤◌, ℕ, List, IfOk, IfSome, IsErr};
ghost use Rattle.std.specs.Prelude.{IsOk, OnErr, OnOk, Some, false, slice_get, true};
ghost use Rattle.std.specs.FinMap.{empty, get};
ghost use Rattle.nesc_base.specs.declared.block.Block.{Block};
ghost use Rattle.nesc_base.specs.Disk.{Goes, Unchanged};
ghost use Rattle.nesc_base.specs.Fault.{HasCause};
ghost use Rattle.nesc_base.specs.Geometry.{IsGeometry, area_from, total};
ghost use Rattle.host_journal.specs.Committing.{Commits};
ghost use Rattle.host_journal.specs.Journal.{NeedsStart, forgetting, staging, started_anew};
ghost use Rattle.host_journal.specs.Kept.{IsKept, Rests};
ghost use Rattle.host_journal.specs.Staged.{MayStage, now_of};
ghost use Rattle.host_journal.specs.Starting.{Starts};
ghost use Rattle.host_journal.specs.declared.journal.StartFault.TheVariants as fault;

use crate::commit::write_commit;
use crate::replay::Replay;
use crate::staged::StagedBlocks;
use nesc_base::{Block, Disk, DiskFault, Geometry, NoMemory};
use std::alloc::Global;
use std::marker::Model;

/// Why a journal was not started.
#[derive(Clone, Copy, Debug, PartialEq, Eq)]
pub enum StartFault {
    /// The disk failed. What it holds stands for the same blocks as before; start again.
    Disk(DiskFault),
    /// A slot that is to be replayed has no list; `block` is the first block of that list. Nothing was written.
    BadList { block: u32 },
}

impl From<DiskFault> for StartFault {
    ghost from_gives = { λ disk_fault e. e ≡ fault.Disk disk_fault };

    fn from(fault: DiskFault) -> StartFault {
        StartFault::Disk(fault)
    }
}

/// The journal of an image. What is staged stands in memory alone until a commit, which makes all of it outlast a stop
/// or none of it.
///
/// Its blocks are those that the disk has kept, with what is staged laid over them.
#[derive(Drop)]
pub struct Journal {
    geometry: Geometry,
    staged: StagedBlocks,
    count: u32,
    started: bool,
    replay: Replay,
}

impl Model for Journal {
    ghost use Rattle.host_journal.specs.Journal as value;
    ghost use Rattle.host_journal.specs.Journal.{journal_code};
    ghost use Rattle.host_journal.specs.Sound.{IsSound};

    ghost Value = { value.Journal };

    ghost coded = { journal_code };

    ghost view = { λ j.
        record { geometry = j.geometry; staged = j.staged.staged; count = j.count; started = j.started } };

    ghost invariant = { λ j. IsSound j.geometry j.staged j.count j.replay };
}

impl Journal {
    /// A journal for images of this division, which is not started yet. An `Err` says that there is no memory for what
    /// can be staged at once and for a replay. No other call takes any.
    pub fn new(alloc: Global, geometry: Geometry) -> Result<Journal, NoMemory>
        requires { IsGeometry geometry }
        ensures { IfOk result (λ journal.
            journal ≡ record { geometry = geometry; staged = empty; count = 0; started = false }) }
    {
        let places = geometry.total() - geometry.table_at();
        Ok(Journal {
            geometry,
            staged: StagedBlocks::new(alloc, geometry.table_at(), places, geometry.slot_room())?,
            count: 0,
            started: false,
            replay: Replay::new(alloc, geometry)?,
        })
    }

    /// Replays what a stop left unfinished, and starts with the blocks that the disk then has kept: those that it stood
    /// for before. Nothing is staged.
    ///
    /// It syncs first. `BadList` comes exactly where a slot that is to be replayed has no list, and then nothing was
    /// written. `Disk` comes only where the disk failed. After an `Err` the journal is not started.
    pub fn start<D: Disk>(&mut self, disk: &mut D) -> Result<(), StartFault>
        requires { total self.old.geometry ≤ (D.known disk.old).size }
        ensures starts { Starts D.known self.old.geometry disk.old disk.new result }
        ensures started { OnOk result (self.new ≡ started_anew self.old) }
        ensures failed { OnErr result (NeedsStart self.old self.new) }
        ensures rests { OnOk result (Rests self.new (D.known disk.new)) }
        ensures keeps { D.keeps disk.old disk.new }
    {
        self.started = false;
        self.staged.clear();
        self.count = 0;
        self.replay.start(disk)?;
        self.started = true;
        Ok(())
    }

    /// Reads the block at a place from the table on. An `Err` may leave anything in the buffer; what is staged is read
    /// from memory, which does not fail.
    pub fn read<D: Disk>(&self, disk: &mut D, at: u32, into: &mut Block) -> Result<(), DiskFault>
        requires rests { Rests self.now (D.known disk.old) }
        requires place { MayStage self.now.geometry at }
        ensures block { (D.known disk.old).tells ≡ true
            → (kept : List Block) → IsKept self.now.geometry (D.known disk.old) kept
            → OnOk result (slice_get (now_of self.now.staged kept) at ≡ Some into.new) }
        ensures staged { IfSome (get self.now.staged at) (λ block. IsOk result × (into.new ≡ block)) }
        ensures unchanged { Unchanged (D.known disk.old) (D.known disk.new) }
        ensures cause { HasCause (D.known disk.old).faults (D.known disk.new).faults (IsErr result) }
        ensures goes { Goes (D.known disk.old) (D.known disk.new) }
        ensures keeps { D.keeps disk.old disk.new }
    {
        match self.staged.get(at) {
            Some(block) => {
                *into = *block;
                Ok(())
            }
            None => disk.read(at, into),
        }
    }

    /// Stages a copy of the block for a place from the table on. A data block counts, also where one was staged for the
    /// place before.
    pub fn stage(&mut self, at: u32, block: &Block)
        requires place { MayStage self.old.geometry at }
        requires room { area_from self.old.geometry ≤ at → self.old.count < self.old.geometry.slack }
        ensures { self.new ≡ staging self.old at block.now }
    {
        self.staged.put(at, block);
        if self.geometry.area_from() <= at {
            self.count += 1;
        }
    }

    /// Drops what is staged for a place from the table on, so that it is as the disk has kept it. What was counted
    /// stays counted.
    pub fn forget(&mut self, at: u32)
        requires { MayStage self.old.geometry at }
        ensures { self.new ≡ forgetting self.old at }
    {
        self.staged.remove(at);
    }

    /// How many data blocks more can be staged before the next commit.
    pub fn room(&self) -> u32
        ensures room { self.now.count + result ≡ self.now.geometry.slack }
    {
        self.geometry.slack - self.count
    }

    /// Makes what is staged outlast a stop, all of it or, where a stop comes before, none. It answers the clock after
    /// it. Where nothing is staged it asks nothing of the disk.
    ///
    /// An `Err` comes only where the disk failed. The journal is not started then, and what the disk holds stands for
    /// the blocks of before or of after.
    pub fn commit<D: Disk>(&mut self, disk: &mut D) -> Result<u64, DiskFault>
        requires { Rests self.old (D.known disk.old) }
        ensures started { OnOk result (self.new ≡ started_anew self.old) }
        ensures failed { OnErr result (NeedsStart self.old self.new) }
        ensures clock { IfOk result (λ clock. clock ≡ (D.known disk.new).clock) }

        ensures commits { Commits self.old.geometry self.old.staged (D.known disk.old) (D.known disk.new) result }
        ensures rests { OnOk result (Rests self.new (D.known disk.new)) }
        ensures unasked { self.old.staged ≡ empty → IsOk result × (disk.new ≡ disk.old) }
        ensures keeps { D.keeps disk.old disk.new }
    {
        if self.staged.len() == 0 {
            self.count = 0;
            return Ok(disk.clock());
        }
        self.started = false;
        // The replay's room for targets is not in use until the next start.
        let count = self.staged.sort_targets(&mut self.replay.targets);
        write_commit(
            disk,
            self.geometry,
            &self.staged,
            &self.replay.targets[..count],
        )?;
        self.started = true;
        self.staged.clear();
        self.count = 0;
        Ok(disk.clock())
    }
}
