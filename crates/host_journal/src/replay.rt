ghost use Rattle.std.specs.Prelude.{◌≡◌, ◌+◌, ◌-◌, ◌<◌, ◌≤◌, ◌^◌, ℕ, IfOk, IsErr, IsErrOf, OnOk, length, true};
ghost use Rattle.nesc_base.specs.Geometry.{IsGeometry, table_at, total};
ghost use Rattle.slot_layout.specs.Slots.{AreOpen, LacksList, blocks_from};
ghost use Rattle.host_journal.specs.Replays.{Replays};
ghost use Rattle.host_journal.specs.Replaying.{AreGates, AreJudged, AreLaid, AreLow};
ghost use Rattle.host_journal.specs.Replaying.{BringsHome, ClosesFirst, ClosesOthers, Reads};
ghost use Rattle.host_journal.specs.Sound.{IsReady};
ghost use Rattle.host_journal.specs.Starting.{Starts};
ghost use Rattle.host_journal.specs.declared.journal.StartFault.TheVariants as fault;

use crate::commit::write_synced;
use crate::journal::StartFault;
use nesc_base::{Block, Disk, DiskFault, Geometry, NoMemory};
use slot_layout::{SLOTS, is_open, list_of};
use std::alloc::Global;

/// The replay of the slots that a stop left open, with the memory for it.
#[derive(Drop)]
pub(crate) struct Replay {
    geometry: Geometry,
    // room for the blocks of a list, and for its targets
    list: Vec<Block>,
    pub targets: Vec<u32>,
    // for each place from the table on where in the slots its block stands, or 0
    sources: Vec<u32>,
}

impl Replay {
    /// The memory for a replay. An `Err` says that there is none.
    pub fn new(alloc: Global, geometry: Geometry) -> Result<Replay, NoMemory>
        requires { IsGeometry geometry }
        ensures geometry { IfOk result (λ replay. replay.geometry ≡ geometry) }
        ensures ready { IfOk result IsReady }
    {
        let places = geometry.total() - geometry.table_at();
        Ok(Replay {
            geometry,
            list: vec![in alloc; Block::zero(); geometry.list_blocks() as usize]?,
            targets: vec![in alloc; 0; geometry.slot_room() as usize]?,
            sources: vec![in alloc; 0; places as usize]?,
        })
    }

    /// Makes sure of what was written, and replays the slots that a stop left open.
    pub fn start<D: Disk>(&mut self, disk: &mut D) -> Result<(), StartFault>
        requires ready { IsReady self.old }
        requires enough { total self.old.geometry ≤ (D.known disk.old).size }
        ensures starts { Starts D.known self.old.geometry disk.old disk.new result }
        ensures ready { IsReady self.new }
        ensures geometry { self.new.geometry ≡ self.old.geometry }
        ensures keeps { D.keeps disk.old disk.new }
    {
        disk.sync()?;
        self.run(disk)
    }

    /// Replays the slots up to the first gate that is closed, and closes all gates.
    fn run<D: Disk>(&mut self, disk: &mut D) -> Result<(), StartFault>
        requires ready { IsReady self.old }
        requires enough { total self.old.geometry ≤ (D.known disk.old).size }
        ensures replays { Replays self.old.geometry (D.known disk.old) (D.known disk.new) result }
        ensures ready { IsReady self.new }
        ensures geometry { self.new.geometry ≡ self.old.geometry }
        ensures keeps { D.keeps disk.old disk.new }
    {
        let opened = read_gates(disk, self.geometry)?;
        self.close_first(disk, &opened)?;
        close_others(disk, self.geometry, &opened)?;
        Ok(())
    }

    /// Replays the slots where the first gate is open, and closes it.
    fn close_first<D: Disk>(&mut self, disk: &mut D, opened: &[bool; 4]) -> Result<(), StartFault>
        requires ready { IsReady self.old }
        requires enough { total self.old.geometry ≤ (D.known disk.old).size }
        requires gates { (D.known disk.old).tells ≡ true
            → AreGates self.old.geometry (D.known disk.old).contents opened.now }
        ensures closes { ClosesFirst self.old.geometry (D.known disk.old) (D.known disk.new) result }
        ensures ready { IsReady self.new }
        ensures geometry { self.new.geometry ≡ self.old.geometry }
        ensures keeps { D.keeps disk.old disk.new }
    {
        if !opened[0] {
            return Ok(());
        }
        self.judge(disk, opened)?;
        self.write_home(disk)?;
        disk.sync()?;
        // The first gate closes before the others, since an older slot would be replayed over newer blocks.
        write_synced(disk, self.geometry.slot_at(1), &Block::zero())?;
        Ok(())
    }

    /// Finds where the block for each place stands, or the first slot that has no list.
    fn judge<D: Disk>(&mut self, disk: &mut D, opened: &[bool; 4]) -> Result<(), StartFault>
        requires ready { IsReady self.old }
        requires enough { total self.old.geometry ≤ (D.known disk.old).size }
        requires gates { (D.known disk.old).tells ≡ true
            → AreGates self.old.geometry (D.known disk.old).contents opened.now }
        ensures judged { (D.known disk.old).tells ≡ true
            → OnOk result (AreJudged self.old.geometry (D.known disk.old).contents self.new.sources.items) }
        ensures lacks { (D.known disk.old).tells ≡ true → (block : ℕ) → IsErrOf result (fault.BadList block)
            → LacksList self.old.geometry (D.known disk.old).contents block }
        ensures reads { Reads (D.known disk.old) (D.known disk.new) (IsErrOf result (fault.Disk _)) }
        ensures ready { IsReady self.new }
        ensures low { OnOk result (AreLow self.old.geometry self.new.sources.items) }
        ensures geometry { self.new.geometry ≡ self.old.geometry }
        ensures keeps { D.keeps disk.old disk.new }
    {
        self.sources.fill(0);
        for k in 1..=SLOTS {
            if !opened[k as usize - 1] {
                return Ok(());
            }
            self.judge_slot(disk, k)?;
        }
        Ok(())
    }

    /// Judges the list of one more slot, and notes where its blocks stand, over those of the slots before it.
    fn judge_slot<D: Disk>(&mut self, disk: &mut D, k: u32) -> Result<(), StartFault>
        requires ready { IsReady self.old }
        requires low { AreLow self.old.geometry self.old.sources.items }
        requires enough { total self.old.geometry ≤ (D.known disk.old).size }
        requires some { 1 ≤ k }
        requires within { k ≤ 4 }
        ensures judged { (D.known disk.old).tells ≡ true → AreOpen self.old.geometry (D.known disk.old).contents k
            → AreLaid self.old.geometry (D.known disk.old).contents (k - 1) self.old.sources.items
            → OnOk result (AreLaid self.old.geometry (D.known disk.old).contents k self.new.sources.items) }
        ensures lacks { (D.known disk.old).tells ≡ true → AreOpen self.old.geometry (D.known disk.old).contents k
            → AreLaid self.old.geometry (D.known disk.old).contents (k - 1) self.old.sources.items
            → (block : ℕ) → IsErrOf result (fault.BadList block)
            → LacksList self.old.geometry (D.known disk.old).contents block }
        ensures reads { Reads (D.known disk.old) (D.known disk.new) (IsErrOf result (fault.Disk _)) }
        ensures ready { IsReady self.new }
        ensures low { OnOk result (AreLow self.old.geometry self.new.sources.items) }
        ensures geometry { self.new.geometry ≡ self.old.geometry }
        ensures keeps { D.keeps disk.old disk.new }
    {
        let list_at = self.geometry.slot_at(k) + 1;
        read_list(disk, list_at, &mut self.list)?;
        let Some(count) = list_of(&self.list, self.geometry, &mut self.targets) else {
            return Err(StartFault::BadList { block: list_at });
        };
        let data_at = list_at + self.geometry.list_blocks();
        let table_at = self.geometry.table_at();
        for i in 0..count {
            let target = self.targets[i as usize];
            self.sources[(target - table_at) as usize] = data_at + i;
        }
        Ok(())
    }

    /// Writes the block for each place that a slot has one for, in rising order.
    fn write_home<D: Disk>(&self, disk: &mut D) -> Result<(), DiskFault>
        requires ready { IsReady self.now }
        requires low { AreLow self.now.geometry self.now.sources.items }
        requires enough { total self.now.geometry ≤ (D.known disk.old).size }
        ensures brings { BringsHome self.now.geometry self.now.sources.items (D.known disk.old)
            (D.known disk.new) result }
        ensures keeps { D.keeps disk.old disk.new }
    {
        let table_at = self.geometry.table_at();
        let mut block = Block::zero();
        for i in 0..self.sources.len() {
            let source = self.sources[i];
            if source != 0 {
                disk.read(source, &mut block)?;
                disk.write(table_at + i as u32, &block)?;
            }
        }
        Ok(())
    }
}

/// Which of the gates are open.
fn read_gates<D: Disk>(disk: &mut D, geometry: Geometry) -> Result<[bool; 4], DiskFault>
    requires sizes { IsGeometry geometry }
    requires enough { total geometry ≤ (D.known disk.old).size }
    ensures gates { (D.known disk.old).tells ≡ true → IfOk result (AreGates geometry (D.known disk.old).contents) }
    ensures reads { Reads (D.known disk.old) (D.known disk.new) (IsErr result) }
    ensures keeps { D.keeps disk.old disk.new }
{
    let mut opened = [false; 4];
    let mut gate = Block::zero();
    for k in 1..=SLOTS {
        disk.read(geometry.slot_at(k), &mut gate)?;
        opened[k as usize - 1] = is_open(&gate);
    }
    Ok(opened)
}

/// Reads the blocks of a list from a place on.
fn read_list<D: Disk>(disk: &mut D, list_at: u32, list: &mut [Block]) -> Result<(), DiskFault>
    requires within { list_at + length list.old ≤ (D.known disk.old).size }
    requires fits { list_at + length list.old < 2 ^ 32 }
    ensures list { (D.known disk.old).tells ≡ true
        → OnOk result (list.new ≡ blocks_from (D.known disk.old).contents list_at (length list.old)) }
    ensures reads { Reads (D.known disk.old) (D.known disk.new) (IsErr result) }
    ensures keeps { D.keeps disk.old disk.new }
{
    for b in 0..list.len() {
        disk.read(list_at + b as u32, &mut list[b])?;
    }
    Ok(())
}

/// Closes those of the gates behind the first that are open, in rising order.
fn close_others<D: Disk>(
    disk: &mut D,
    geometry: Geometry,
    opened: &[bool; 4],
) -> Result<(), DiskFault>
    requires sizes { IsGeometry geometry }
    requires enough { total geometry ≤ (D.known disk.old).size }
    ensures closes { ClosesOthers geometry opened.now (D.known disk.old) (D.known disk.new) result }
    ensures keeps { D.keeps disk.old disk.new }
{
    let mut closed = false;
    for k in 2..=SLOTS {
        if opened[k as usize - 1] {
            disk.write(geometry.slot_at(k), &Block::zero())?;
            closed = true;
        }
    }
    if closed { disk.sync() } else { Ok(()) }
}
