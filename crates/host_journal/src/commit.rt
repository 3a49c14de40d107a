ghost use Rattle.std.specs.Prelude.{◌≡◌, ◌<◌, ◌≤◌, ◌∷◌, OnOk, [], length, true};
ghost use Rattle.nesc_base.specs.Disk.{IsSettled};
ghost use Rattle.nesc_base.specs.Geometry.{IsGeometry, total};
ghost use Rattle.slot_layout.specs.Targets.{AreTargets};
ghost use Rattle.host_journal.specs.Committing.{Commits, WritesOut, data_places, list_places, blocks_of_list};
ghost use Rattle.host_journal.specs.Staged.{fresh_of, targets_of};
ghost use Rattle.host_journal.specs.Store.{AreFor};

use crate::staged::StagedBlocks;
use nesc_base::{Block, Disk, DiskFault, Geometry};
use slot_layout::{BLOCK_NUMBERS, list_block, open_gate};

/// Writes the first slot, opens its gate, writes what is staged where it belongs and closes the gate again, with a sync
/// behind each of the four.
pub(crate) fn write_commit<D: Disk>(
    disk: &mut D,
    geometry: Geometry,
    staged: &StagedBlocks,
    targets: &[u32],
) -> Result<(), DiskFault>
    requires sizes { IsGeometry geometry }
    requires enough { total geometry ≤ (D.known disk.old).size }
    requires staged { AreFor geometry staged.now targets.now }
    ensures commits { Commits geometry staged.now.staged (D.known disk.old) (D.known disk.new) result }
    ensures keeps { D.keeps disk.old disk.new }
{
    write_list(disk, geometry, targets)?;
    write_slot(disk, geometry, staged, targets)?;
    disk.sync()?;
    // The slot counts once the gate is open, so its blocks have to last before.
    write_synced(disk, geometry.slot_at(1), &open_gate())?;
    write_home(disk, geometry, staged, targets)?;
    disk.sync()?;
    // What is home has to last before the slot counts no more.
    write_synced(disk, geometry.slot_at(1), &Block::zero())
}

/// Writes the blocks of the list that the targets need.
fn write_list<D: Disk>(disk: &mut D, geometry: Geometry, targets: &[u32]) -> Result<(), DiskFault>
    requires sizes { IsGeometry geometry }
    requires enough { total geometry ≤ (D.known disk.old).size }
    requires targets { AreTargets geometry targets.now }
    ensures writes_out { WritesOut (list_places geometry targets.now) (blocks_of_list targets.now) (D.known disk.old)
        (D.known disk.new) result }
    ensures keeps { D.keeps disk.old disk.new }
{
    let needed = (1 + targets.len()).div_ceil(BLOCK_NUMBERS) as u32;
    for b in 0..needed {
        disk.write(
            geometry.slot_at(1) + 1 + b,
            &list_block(targets, geometry, b),
        )?;
    }
    Ok(())
}

/// Writes what is staged into the slot, in the order of the targets.
fn write_slot<D: Disk>(
    disk: &mut D,
    geometry: Geometry,
    staged: &StagedBlocks,
    targets: &[u32],
) -> Result<(), DiskFault>
    requires sizes { IsGeometry geometry }
    requires enough { total geometry ≤ (D.known disk.old).size }
    requires staged { AreFor geometry staged.now targets.now }
    ensures writes_out { WritesOut (data_places geometry (length targets.now)) (fresh_of staged.now.staged)
        (D.known disk.old) (D.known disk.new) result }
    ensures keeps { D.keeps disk.old disk.new }
{
    let from = geometry.slot_at(1) + 1 + geometry.list_blocks();
    for (i, at) in targets.iter().enumerate() {
        if let Some(block) = staged.get(*at) {
            disk.write(from + i as u32, block)?;
        }
    }
    Ok(())
}

/// Writes what is staged where it belongs, in the order of the targets.
fn write_home<D: Disk>(
    disk: &mut D,
    geometry: Geometry,
    staged: &StagedBlocks,
    targets: &[u32],
) -> Result<(), DiskFault>
    requires sizes { IsGeometry geometry }
    requires enough { total geometry ≤ (D.known disk.old).size }
    requires staged { AreFor geometry staged.now targets.now }
    ensures writes_out { WritesOut targets.now (fresh_of staged.now.staged) (D.known disk.old)
        (D.known disk.new) result }
    ensures keeps { D.keeps disk.old disk.new }
{
    for at in targets {
        if let Some(block) = staged.get(*at) {
            disk.write(*at, block)?;
        }
    }
    Ok(())
}

/// Writes the block at a place and makes sure of it.
pub(crate) fn write_synced<D: Disk>(disk: &mut D, at: u32, block: &Block) -> Result<(), DiskFault>
    requires { at < (D.known disk.old).size }
    ensures writes_out { WritesOut (at ∷ []) (block.now ∷ []) (D.known disk.old) (D.known disk.new) result }
    ensures settled { (D.known disk.old).tells ≡ true → OnOk result (IsSettled (D.known disk.new)) }
    ensures keeps { D.keeps disk.old disk.new }
{
    disk.write(at, block)?;
    disk.sync()
}
