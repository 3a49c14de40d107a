ghost use Rattle.std.specs.Prelude.{◌≡◌, ◌<◌, ◌≤◌, ℕ, ◌-◌, [], ◌∷◌, IfOk, OnOk, IsErrOf, true};
ghost use Rattle.std.specs.List.{range_with_len};
ghost use Rattle.nesc_base.specs.Disk.{Goes, IsSettled, LeavesSince, Unchanged};
ghost use Rattle.nesc_base.specs.Fault.{HasCause};
ghost use Rattle.nesc_base.specs.Geometry.{IsGeometry, total};
ghost use Rattle.image_tools.specs.Make.{Clears, Makes, OpensAsNew, OpensWhereMade, cleared, gates, made};
ghost use Rattle.image_tools.specs.declared.making.MakeFault.TheVariants.{BadSize, Disk};

use image_layout::write_super;
use nesc_base::{Block, Disk, DiskFault, Geometry};

/// Why no image was made.
#[derive(Clone, Copy, Debug, PartialEq, Eq)]
pub enum MakeFault {
    /// The disk failed. It may hold a part of the image; make it again.
    Disk(DiskFault),
    /// The disk has too few blocks; `block` is how many it has. Nothing was written.
    BadSize { block: u32 },
}

impl From<DiskFault> for MakeFault {
    ghost from_gives = { λ fault e. e ≡ Disk fault };

    fn from(fault: DiskFault) -> MakeFault {
        MakeFault::Disk(fault)
    }
}

/// Makes an image of no files on the disk, over whatever it held, and answers how many blocks the image has.
///
/// Of the blocks that the image has, only those that say what it holds are written. The superblock comes last, when
/// a sync has made sure of the rest, so that an image that has it opens.
pub fn make<D: Disk>(disk: &mut D, geometry: Geometry) -> Result<u32, MakeFault>
    requires { IsGeometry geometry }
    ensures total { IfOk result (λ blocks. blocks ≡ total geometry) }
    ensures made { (D.known disk.old).tells ≡ true
        → OnOk result ((D.known disk.new).contents ≡ made geometry (D.known disk.old).contents) }

    // A stop after it leaves this image alone, and it opens with no files.
    ensures settled { (D.known disk.old).tells ≡ true → OnOk result (IsSettled (D.known disk.new)) }
    ensures opens { (D.known disk.old).tells ≡ true → OnOk result (OpensAsNew geometry (D.known disk.new).contents) }

    // So does one that has the new superblock after a stop on the way, unless it starts as before.
    ensures any_moment { LeavesSince
        (λ _. OpensWhereMade geometry (D.known disk.old)) (D.known disk.old) (D.known disk.new) }

    ensures small { (D.known disk.old).size < total geometry → IsErrOf result (BadSize (D.known disk.old).size) }
    ensures only { (block : ℕ) → IsErrOf result (BadSize block) → (D.known disk.old).size < total geometry }
    ensures unwritten { (D.known disk.old).size < total geometry → Unchanged (D.known disk.old) (D.known disk.new) }
    ensures cause { HasCause (D.known disk.old).faults (D.known disk.new).faults (IsErrOf result (Disk _)) }
    ensures goes { Goes (D.known disk.old) (D.known disk.new) }
    ensures keeps { D.keeps disk.old disk.new }
{
    let blocks = disk.blocks();
    if blocks < geometry.total() {
        return Err(MakeFault::BadSize { block: blocks });
    }
    write_image(disk, geometry)?;
    Ok(geometry.total())
}

/// Writes an image of no files to a disk that has room for it.
fn write_image<D: Disk>(disk: &mut D, geometry: Geometry) -> Result<(), DiskFault>
    requires sizes { IsGeometry geometry }
    requires room { total geometry ≤ (D.known disk.old).size }
    ensures makes { Makes geometry (D.known disk.old) (D.known disk.new) result }
    ensures keeps { D.keeps disk.old disk.new }
{
    clear(disk, geometry)?;
    disk.sync()?;
    disk.write(0, &write_super(geometry))?;
    disk.sync()
}

/// Writes zeros to the blocks that have to be zeros.
fn clear<D: Disk>(disk: &mut D, geometry: Geometry) -> Result<(), DiskFault>
    requires sizes { IsGeometry geometry }
    requires room { total geometry ≤ (D.known disk.old).size }
    ensures clears { Clears (cleared geometry) (D.known disk.old) (D.known disk.new) result }
    ensures keeps { D.keeps disk.old disk.new }
{
    clear_gates(disk, geometry)?;
    write_zeros(disk, geometry.table_at())?;
    clear_run(disk, geometry.map_at(), geometry.area_from())?;
    write_zeros(disk, geometry.total() - 1)
}

/// Closes the gates of the four slots.
fn clear_gates<D: Disk>(disk: &mut D, geometry: Geometry) -> Result<(), DiskFault>
    requires sizes { IsGeometry geometry }
    requires room { total geometry ≤ (D.known disk.old).size }
    ensures clears { Clears (gates geometry) (D.known disk.old) (D.known disk.new) result }
    ensures keeps { D.keeps disk.old disk.new }
{
    for k in 1..=4 {
        write_zeros(disk, geometry.slot_at(k))?;
    }
    Ok(())
}

/// Writes zeros to the blocks from one place up to another.
fn clear_run<D: Disk>(disk: &mut D, from: u32, end: u32) -> Result<(), DiskFault>
    requires behind { 1 ≤ from }
    requires order { from ≤ end }
    requires room { end ≤ (D.known disk.old).size }
    ensures clears { Clears (range_with_len from (end - from)) (D.known disk.old) (D.known disk.new) result }
    ensures keeps { D.keeps disk.old disk.new }
{
    for at in from..end {
        write_zeros(disk, at)?;
    }
    Ok(())
}

/// Writes zeros to the block at a place.
fn write_zeros<D: Disk>(disk: &mut D, at: u32) -> Result<(), DiskFault>
    requires behind { 1 ≤ at }
    requires room { at < (D.known disk.old).size }
    ensures clears { Clears (at ∷ []) (D.known disk.old) (D.known disk.new) result }
    ensures keeps { D.keeps disk.old disk.new }
{
    disk.write(at, &Block::zero())
}
