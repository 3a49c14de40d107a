ghost use Rattle.std.specs.Prelude.{◌≡◌, ◌<◌, ◌≤◌, ℕ, List, OnOk, IsErr, Some, length, slice_get, slice_set, true};
ghost use Rattle.nesc_base.specs.Count.{count_end};
ghost use Rattle.nesc_base.specs.Disk.{CouldLeave, Goes, IsSettled, Known, Unchanged, WritesAt, here, nowhere};
ghost use Rattle.nesc_base.specs.Fault.{HasCause, Rose};
ghost use Rattle.nesc_base.specs.declared.block.Block.{Block};

use crate::Block;

/// A disk failed to read, to write or to sync.
#[derive(Clone, Copy, Debug, PartialEq, Eq)]
pub struct DiskFault;

/// Blocks that outlive a stop, as a file of the host does. Blocks are numbered from 0.
///
/// Between two syncs that succeed a stop may leave any bytes in the blocks that were written, and leaves the others
/// as they were. A write or a sync that fails counts as begun. After a sync that succeeds and before the next write
/// a stop leaves what the disk reads as.
///
/// The clock tells the moments of a stop apart. It rises as a write begins and as a sync ends, and stands still at
/// 2^64 - 1; of what a stop leaves at that value nothing is said.
pub trait Disk {
    /// What is known of the disk.
    ghost known: { Self → Known };

    /// What else stays from one call to the next, for a disk that hands its calls on to others.
    ghost keeps: { Self → Self → Type 0 } = { λ _ _. Unit {0} };

    /// How many blocks the disk has, which never changes.
    fn blocks(&self) -> u32
        ensures { result ≡ (known self.now).size };

    /// The clock, which never falls.
    fn clock(&self) -> u64
        ensures { result ≡ (known self.now).clock };

    /// Reads the block at a place. An `Err` may leave anything in the buffer; the disk stays as it is.
    fn read(&mut self, at: u32, into: &mut Block) -> Result<(), DiskFault>
        requires { at < (known self.old).size }
        ensures block { (known self.old).tells ≡ true
            → OnOk result (slice_get (known self.old).contents at ≡ Some into.new) }
        ensures unchanged { Unchanged (known self.old) (known self.new) }
        ensures goes { Goes (known self.old) (known self.new) }
        ensures keeps { keeps self.old self.new }
        ensures cause { HasCause (known self.old).faults (known self.new).faults (IsErr result) };

    /// Writes the block at a place. After an `Err` the disk may read there as any bytes. Until a sync succeeds a
    /// stop may leave any bytes there.
    fn write(&mut self, at: u32, from: &Block) -> Result<(), DiskFault>
        requires { at < (known self.old).size }
        ensures written { (known self.old).tells ≡ true
            → OnOk result ((known self.new).contents ≡ slice_set (known self.old).contents at from.now) }
        ensures writes { WritesAt (here at) (known self.old) (known self.new) }
        ensures rises { Rose (known self.old).clock (known self.new).clock }
        ensures goes { Goes (known self.old) (known self.new) }
        ensures keeps { keeps self.old self.new }
        ensures cause { HasCause (known self.old).faults (known self.new).faults (IsErr result) };

    /// Makes sure of what was written: once it has succeeded a stop leaves what the disk reads as. An `Err` need not
    /// have made sure of anything, and has undone nothing.
    fn sync(&mut self) -> Result<(), DiskFault>
        ensures contents { (known self.old).tells ≡ true → (known self.new).contents ≡ (known self.old).contents }
        ensures settled { (known self.old).tells ≡ true → OnOk result (IsSettled (known self.new)) }
        ensures writes { WritesAt nowhere (known self.old) (known self.new) }
        ensures rises { Rose (known self.old).clock (known self.new).clock }
        ensures goes { Goes (known self.old) (known self.new) }
        ensures keeps { keeps self.old self.new }
        ensures cause { HasCause (known self.old).faults (known self.new).faults (IsErr result) };

    /// A disk as it reads is one of its images now.
    ghost reads_as_left: { (d : Self) → (known d).tells ≡ true → (known d).clock < count_end
        → (known d).left (known d).clock (known d).contents };

    /// It reads as all its blocks.
    ghost reads_whole: { (d : Self) → (known d).tells ≡ true → length (known d).contents ≡ (known d).size };

    /// An image now differs from what the disk reads as only where it is unsynced.
    ghost left_now: { (d : Self) (image : List Block) → (known d).tells ≡ true → (known d).clock < count_end
        → (known d).left (known d).clock image → CouldLeave (known d) image };

    /// At a clock value to come nothing is left yet.
    ghost left_by_now: { (d : Self) (k : ℕ) (image : List Block) → (known d).tells ≡ true → k < count_end
        → (known d).left k image → k ≤ (known d).clock };

    /// What stays from one call to the next stays over any number of them.
    ghost keeps_itself: { (d : Self) → keeps d d };

    ghost keeps_on: { (a b c : Self) → keeps a b → keeps b c → keeps a c };
}
