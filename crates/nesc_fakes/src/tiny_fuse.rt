ghost use Rattle.std.specs.Prelude.{◌≡◌, ◌-◌, ◌<◌, true, IsErr, OnErr, OnOk, Some, slice_get, slice_set};
ghost use Rattle.nesc_base.specs.Count.{risen};
ghost use Rattle.nesc_base.specs.Disk.{Goes, IsSettled, Unchanged, WritesAt, here, nowhere};
ghost use Rattle.nesc_base.specs.Fault.{HasCause, Rose};

use nesc_base::{Block, Disk, DiskFault};
use std::marker::Model;

/// A disk over another. It passes calls on to that one, as many as it is told, and fails every call after them itself.
/// Reads, writes and syncs are counted together.
///
/// From the first call that fails here the inner disk stays as it is. The clock rises on all the same, at each write
/// and sync, up to 2^64 - 1, and a stop at any moment from then on leaves what one leaves of the inner disk now.
#[derive(Debug, Drop)]
pub struct TinyFuse<D> {
    inner: D,
    passes: u64,
    burnt: u64,
    failed: u64,
}

impl<D> Model for TinyFuse<D> {
    ghost use Rattle.std.specs.Prelude.{◌≡◌, ◌<◌};
    ghost use Rattle.nesc_fakes.specs.TinyFuse.{TinyFuseState};

    ghost Value = { TinyFuseState D };

    ghost view = { λ fuse.
        record { inner = fuse.inner; passes = fuse.passes; burnt = fuse.burnt; failed = fuse.failed } };

    ghost invariant = { λ fuse. 0 < fuse.passes → fuse.burnt ≡ 0 };
}

impl<D> TinyFuse<D> {
    /// A disk that passes so many calls on to `inner`.
    pub fn new(inner: D, passes: u64) -> TinyFuse<D>
        ensures { result ≡ record { inner = inner; passes = passes; burnt = 0; failed = 0 } }
    {
        TinyFuse {
            inner,
            passes,
            burnt: 0,
            failed: 0,
        }
    }

    /// The disk that calls are passed on to.
    pub fn inner(&self) -> &D
        ensures { result.now ≡ self.now.inner }
    {
        &self.inner
    }

    // Counts a call down. An `Err` says that it is not passed on: it has failed here.
    fn pass(&mut self) -> Result<(), DiskFault>
        ensures ok { OnOk result
            ((0 < self.old.passes) × (self.new ≡ record self.old { passes = self.old.passes - 1 })) }
        ensures whole { OnOk result (self.old.burnt ≡ 0) }
        ensures err { OnErr result
            ((self.old.passes ≡ 0) × (self.new ≡ record self.old { failed = risen self.old.failed })) }
    {
        if self.passes == 0 {
            self.failed = self.failed.saturating_add(1);
            return Err(DiskFault);
        }
        self.passes -= 1;
        Ok(())
    }

    // The same for a write or a sync, at each of which the clock rises.
    fn pass_write(&mut self) -> Result<(), DiskFault>
        ensures ok { OnOk result
            ((0 < self.old.passes) × (self.new ≡ record self.old { passes = self.old.passes - 1 })) }
        ensures whole { OnOk result (self.old.burnt ≡ 0) }
        ensures err { OnErr result ((self.old.passes ≡ 0)
            × (self.new ≡ record self.old { burnt = risen self.old.burnt; failed = risen self.old.failed })) }
    {
        if self.passes == 0 {
            self.burnt = self.burnt.saturating_add(1);
        }
        self.pass()
    }
}

impl<D: Disk> Disk for TinyFuse<D> {
    ghost use Rattle.nesc_fakes.specs.TinyFuse.{known_of};
    ghost use Rattle.nesc_fakes.specs.TinyFuseLaws.{reads_as_left, left_now};

    ghost known = { known_of D.known };

    ghost keeps = { λ old new. D.keeps old.inner new.inner };

    ghost reads_as_left = { λ d tells before.
        reads_as_left (D.known d.inner) d.burnt (D.reads_as_left d.inner) tells before };

    ghost reads_whole = { λ d tells. D.reads_whole d.inner tells };

    ghost left_now = { λ d image tells before left.
        left_now (D.known d.inner) d.burnt image (D.left_now d.inner image) tells before left };

    ghost left_by_now = { λ d k image _ _ left. left.by_now };

    ghost keeps_itself = { λ d. D.keeps_itself d.inner };

    ghost keeps_on = { λ a b c first second. D.keeps_on a.inner b.inner c.inner first second };

    fn blocks(&self) -> u32
        ensures { result ≡ (D.known self.now.inner).size }
    {
        self.inner.blocks()
    }

    /// The clock of the inner disk, and one more for each write and sync that has failed here.
    fn clock(&self) -> u64
        ensures { result ≡ (known_of D.known self.now).clock }
    {
        self.inner.clock().saturating_add(self.burnt)
    }

    /// Reads the block at a place of the inner disk. Where the call is not passed on the buffer stays as it is.
    fn read(&mut self, at: u32, into: &mut Block) -> Result<(), DiskFault>
        requires { at < (D.known self.old.inner).size }
        ensures block { (D.known self.old.inner).tells ≡ true
            → OnOk result (slice_get (D.known self.old.inner).contents at ≡ Some into.new) }
        ensures unchanged { Unchanged (known_of D.known self.old) (known_of D.known self.new) }
        ensures goes { Goes (known_of D.known self.old) (known_of D.known self.new) }
        ensures keeps { D.keeps self.old.inner self.new.inner }
        ensures cause { HasCause (known_of D.known self.old).faults (known_of D.known self.new).faults (IsErr result) }

        // A call that is passed on is one less to pass on, and fails only where the inner disk does.
        ensures passed { 0 < self.old.passes
            → self.new ≡ record self.old { inner = self.new.inner; passes = self.old.passes - 1 } }
        ensures inside { 0 < self.old.passes
            → HasCause (D.known self.old.inner).faults (D.known self.new.inner).faults (IsErr result) }

        // Any other fails and is counted. The inner disk stays as it is.
        ensures err { self.old.passes ≡ 0 → IsErr result }
        ensures alone { self.old.passes ≡ 0 → self.new ≡ record self.old { failed = risen self.old.failed } }
        ensures none { self.old.passes ≡ 0 → into.new ≡ into.old }
    {
        self.pass()?;
        self.inner.read(at, into)
    }

    /// Writes the block at a place of the inner disk. Where the call is not passed on the disk reads as before.
    fn write(&mut self, at: u32, from: &Block) -> Result<(), DiskFault>
        requires { at < (D.known self.old.inner).size }
        ensures written { (D.known self.old.inner).tells ≡ true → OnOk result
            ((D.known self.new.inner).contents ≡ slice_set (D.known self.old.inner).contents at from.now) }
        ensures writes { WritesAt (here at) (known_of D.known self.old) (known_of D.known self.new) }
        ensures rises { Rose (known_of D.known self.old).clock (known_of D.known self.new).clock }
        ensures goes { Goes (known_of D.known self.old) (known_of D.known self.new) }
        ensures keeps { D.keeps self.old.inner self.new.inner }
        ensures cause { HasCause (known_of D.known self.old).faults (known_of D.known self.new).faults (IsErr result) }

        // A call that is passed on is one less to pass on, and fails only where the inner disk does.
        ensures passed { 0 < self.old.passes
            → self.new ≡ record self.old { inner = self.new.inner; passes = self.old.passes - 1 } }
        ensures inside { 0 < self.old.passes
            → HasCause (D.known self.old.inner).faults (D.known self.new.inner).faults (IsErr result) }

        // Any other fails and is counted. The inner disk stays as it is.
        ensures err { self.old.passes ≡ 0 → IsErr result }
        ensures alone { self.old.passes ≡ 0
            → self.new ≡ record self.old { burnt = risen self.old.burnt; failed = risen self.old.failed } }
    {
        self.pass_write()?;
        self.inner.write(at, from)
    }

    /// Makes sure of what was written to the inner disk. Where the call is not passed on what was unsynced is so still.
    fn sync(&mut self) -> Result<(), DiskFault>
        ensures contents { (D.known self.old.inner).tells ≡ true
            → (D.known self.new.inner).contents ≡ (D.known self.old.inner).contents }
        ensures settled { (D.known self.old.inner).tells ≡ true → OnOk result (IsSettled (D.known self.new.inner)) }
        ensures writes { WritesAt nowhere (known_of D.known self.old) (known_of D.known self.new) }
        ensures rises { Rose (known_of D.known self.old).clock (known_of D.known self.new).clock }
        ensures goes { Goes (known_of D.known self.old) (known_of D.known self.new) }
        ensures keeps { D.keeps self.old.inner self.new.inner }
        ensures cause { HasCause (known_of D.known self.old).faults (known_of D.known self.new).faults (IsErr result) }

        // A call that is passed on is one less to pass on, and fails only where the inner disk does.
        ensures passed { 0 < self.old.passes
            → self.new ≡ record self.old { inner = self.new.inner; passes = self.old.passes - 1 } }
        ensures inside { 0 < self.old.passes
            → HasCause (D.known self.old.inner).faults (D.known self.new.inner).faults (IsErr result) }

        // Any other fails and is counted. The inner disk stays as it is.
        ensures err { self.old.passes ≡ 0 → IsErr result }
        ensures alone { self.old.passes ≡ 0
            → self.new ≡ record self.old { burnt = risen self.old.burnt; failed = risen self.old.failed } }
    {
        self.pass_write()?;
        self.inner.sync()
    }
}
