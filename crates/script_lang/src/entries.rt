ghost use Rattle.std.specs.Prelude.{◌≡◌, ◌+◌, ◌≤◌, length};
ghost use Rattle.nesc_requests.specs.Buffers.{command_buffers, request_buffers};
ghost use Rattle.script_lang.specs.Entries.{IsCount, IsGuestEntry, IsHostEntry, command_in};
ghost use Rattle.script_lang.specs.Entries.{guest_entry_blocks, host_entry_blocks, request_in};
ghost use Rattle.script_lang.specs.Runs.{buffer_for};
ghost use Rattle.script_lang.specs.Stored.{IsStored, blocks_at};

use crate::store::{Store, StoredRun};
use nesc_base::{Blocks, FnNo, Name};
use nesc_requests::{Buffers, HostCommand, Request};

/// A command of the host as it is kept: what it writes stands in the store, and for what it reads the number of blocks
/// is kept alone.
#[derive(Clone, Copy)]
pub enum HostEntry {
    Create { name: Name, length: u32 },
    Delete { name: Name },
    Resize { name: Name, length: u32 },
    Put { name: Name, run: StoredRun },
    Map { name: Name, v: u32, n: u32 },
    Get { name: Name, v: u32, n: u32 },
    Attach { f: FnNo, name: Name },
    Detach { f: FnNo },
    Sync,
    Regs { f: FnNo },
}

/// A request of a guest as it is kept.
#[derive(Clone, Copy)]
pub enum GuestEntry {
    Read { v: u32, n: u32 },
    Write { run: StoredRun },
    Flush,
}

/// A buffer with the blocks of a run.
fn written(store: &Store, run: StoredRun, spare: &mut Buffers) -> Blocks
    requires stored { IsStored (length store.now) run }
    requires some { 1 ≤ spare.old.count }
    ensures blocks { result ≡ blocks_at store.now run }
    ensures spare { spare.new.count + 1 ≡ spare.old.count }
    ensures room { spare.new.room ≡ spare.old.room }
{
    let mut buffer = spare.take();
    store.fill(run, &mut buffer);
    buffer
}

/// A buffer for so many blocks.
fn asked(n: u32, spare: &mut Buffers) -> Blocks
    requires count { IsCount n }
    requires some { 1 ≤ spare.old.count }
    ensures blocks { result ≡ buffer_for n }
    ensures spare { spare.new.count + 1 ≡ spare.old.count }
    ensures room { spare.new.room ≡ spare.old.room }
{
    let mut buffer = spare.take();
    buffer.refill(n);
    buffer
}

impl HostEntry {
    /// How many blocks the command writes or reads.
    pub fn blocks(&self) -> u32
        ensures { result ≡ host_entry_blocks self.now }
    {
        match self {
            HostEntry::Put { run, .. } => run.count,
            HostEntry::Get { n, .. } => *n,
            _ => 0,
        }
    }

    /// The command, with a spare buffer where it has blocks.
    pub fn give(self, store: &Store, spare: &mut Buffers) -> HostCommand
        requires kept { IsHostEntry (length store.now) self }
        requires some { 1 ≤ spare.old.count }
        ensures command { result ≡ command_in store.now self }
        ensures spare { spare.new.count + command_buffers result ≡ spare.old.count }
        ensures room { spare.new.room ≡ spare.old.room }
    {
        match self {
            HostEntry::Create { name, length } => HostCommand::Create { name, length },
            HostEntry::Delete { name } => HostCommand::Delete { name },
            HostEntry::Resize { name, length } => HostCommand::Resize { name, length },
            HostEntry::Put { name, run } => HostCommand::Put {
                name,
                v: run.v,
                blocks: written(store, run, spare),
            },
            HostEntry::Map { name, v, n } => HostCommand::Map { name, v, n },
            HostEntry::Get { name, v, n } => HostCommand::Get {
                name,
                v,
                into: asked(n, spare),
            },
            HostEntry::Attach { f, name } => HostCommand::Attach { f, name },
            HostEntry::Detach { f } => HostCommand::Detach { f },
            HostEntry::Sync => HostCommand::Sync,
            HostEntry::Regs { f } => HostCommand::Regs { f },
        }
    }
}

impl GuestEntry {
    /// How many blocks the request writes or reads.
    pub fn blocks(&self) -> u32
        ensures { result ≡ guest_entry_blocks self.now }
    {
        match self {
            GuestEntry::Read { n, .. } => *n,
            GuestEntry::Write { run } => run.count,
            GuestEntry::Flush => 0,
        }
    }

    /// The request, with a spare buffer where it has blocks.
    pub fn give(self, store: &Store, spare: &mut Buffers) -> Request
        requires kept { IsGuestEntry (length store.now) self }
        requires some { 1 ≤ spare.old.count }
        ensures request { result ≡ request_in store.now self }
        ensures spare { spare.new.count + request_buffers result ≡ spare.old.count }
        ensures room { spare.new.room ≡ spare.old.room }
    {
        match self {
            GuestEntry::Read { v, n } => Request::Read {
                v,
                into: asked(n, spare),
            },
            GuestEntry::Write { run } => Request::Write {
                v: run.v,
                from: written(store, run, spare),
            },
            GuestEntry::Flush => Request::Flush,
        }
    }
}
