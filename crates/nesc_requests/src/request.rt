ghost use Rattle.std.specs.Prelude.{◌≡◌, ◌≤◌, false};
ghost use Rattle.nesc_base.specs.Blocks.{most_in_request};
ghost use Rattle.nesc_requests.specs.Requests.{block_count, first_of, is_flush};

use nesc_base::{Blocks, FnNo};

/// What a guest asks of its function.
#[derive(Debug, Drop)]
pub enum Request {
    /// Reads blocks from block `v` on, 0 to 1,048,575, into the buffer that it brings.
    Read { v: u32, into: Blocks },
    /// Writes blocks from block `v` on, 0 to 1,048,575.
    Write { v: u32, from: Blocks },
    /// Keeps all that was written before, whatever happens afterwards.
    Flush,
}

impl Request {
    /// The first block that it asks for; 0 for a flush, which asks for none.
    pub fn first(&self) -> u32
        ensures { result ≡ first_of self.now }
    {
        match self {
            Request::Read { v, .. } => *v,
            Request::Write { v, .. } => *v,
            Request::Flush => 0,
        }
    }

    /// How many blocks it asks for: 1 to 64, but none for a flush.
    pub fn blocks(&self) -> u32
        ensures count { result ≡ block_count self.now }
        ensures some { is_flush self.now ≡ false → 1 ≤ result }
        ensures within { result ≤ most_in_request }
    {
        match self {
            Request::Read { into, .. } => into.len(),
            Request::Write { from, .. } => from.len(),
            Request::Flush => 0,
        }
    }
}

/// A request with its number, as it waits in its function's queue.
#[derive(Debug, Drop)]
pub struct Queued {
    /// The number, counted from 1 for each function.
    pub id: u64,
    pub request: Request,
}

/// How a request ended.
#[derive(Clone, Copy, Debug, PartialEq, Eq)]
pub enum End {
    /// All of its blocks are done.
    Ok,
    /// It came to a block at or past the file's length.
    Range,
    /// It came to a block that is not held, and no data block is free for it.
    NoSpace,
    /// The disk failed to read a block.
    Media,
    /// All that was written before is kept from this clock of the disk on.
    Flushed(u64),
}

/// What a guest is answered.
#[derive(Debug, Drop)]
pub struct Reply {
    /// The function that was asked.
    pub f: FnNo,
    /// The request's number, counted from 1 for each function.
    pub id: u64,
    /// How it ended.
    pub end: End,
    /// How many of its blocks were done, 0 to 64.
    pub done: u32,
    /// The request, with its blocks.
    pub request: Request,
}

/// Why a function cannot go on.
#[derive(Clone, Copy, Debug, PartialEq, Eq)]
pub enum Kind {
    /// The part of its tree that covers the block was given up, or was not built yet.
    Pruned,
    /// It is to write a block that its file does not hold.
    Unmapped,
}

/// What a function that waits is waiting for.
#[derive(Clone, Copy, Debug, PartialEq, Eq)]
pub struct Miss {
    /// The block that it cannot go on at, 0 to 1,048,575.
    pub v: u32,
    /// How many blocks of its request are not done, 1 to 64. That block is the first of them.
    pub n: u32,
    /// Why it cannot.
    pub kind: Kind,
}
