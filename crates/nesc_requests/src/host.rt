use nesc_base::{Blocks, FnNo, Name};

/// What the host asks for. Lengths are in blocks, 0 to 1,048,576, and blocks of a file are numbered from 0 to
/// 1,048,575.
#[derive(Debug, Drop)]
pub enum HostCommand {
    /// Makes a file of so many blocks, which holds none yet.
    Create { name: Name, length: u32 },
    /// Takes a file away, with all that it holds.
    Delete { name: Name },
    /// Gives a file another length. What it holds at or past that goes.
    Resize { name: Name, length: u32 },
    /// Writes blocks into a file from block `v` on.
    Put { name: Name, v: u32, blocks: Blocks },
    /// Holds `n` blocks of a file from block `v` on, 1 to 64 of them. Those that were not held are zeros.
    Map { name: Name, v: u32, n: u32 },
    /// Reads blocks of a file from block `v` on into the buffer that it brings.
    Get { name: Name, v: u32, into: Blocks },
    /// Gives a function the file as its disk.
    Attach { f: FnNo, name: Name },
    /// Takes its file from a function.
    Detach { f: FnNo },
    /// Keeps all files as they are, whatever happens afterwards.
    Sync,
    /// Reads the registers of a function.
    Regs { f: FnNo },
}

/// What the host is answered.
#[derive(Debug, Drop)]
pub enum HostAnswer {
    /// It is done.
    Ok,
    /// There is a file of that name already.
    Exists,
    /// There are as many files as there may be.
    NoSlot,
    /// There is no file of that name.
    NoFile,
    /// The blocks do not all lie below the file's length.
    Range,
    /// So many data blocks are free, and so many more than that are needed: one for each block that is not held.
    NoSpace {
        free: u32,
        needed: u32,
    },
    /// The disk failed to read a block.
    Media,
    /// The blocks that were asked for.
    Got(Blocks),
    /// The function has a file already, or there is no such function.
    FunctionTaken,
    /// Another function has the file.
    FileTaken,
    /// The function has no file, or there is no such function.
    NotAttached,
    /// Requests wait for the function.
    Queued,
    /// A function has the file.
    Attached,
    /// The registers of a function: the length of its file in blocks; what it waits for, with the first block, how many
    /// blocks and why (1 where it lies in a part of the tree that was given up, 2 where it is not held), or three
    /// zeros; and which functions wait, by a bit for each, the lowest for the first.
    Regs {
        size: u32,
        block: u32,
        count: u32,
        kind: u32,
        pending: u32,
    },
}
