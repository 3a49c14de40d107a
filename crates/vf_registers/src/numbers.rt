// The registers of a virtual function.

/// Read and write: the length of the function's file, in blocks.
pub const SIZE: u32 = 0;

/// Read and write: the address of the root of the function's tree, 0 where there is no tree.
pub const ROOT: u32 = 1;

/// Read only: the block that the function waits for, 0 where it does not wait.
pub const MISS_BLOCK: u32 = 2;

/// Read only: how many blocks it waits for, 0 where it does not wait.
pub const MISS_COUNT: u32 = 3;

/// Read only: why it waits. 1 says that the part of its tree was given up or not built yet, 2 that the block is not
/// held, and 0 that it does not wait.
pub const MISS_KIND: u32 = 4;

/// Reads as 0. A write of any value ends the waiting.
pub const REWALK: u32 = 5;

// The registers of the physical function.

/// Read only: which functions wait, by a bit for each, the lowest for the first.
pub const PENDING: u32 = 0;

/// Reads as 0. A write of any value asks for an empty cache of translations.
pub const FLUSH_BTLB: u32 = 1;
