/// How many files there may be.
pub const MOST_FILES: u16 = 32;

/// How many blocks a file has at most.
pub const LONGEST_FILE: u32 = 1_048_576;
