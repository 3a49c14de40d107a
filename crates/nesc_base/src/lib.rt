//! The types that every crate of `nesc` speaks of, and the traits of what lies outside of it.
#![tactic(auto)]

mod block;
mod blocks;
mod disk;
mod files;
mod geometry;
mod memory;
mod name;
mod no_memory;
mod numbers;
mod runs;
mod sink;
mod source;

pub use block::{BLOCK_BYTES, Block, PERIOD_BYTES};
pub use blocks::{Blocks, MOST_IN_REQUEST};
pub use disk::{Disk, DiskFault};
pub use files::{LONGEST_FILE, MOST_FILES};
pub use geometry::Geometry;
pub use memory::{Memory, NODE_WORDS};
pub use name::{LONGEST_NAME, Name};
pub use no_memory::NoMemory;
pub use numbers::{FileNo, FnNo};
pub use runs::{Area, Run, Runs};
pub use sink::{Sink, WriteFault};
pub use source::{ReadFault, Source};

#[cfg(test)]
mod tests;
