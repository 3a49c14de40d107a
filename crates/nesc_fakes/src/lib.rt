//! A source, a sink and a disk in memory, which fail at the calls that they are told, a disk over another that fails
//! from some call on, and a memory over another of which one fetch is bent.
#![tactic(auto)]

mod bent_memory;
mod mem_disk;
mod mem_sink;
mod mem_source;
mod rest;
#[cfg(test)]
mod tests;
mod tiny_fuse;
mod torn;

pub use bent_memory::BentMemory;
pub use mem_disk::{Call, MemDisk};
pub use mem_sink::MemSink;
pub use mem_source::MemSource;
pub use tiny_fuse::TinyFuse;
