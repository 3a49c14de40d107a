//! The memory of the host, in words of 64 bits, and the pool of nodes that it lays there.
#![tactic(auto)]

mod node_pool;
mod word_memory;

pub use node_pool::NodePool;
pub use word_memory::WordMemory;

#[cfg(test)]
mod tests;
