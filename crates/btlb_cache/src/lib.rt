//! The cache of translations that the device looks into before it walks a tree.
//!
//! The crate `lru` keeps the places of the cache in the order in which they were used last. All of them stand in it
//! from the beginning on, so no later call takes memory.
#![tactic(auto)]

mod btlb;
mod slots;

pub use btlb::Btlb;

#[cfg(test)]
mod tests;
