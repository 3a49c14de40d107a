//! Tests of what reads and writes a disk, over disks in memory.
#![tactic(auto)]

#[cfg(test)]
mod data_blocks;
#[cfg(test)]
mod files;
#[cfg(test)]
mod journal;
