//! The files and the standard streams of the host's operating system, as sources, sinks and disks.
//!
//! This is the edge of what is proved: an adapter says when it failed, and nothing of what a real file or stream gives
//! or takes.
#![tactic(auto)]

mod file_disk;
mod file_source;
mod std_sink;

pub use file_disk::FileDisk;
pub use file_source::FileSource;
pub use std_sink::StdSink;
