//! What hosts and guests ask for, wait for and are answered, whose turn it is, and what comes to the machine.
#![tactic(auto)]

mod buffers;
mod event;
mod host;
mod machine;
mod request;
mod word;

pub use buffers::Buffers;
pub use event::Event;
pub use host::{HostAnswer, HostCommand};
pub use machine::Machine;
pub use request::{End, Kind, Miss, Queued, Reply, Request};
pub use word::Word;
