//! The slots of the journal: what gates and target lists are, and what an image stands for with its slots laid over.
#![tactic(auto)]

mod gate;
mod numbers;
mod slots;
mod targets;

pub use gate::{is_open, open_gate};
pub use numbers::{BLOCK_NUMBERS, NUMBER_BYTES, number_at, number_in, put_bytes, put_number};
pub use slots::{SLOTS, lay_over};
pub use targets::{list_block, list_of, lists_read_back};
