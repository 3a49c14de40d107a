//! Numbers and block texts, read and written.
#![tactic(auto)]

mod block_texts;
mod buffered;
mod numbers;
mod write;

pub use block_texts::{read_block, write_block};
pub use buffered::{BUFFER_BYTES, Buffer, Buffered};
pub use numbers::{number, write_number};
pub use write::write_text;

#[cfg(test)]
mod tests;
