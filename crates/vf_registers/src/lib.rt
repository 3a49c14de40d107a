//! The registers of the device. By the bank of a virtual function the host says where that function's file lies, and
//! learns what the function waits for. By the bank of the physical function it learns which functions wait, and asks
//! for an empty cache of translations. A register is a number of 64 bits, read and written whole. What a guest asks for
//! does not come by registers.
#![tactic(auto)]

mod fault;
mod function;
mod numbers;
mod registers;
#[cfg(test)]
mod tests;

pub use fault::RegFault;
pub use numbers::{FLUSH_BTLB, MISS_BLOCK, MISS_COUNT, MISS_KIND, PENDING, REWALK, ROOT, SIZE};
pub use registers::Registers;
