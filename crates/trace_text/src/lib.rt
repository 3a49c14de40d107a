//! A step's outcome as the lines that tell it, and lines that are written piece by piece.
#![tactic(auto)]

mod pieces;
mod trace;

pub use pieces::{Piece, write_pieces};
pub use trace::{write_done, write_end, write_step};
