//! The journal of an image: blocks are staged in memory and committed all together, so that a stop leaves the blocks of
//! before or of after a commit.
#![tactic(auto)]

mod commit;
mod journal;
mod laws;
mod replay;
mod staged;

pub use journal::{Journal, StartFault};
pub use laws::{kept_is_left, stages_and_forgets, stands_for_some, still_rests};
