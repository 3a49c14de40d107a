//! What files are, how they change, and where their blocks stand: definitions, and what is so of all of them.
#![tactic(auto)]

mod laws;

pub use laws::file_sets_stay;
