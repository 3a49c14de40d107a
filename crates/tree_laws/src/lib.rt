//! Laws of trees in a host's memory and of walks over them: what is so of every one, by their definitions alone.
#![tactic(auto)]

mod laws;

pub use laws::{paths_have_addresses, walks_find_what_stands, walks_follow_paths};
