//! What a cache of translations is: which entries it has, which one is found, and what each use leaves. Definitions,
//! and what is so of all of them.
#![tactic(auto)]

mod laws;

pub use laws::{
    found_in_its_area, one_block_one_entry, others_are_found_as_before, uses_bring_no_entry,
    uses_leave_caches, uses_stay_in_an_area, what_has_the_block_is_found,
};
