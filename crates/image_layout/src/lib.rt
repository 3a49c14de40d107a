//! What the bytes of an image say: superblock, table of files and map of owners, each read and written, and as which
//! files an image opens.
#![tactic(auto)]

mod fault;
mod laws;
mod opening;
mod owners;
mod plain;
mod repeats;
mod slots;
mod superblock;
mod table;

pub use fault::{ImageFault, OpenFault};
pub use laws::{
    opens_as_file_set, opens_as_it_stands, opens_as_nothing, opens_as_said, opens_beside_slots,
    opens_once,
};
pub use opening::read_geometry;
pub use owners::{Owners, owner_block, owners_of};
pub use plain::{Opened, lengths_of, open_blocks, push_owners};
pub use superblock::{read_super, write_super};
pub use table::{Table, TableEntry, table_block, table_of};
