ghost use Rattle.std.specs.Prelude.{◌≡◌, IfOk};
ghost use Rattle.nesc_base.specs.Geometry.{IsGeometry};
ghost use Rattle.file_layer.specs.Layer.{IsLayer, no_files};

use block_map::BlockMap;
use image_layout::Table;
use nesc_base::{Geometry, NoMemory};
use std::alloc::Global;
use thiserror::Error;

/// Why a call on files was refused. It has changed no file then; after `Media` the buffer may hold anything.
#[derive(Clone, Copy, Debug, PartialEq, Eq, Error)]
pub enum FileFault {
    /// A file has the name.
    #[error("the name is taken")]
    Exists,
    /// There are as many files as there may be.
    #[error("no number is left")]
    NoSlot,
    /// There is no file of the number.
    #[error("no such file")]
    NoFile,
    /// Not all of the blocks lie below the file's length.
    #[error("past the file's length")]
    Range,
    /// There are too few free data blocks: so many are free, and so many needed.
    #[error("{free} blocks are free and {needed} needed")]
    NoSpace { free: u32, needed: u32 },
    /// The disk failed.
    #[error("disk fault")]
    Media,
}

/// How many blocks came to be held.
#[derive(Clone, Copy, Debug, PartialEq, Eq)]
pub struct Held {
    pub count: u32,
}

/// The files of an image: the table with their names and lengths, and where each block stands that they hold. What the
/// blocks hold is on the disk, or staged in the journal.
///
/// Each call stages what it changes, and nothing else: the table, the map blocks of the owners that change, and data
/// blocks. A call that is refused changes nothing.
#[derive(Drop)]
pub struct Files {
    pub(crate) geometry: Geometry,
    pub(crate) table: Table,
    pub(crate) map: BlockMap,
}

impl Files {
    /// No files, with the memory for those of an image of this division. An `Err` says that there is none. No other
    /// call takes any.
    pub fn new(alloc: Global, geometry: Geometry) -> Result<Files, NoMemory>
        requires { IsGeometry geometry }
        ensures empty { IfOk result (λ files. files ≡ no_files geometry) }
        ensures layer { IfOk result IsLayer }
    {
        Ok(Files {
            geometry,
            table: Table::empty(),
            map: BlockMap::new(alloc, geometry)?,
        })
    }
}
