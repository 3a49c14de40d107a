ghost use Rattle.std.specs.Prelude.{◌≡◌};
ghost use Rattle.image_layout.specs.declared.fault.OpenFault.TheVariants.{Image, NoMemory};

use nesc_base::{DiskFault, FileNo, NoMemory};
use std::alloc::AllocError;
use thiserror::Error;

/// Why an image opens as no files. Places are numbers of blocks of the image, from 0.
#[derive(Clone, Copy, Debug, PartialEq, Eq, Error)]
pub enum ImageFault {
    /// Block 0 is no superblock.
    #[error("super {block}")]
    BadSuper { block: u32 },
    /// There are fewer blocks than the superblock says; `block` is how many there are.
    #[error("size {block}")]
    BadSize { block: u32 },
    /// A slot that is to be replayed has no list; `block` is the first block of its list.
    #[error("list {block}")]
    BadList { block: u32 },
    /// The table is none.
    #[error("table {block}")]
    BadTable { block: u32 },
    /// A map block is none.
    #[error("owner {block}")]
    BadOwner { block: u32 },
    /// A second data block has this owner.
    #[error("twice {file} {v}", file = .file.0)]
    TwiceOwned { file: FileNo, v: u32 },
}

/// Why an image was not opened.
#[derive(Clone, Copy, Debug, PartialEq, Eq, Error)]
pub enum OpenFault {
    /// There was no memory for what it says.
    #[error("out of memory")]
    NoMemory,
    /// The disk failed.
    #[error("disk fault")]
    Disk(DiskFault),
    /// It opens as no files.
    #[error(transparent)]
    Image(ImageFault),
}

impl From<AllocError> for OpenFault {
    ghost from_gives = { λ _ e. e ≡ NoMemory };

    fn from(_e: AllocError) -> OpenFault {
        OpenFault::NoMemory
    }
}

impl From<NoMemory> for OpenFault {
    ghost from_gives = { λ _ e. e ≡ NoMemory };

    fn from(_e: NoMemory) -> OpenFault {
        OpenFault::NoMemory
    }
}

impl From<ImageFault> for OpenFault {
    ghost from_gives = { λ fault e. e ≡ Image fault };

    fn from(fault: ImageFault) -> OpenFault {
        OpenFault::Image(fault)
    }
}
