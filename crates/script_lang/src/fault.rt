ghost use Rattle.std.specs.Prelude.{◌≡◌};
ghost use Rattle.script_lang.specs.declared.fault.InputFault.TheVariants.{NoMemory};

use std::alloc::{AllocError, AllocFailed};
use thiserror::Error;

/// What of a text may be over a limit.
#[derive(Clone, Copy, Debug, PartialEq, Eq)]
pub enum Limit {
    /// Its bytes, at most 16,777,216. The count says one more than that, however many there are.
    Text,
    /// The functions of the machine, 1 to 16.
    Functions,
    /// How many requests may wait for one function, 1 to 64.
    Queue,
    /// The nodes of trees, 8 to 4,096.
    Pool,
    /// The translations that the cache has, 1 to 64.
    Btlb,
    /// The guests that are named, at most one for each function.
    Guests,
    /// The blocks of all commands and requests together, at most 262,144.
    Blocks,
    /// The steps of a schedule, at most 1,048,576.
    Steps,
}

/// Why a text was not read.
#[derive(Clone, Copy, Debug, PartialEq, Eq, Error)]
pub enum InputFault {
    /// There was no memory for what it says. This may come in place of any other fault, unless the text has too many
    /// bytes.
    #[error("out of memory")]
    NoMemory,
    /// A commands file is no TOML document.
    #[error("no TOML")]
    BadToml,
    /// A key that no table of its kind has, or a value of another type: the table, 0 for the top level and 1 for
    /// `machine`, and the place of the key among all keys of that table in the order of their bytes, counted from 1.
    #[error("bad key")]
    BadKey { table: u8, place: u32 },
    /// A string that is no command or request: of the host, 0, or of a guest, by the number of its function, and which
    /// of that actor's strings it is, counted from 1.
    #[error("bad command")]
    BadCommand { actor: u8, index: u32 },
    /// A word that no schedule has: where its first byte stands, by line and by byte of the line, both counted from 1.
    #[error("bad word")]
    BadWord { line: u32, column: u32 },
    /// There are more, or fewer, than there may be: what, and how many there are.
    #[error("over a limit")]
    OverLimit { limit: Limit, count: i64 },
    /// A name is none, or that of no file. No text is refused so.
    #[error("bad name")]
    BadName,
}

impl From<AllocError> for InputFault {
    ghost from_gives = { λ _ e. e ≡ NoMemory };

    fn from(_e: AllocError) -> InputFault {
        InputFault::NoMemory
    }
}

impl<T: Drop> From<AllocFailed<T>> for InputFault {
    ghost from_gives = { λ _ e. e ≡ NoMemory };

    fn from(_e: AllocFailed<T>) -> InputFault {
        InputFault::NoMemory
    }
}

impl From<nesc_base::NoMemory> for InputFault {
    ghost from_gives = { λ _ e. e ≡ NoMemory };

    fn from(_e: nesc_base::NoMemory) -> InputFault {
        InputFault::NoMemory
    }
}

/// Why a string is not read.
#[derive(Clone, Copy)]
pub enum Unread {
    /// There was no memory for what it says.
    NoMemory,
    /// It says nothing.
    Bad,
}

impl From<AllocError> for Unread {
    ghost use Rattle.script_lang.specs.declared.fault.Unread.TheVariants as unread;

    ghost from_gives = { λ _ e. e ≡ unread.NoMemory };

    fn from(_e: AllocError) -> Unread {
        Unread::NoMemory
    }
}

impl<T: Drop> From<AllocFailed<T>> for Unread {
    ghost use Rattle.script_lang.specs.declared.fault.Unread.TheVariants as unread;

    ghost from_gives = { λ _ e. e ≡ unread.NoMemory };

    fn from(_e: AllocFailed<T>) -> Unread {
        Unread::NoMemory
    }
}

impl From<nesc_base::NoMemory> for Unread {
    ghost use Rattle.script_lang.specs.declared.fault.Unread.TheVariants as unread;

    ghost from_gives = { λ _ e. e ≡ unread.NoMemory };

    fn from(_e: nesc_base::NoMemory) -> Unread {
        Unread::NoMemory
    }
}
