use nesc_base::{Blocks, FnNo};
use nesc_requests::HostAnswer;

/// What the host did for a command.
#[derive(Debug, Drop)]
pub struct HostDone {
    /// What it is answered.
    pub answer: HostAnswer,
    /// What the device has to be told.
    pub change: Change,
    /// The blocks that the command brought, where the answer does not have them. Their memory can be used again.
    pub spent: Option<Blocks>,
}

/// What a command changes for a function. Lengths are in blocks, 0 to 1,048,576.
#[derive(Clone, Copy, Debug, PartialEq, Eq)]
pub enum Change {
    /// Nothing.
    Nothing,
    /// The function has a file of this length now.
    Attached {
        f: FnNo,
        length: u32,
    },
    /// The function has no file any more.
    Detached {
        f: FnNo,
    },
    /// Its file has this length now, and has given back blocks, or has not.
    Sized {
        f: FnNo,
        length: u32,
        remapped: bool,
    },
    /// Its file holds blocks that it did not hold before.
    Remapped {
        f: FnNo,
    },
}
