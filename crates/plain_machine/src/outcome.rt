use nesc_base::FnNo;
use nesc_requests::{HostAnswer, Miss, Reply, Request};

/// What one step came to.
#[derive(Debug, Drop)]
pub struct Outcome {
    /// The disk's clock after the commit that came before the step, where one came.
    pub before: Option<u64>,
    /// What happened.
    pub answer: Answer,
    /// The functions whose trees were given up, by a bit for each, the lowest for the first. A restart names none.
    pub drops: u16,
    /// The path of a tree that was built.
    pub built: Option<Built>,
    /// The disk's clock after the commit that the step made, where it was a flush or a `sync`.
    pub after: Option<u64>,
    /// What a guest is answered, where its request ended.
    pub reply: Option<Reply>,
}

/// What happened in a step.
#[derive(Debug, Drop)]
pub enum Answer {
    /// The request waits for its function, under this number, counted from 1 for each function.
    Queued(u64),
    /// As many requests wait for the function as may, and the request comes back.
    Full(Request),
    /// The function has no file, and the request comes back.
    Off(Request),
    /// The device found no function that it could serve.
    Idle,
    /// The device came to block `v` of a function's file.
    Served { f: FnNo, v: u32, how: How },
    /// The device kept all files for a function.
    Flushed(FnNo),
    /// A function cannot go on. So many nodes of its tree were fetched before that was found.
    Missed { f: FnNo, miss: Miss, fetched: u32 },
    /// What the host is answered.
    Host(HostAnswer),
    /// What the host did for a function.
    Handled(FnNo, Handled),
    /// The host gave up a function's tree, if there was one.
    Pruned(FnNo),
    /// The host gave up a leaf of a function's tree, which covered these blocks, from the first to the first past it;
    /// or none covered the block.
    PrunedAt(FnNo, Option<(u32, u32)>),
    /// The host emptied the cache of translations.
    Evicted,
    /// The machine started again.
    Restarted,
}

/// How the device came to a block.
#[derive(Clone, Copy, Debug, PartialEq, Eq)]
pub enum How {
    /// By the cache of translations.
    Hit,
    /// By a walk to where the block is kept, which fetched so many nodes.
    Walk(u32),
    /// By a walk to a block that is not held, which fetched so many nodes.
    Hole(u32),
    /// The block is at or past the file's length.
    Range,
}

/// What the host did for a function.
#[derive(Clone, Copy, Debug, PartialEq, Eq)]
pub enum Handled {
    /// The function was not waiting.
    None,
    /// It waited for a part of its tree, which stands again.
    Built,
    /// Its file holds so many blocks more.
    Held { count: u32 },
    /// No data block was free for the block that it waited for, and its request ended.
    NoSpace,
}

/// A path of a tree that was built.
#[derive(Clone, Copy, Debug, PartialEq, Eq)]
pub struct Built {
    /// The first block that its leaf covers.
    pub from: u32,
    /// The first block past it.
    pub to: u32,
    /// How many nodes were made.
    pub nodes: u32,
}
