use crate::{HostCommand, Request};
use nesc_base::FnNo;

/// What comes to the machine, and makes it take one step.
#[derive(Debug, Drop)]
pub enum Event {
    /// A guest hands a request to its function.
    Submit(FnNo, Request),
    /// The device serves a block of a request, or finds that it cannot.
    Tick,
    /// The host asks for something.
    Host(HostCommand),
    /// The host handles what a function waits for.
    Handle(FnNo),
    /// The host gives up a function's tree.
    Prune(FnNo),
    /// The host gives up the leaf of a function's tree that covers this block, 0 to 1,048,575.
    PruneAt(FnNo, u32),
    /// The host empties the cache of translations.
    Evict,
    /// The machine starts again, from what the disk has kept.
    Restart,
}
