use nesc_base::FnNo;

/// One word of a schedule, which says whose turn it is in one step.
#[derive(Clone, Copy, Debug, PartialEq, Eq)]
pub enum Word {
    /// The device serves a block of a request, or finds that it cannot.
    T,
    /// The guest of a function gives its next request.
    G(FnNo),
    /// The host gives its next command.
    H,
    /// The host handles what a function waits for.
    I(FnNo),
    /// The host gives up a function's tree.
    P(FnNo),
    /// The host gives up the leaf of a function's tree that covers this block, 0 to 1,048,575.
    PAt(FnNo, u32),
    /// The host empties the cache of translations.
    E,
    /// The machine starts again.
    X,
}
