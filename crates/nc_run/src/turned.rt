use nc_vault::Fault;

/// How an act of a run went.
#[derive(Debug, Drop)]
pub(crate) enum Turned {
    /// It was done, and its text was written.
    GoesOn,
    /// It was done, and the watcher ended the run.
    Cut,
    /// It was done, and its text couldn't be written.
    Unwritten,
    /// It wasn't done.
    Stopped { fault: Fault, after: Option<u64> },
}
