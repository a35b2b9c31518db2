use nc_name::{Blob, Sequence};
use nc_run::Status;

/// What became of an event. A loss and a stopped run have `Ok` and no bytes, which aren't replies.
#[derive(Debug, Drop)]
pub struct Outcome {
    pub status: Status,
    /// What the run printed.
    pub out: Blob,
    /// The length of the fleet's record after the event.
    pub mark: u64,
    /// How many acts of the run were answered Ok; of a stopped one those that were so before the round
    /// began in which it was stopped.
    pub done: u64,
}

/// What became of some events, one after the other.
pub type Outcomes = Sequence<Outcome>;
