//! The commands, over all names of a vault: each is one step.
#![tactic(auto)]

mod bearing;
mod coming;
mod drawing;
mod fault;
mod finishing;
mod getting;
mod listing;
mod putting;
mod recovering;
mod removing;
mod repairing;
mod reply;
mod restoring;
mod rows;
mod scrubbing;
mod statting;
mod stepping;
mod sweeping;

pub use fault::Fault;
pub use reply::{FileRow, NamedFlaw, NamedFlaws, Reply, Rows};
pub use stepping::step;
