//! Whole histories over clouds in memory, of runs, stops and losses.
#![tactic(auto)]

mod driving;
mod event;
pub mod laws;
mod limit;
mod outcome;
#[cfg(test)]
mod tests;

pub use driving::drive;
pub use event::{Event, Fates, WordList};
pub use outcome::{Outcome, Outcomes};
