//! A mill: a file is stored on clouds in memory, loses a cloud, is got, repaired and got again.
#![tactic(auto)]

mod answers;
mod file;
mod job;
mod milled;
mod milling;
mod serving;
mod sure;

pub use milled::{MillFault, Milled};
pub use milling::mill;

#[cfg(test)]
mod tests;
