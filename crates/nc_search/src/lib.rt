//! The search for codes that can be repaired, among candidates that are drawn from the stream of a key.
#![tactic(auto)]

mod drawing;
mod mending;
mod starting;
mod tries;

pub use drawing::draw_key;
pub use mending::{Mend, find_repair};
pub use starting::{Start, find_start};

#[cfg(test)]
mod tests;
