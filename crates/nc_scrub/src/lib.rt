//! What isn't right of one name on the clouds, told without a write.
#![tactic(auto)]

mod asking;
mod comparing;
mod flaw;
mod judging;
mod listing;
mod scrubbing;

pub use flaw::{Flaw, Flaws, Part, State};
pub use scrubbing::scrub_one;
