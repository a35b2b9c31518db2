//! What the objects of all clouds stand for: the version of each file, and what rounds and losses leave of it.
#![tactic(auto)]

pub mod laws;
mod slots;

pub use slots::{free_slot, is_live, next_generation, other_slot, slot_of};
