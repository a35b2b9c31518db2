//! Histories of a vault, of runs, stops and losses: what a get gives after them, and what a repair leaves.
#![tactic(auto)]

pub mod laws;
