//! The names of all files that stand on clouds.
#![tactic(auto)]

mod all;
mod listing;
mod sorting;

pub use all::{all_names, first_marked};
pub use listing::list_names;
