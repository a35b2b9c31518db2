//! The restoring of one file's chunks on one cloud or two, from the file itself.
#![tactic(auto)]

mod asking;
mod fault;
mod making;
mod reading;
mod restoring;

pub use fault::RestoreFault;
pub use restoring::restore_one;
