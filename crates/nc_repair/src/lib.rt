//! The repair of one file: the chunks of a lost cloud are made anew of one chunk of each survivor.
#![tactic(auto)]

mod answering;
mod asking;
mod fault;
mod giving;
mod live;
mod marks;
mod remaking;
mod repairing;
mod sealing;
mod survivors;

pub use fault::RepairFault;
pub use remaking::remake_part;
pub use repairing::repair_one;
