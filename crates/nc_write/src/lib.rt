//! Files written over what their names were settled on.
#![tactic(auto)]

mod answering;
mod erasing;
mod fault;
mod finishing;
mod laying;
mod live;
mod marks;
mod part;
mod preparing;
mod putting;
mod removing;
mod rows;
mod sealing;
mod tidying;
mod writing;

pub use fault::WriteFault;
pub use live::told_plans;
pub use marks::mark_of;
pub use putting::put;
pub use removing::remove;
pub use rows::Rows;
pub use sealing::{Placed, RowWrites, VersionWrites, seal_rows, seal_version};
pub use tidying::tidy;
pub use writing::write_version;
