//! What the clouds hold of a file's metadata, what follows from it, and how a name is brought to rest.
#![tactic(auto)]

mod asking;
mod deciding;
mod failing;
mod judging;
mod looking;
mod metas;
mod place;
mod settled;
mod settling;
mod view;

pub use deciding::{Conflict, Misplaced, Top};
pub use looking::{look, look_without};
pub use metas::{meta_jobs, push_job};
pub use place::Place;
pub use settled::{SettleFault, Settled};
pub use settling::{agreed, settle};
pub use view::View;
