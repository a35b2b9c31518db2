//! Clouds in memory, which fail where they were told to.
#![tactic(auto)]

mod log;
mod mem_cloud;
mod memory;
mod record;
mod rounds;
mod serving;
mod shelf;
mod site;
mod stops;
mod store;

pub use mem_cloud::MemCloud;
pub use memory::MemFleet;
pub use record::{Damage, KeyFate, KeyFates, Torn};
