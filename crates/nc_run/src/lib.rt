//! The program without its edges: what the words ask for is done over clouds, an input and an output.
#![tactic(auto)]

mod acting;
mod bads;
mod batching;
mod causes;
mod ending;
mod flaws;
mod lines;
mod milling;
mod numbers;
mod running;
mod saying;
mod status;
mod taking;
mod telling;
mod turned;
mod watching;

pub use running::{run, run_shown};
pub use status::Status;
pub use telling::tell_early;
pub use watching::{Silent, Watch};
