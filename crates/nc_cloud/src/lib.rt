//! All clouds of a vault, which serve rounds.
#![tactic(auto)]

mod at_once;
mod cloud;
mod deciding;
mod erasing;
mod fan;
mod fleet;
mod seats;
mod sorting;

pub use at_once::AtOnce;
pub use cloud::{Cloud, CloudError, Got, KeyList};
pub use deciding::{RoundFault, ask_round, write_round, write_row};
pub use erasing::erase_row;
pub use fan::Fanned;
pub use fleet::{Answer, Ask, Done, Erase, Fleet, Job};
pub use seats::{Seat, delete_at_once, get_at_once, put_at_once};
pub use sorting::sorted_keys;
