//! A file from clouds of which some fail: clouds are tried in turn until enough are good, and the file comes back from those.
#![tactic(auto)]

mod causes;
mod fetching;
mod founds;
mod marking;
mod parts;
mod reading;
mod rooms;
mod rows;
mod seats;
mod trying;

pub use causes::{marked_with, short_list};
pub use fetching::fetch;
pub use founds::Found;
pub use marking::is_named;
pub use parts::{PartFault, read_part};
pub use reading::read_unmarked;
pub use seats::{Seat, judge_all};
pub use trying::{asks_on, get_row, try_clouds};
