//! Mixing: the chunks that the clouds hold are combinations of a file's natives, and a file comes back from combinations.
//! The chunks of a lost cloud are made anew of those of the others, without the file.
//! The terms of a sum may stand in any order; the bytes are the same.
#![tactic(auto)]

mod adding;
mod decoding;
mod encoding;
mod gates;
mod pieces;
mod placing;
mod regenerating;
mod strips;
mod sum;
mod sums;

pub use decoding::{decode, decode_into, room_for};
pub use encoding::{encode, encode_file};
pub use gates::{Gate, Open};
use nc_name::{Blob, Sequence};
pub use pieces::{Pair, Piece};
pub use regenerating::regenerate;

/// The chunks that the clouds hold of a file, two for each cloud, in order.
pub type Chunks = Sequence<Blob>;

#[cfg(test)]
mod repair_tests;
#[cfg(test)]
mod tests;
#[cfg(test)]
mod worker_tests;
