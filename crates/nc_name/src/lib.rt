//! The names of files, the keys of the objects that a file is stored as, and byte strings and lists on the heap.
#![tactic(auto)]

mod blob;
mod key;
mod name;
mod reading;
mod sequence;
#[cfg(test)]
mod tests;
mod text;

pub use blob::{BEHIND, Blob, FRONT, Memory};
pub use key::Key;
pub use name::{Name, NameFault};
pub use reading::read_key;
pub use sequence::Sequence;
pub use text::KeyText;
