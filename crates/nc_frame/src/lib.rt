//! Sealed objects: what stands on a cloud is a frame around its payload, which says where it belongs and shows whether it
//! is whole. Its parts, in this order:
//!
//! | Part | Bytes |
//! |---|---|
//! | `NCF1` | 4 |
//! | cloud | 1 |
//! | width, the number of clouds | 1 |
//! | length k of the key | 2 |
//! | text of the key | k |
//! | length p of the payload | 8 |
//! | payload | p |
//! | SHA-256 of all bytes before it | 32 |
//!
//! Numbers stand high byte first.
#![tactic(auto)]

pub mod laws;
mod opening;
mod sealing;
#[cfg(test)]
mod tests;

pub use opening::{Seen, open};
pub use sealing::{finish, lay_out, seal, seal_around};
