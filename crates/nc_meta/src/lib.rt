//! The metadata of a file, and the payloads that it is stored as. A payload of n clouds has these parts, in this order:
//!
//! | Part | Bytes | Range |
//! |---|---|---|
//! | `NCM1` | 4 | |
//! | kind | 1 | 0 deleted, 1 live |
//! | generation | 8 | 1 to 2^64 - 2 |
//!
//! That of a deleted file ends here. A live one goes on:
//!
//! | Part | Bytes | Range |
//! |---|---|---|
//! | length of the file | 8 | 0 to 2^26 |
//! | rows `2c+r` of the code, ascending | 2n of 2(n-2) | any |
//! | slots, by cloud | n | each 0 or 1 |
//! | marks `2c+r`, ascending | 2n of 32 | any |
//! | witness flag | 1 | 0 or 1 |
//! | where it is 1, for each lost cloud ascending: the choices of the survivors ascending, their factors in row 0, their factors in row 1 | n of 3(n-1) | choices 0 or 1 |
//!
//! Nothing follows. Numbers stand high byte first.
#![tactic(auto)]

mod gone;
pub mod laws;
mod live;
mod meta;
mod plans;
mod same;
mod tables;
#[cfg(test)]
mod tests;

pub use meta::{Live, Meta};
pub use same::same_meta;
