//! What the words of a run and the lines of a batch ask for, and the texts that commands print.
#![tactic(auto)]

mod act;
mod commands;
mod declared;
pub mod laws;
mod lines;
mod numbers;
mod options;
mod sending;
mod setting;
#[cfg(test)]
mod tests;
mod texts;
#[cfg(test)]
mod texts_tests;
mod words;

pub use act::{Act, Command, Request};
pub use lines::{Line, LineFault, read_line};
pub use sending::{send, send_parts};
pub use setting::Setting;
pub use texts::{say_about, say_flaw, say_hex, say_mill, say_number, say_row};
pub use words::{WordFault, read_words};
