//! Tests of the crates that look for files, settle, write, repair, restore and scrub them, over clouds in memory.
//! They stand apart, so that the tested crates aren't proved once more with them.
#![tactic(auto)]

#[cfg(test)]
mod codes;
#[cfg(test)]
mod fetch_tests;
#[cfg(test)]
mod look_tests;
#[cfg(test)]
mod repair_tests;
#[cfg(test)]
mod restore_tests;
#[cfg(test)]
mod scrub_tests;
#[cfg(test)]
mod settle_tests;
#[cfg(test)]
mod stored;
#[cfg(test)]
mod write_tests;
