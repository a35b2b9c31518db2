//! Tests of clouds in memory, of folders as clouds, and of clouds side by side. They stand apart, so that the tested crates
//! aren't proved once more with them.
#![tactic(auto)]

#[cfg(test)]
mod at_once_tests;
#[cfg(test)]
mod fanned_tests;
#[cfg(test)]
mod folder_cloud_tests;
#[cfg(test)]
mod keys;
#[cfg(test)]
mod mem_cloud_tests;
#[cfg(test)]
mod mem_fleet_tests;
