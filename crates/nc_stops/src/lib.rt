//! Scenes of clouds that are lost and of commands that stop: repairs, restores, and what a later run finds, over clouds in
//! memory. Runs over clouds that are served at the same time, and over folders, stand here too. `nc_stage` plays the scenes,
//! and says how they are written.
#![tactic(auto)]

#[cfg(test)]
mod fanned_tests;
#[cfg(test)]
mod folder_tests;
#[cfg(test)]
mod repair_scenes;
#[cfg(test)]
mod restore_scenes;
#[cfg(test)]
mod stopped_batch_scenes;
#[cfg(test)]
mod stopped_repair_scenes;
#[cfg(test)]
mod stopped_restore_scenes;
#[cfg(test)]
mod stopped_scenes;
