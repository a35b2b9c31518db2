//! Scenes of what is stored, read, told, removed and scrubbed, by single commands and in batches, over clouds in memory.
//! `nc_stage` plays them, and says how they are written.
#![tactic(auto)]

#[cfg(test)]
mod batch_scenes;
#[cfg(test)]
mod everyday_scenes;
#[cfg(test)]
mod get_scenes;
#[cfg(test)]
mod long_scenes;
#[cfg(test)]
mod option_scenes;
#[cfg(test)]
mod over_scenes;
#[cfg(test)]
mod planted_scenes;
#[cfg(test)]
mod put_scenes;
#[cfg(test)]
mod scrub_scenes;
#[cfg(test)]
mod stored_scenes;
#[cfg(test)]
mod word_scenes;
