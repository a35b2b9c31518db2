//! A folder as a cloud: one file for each object, named by the text of its key.
#![tactic(auto)]

mod files;
mod folder;

pub use folder::FolderCloud;
