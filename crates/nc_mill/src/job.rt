use nc_name::{Blob, Name};
use nc_words::Setting;

/// What a mill works with.
#[derive(Drop)]
pub(crate) struct Job {
    pub(crate) setting: Setting,
    /// How many clouds there are.
    pub(crate) width: u8,
    /// The cloud that is lost.
    pub(crate) lost: u8,
    pub(crate) name: Name,
    pub(crate) file: Blob,
}
