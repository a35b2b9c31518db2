use crate::setting::Setting;
use nc_name::Name;

/// What is asked of a vault.
#[derive(Clone, Copy, Debug)]
pub enum Act {
    /// Stores a file under this name.
    Put(Name),
    /// Gives the file of this name.
    Get(Name),
    /// Removes the file of this name.
    Remove(Name),
    /// Tells all files.
    List,
    /// Tells about the file of this name.
    Stat(Name),
    /// Makes this cloud whole again: of each file, from one chunk of each other cloud.
    Repair(u8),
    /// Makes this cloud, or these two, whole again from the files themselves.
    Restore { first: u8, second: Option<u8> },
    /// Tells what isn't right, and changes nothing.
    Scrub,
    /// Brings all names to rest.
    Recover,
}

/// What the words of a run are.
#[derive(Clone, Copy, Debug)]
pub enum Command {
    /// One act.
    Act(Act),
    /// The acts of all lines of the input, one after the other.
    Batch,
    /// A mill of this number.
    Mill(u64),
}

/// What a run is asked for.
#[derive(Clone, Copy, Debug)]
pub struct Request {
    pub setting: Setting,
    pub command: Command,
}
