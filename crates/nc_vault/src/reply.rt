use crate::fault::Fault;
use nc_name::{Blob, Name, Sequence};
use nc_scrub::Flaw;

/// A file, as a list of all tells it.
#[derive(Clone, Copy, Debug)]
pub struct FileRow {
    /// How many bytes it has.
    pub len: u64,
    pub name: Name,
}

/// All files, by name.
pub type Rows = Sequence<FileRow>;

/// A part of a name that isn't right.
#[derive(Clone, Copy, Debug)]
pub struct NamedFlaw {
    pub name: Name,
    pub flaw: Flaw,
}

/// What isn't right, name by name, and of each name by cloud.
pub type NamedFlaws = Sequence<NamedFlaw>;

/// How an act is answered.
#[derive(Debug, Drop)]
pub enum Reply {
    /// A file was stored, as this generation of its name.
    Stored {
        generation: u64,
    },
    /// A file was removed, which is this generation of its name.
    Removed {
        generation: u64,
    },
    /// The bytes of a file.
    Bytes(Blob),
    /// All files.
    Listing(Rows),
    /// What is known of a file: its generation, how many bytes it has, and whether it has a plan for each next loss.
    About {
        generation: u64,
        len: u64,
        witnessed: bool,
    },
    /// A cloud was made whole: so many files were repaired.
    Repaired {
        files: u64,
    },
    /// One cloud or two were made whole from the files: so many objects were written.
    Restored {
        objects: u64,
    },
    /// So many names were brought to rest.
    Settled {
        names: u64,
    },
    /// What isn't right of all names; nothing, where no part is told.
    Damage(NamedFlaws),
    /// The act wasn't done, for this cause; of an act on all names, with how many of them it was.
    Stopped {
        fault: Fault,
        after: Option<u64>,
    },
}
