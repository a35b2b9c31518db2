ghost use Rattle.std.specs.Prelude.{◌≡◌};
ghost use Rattle.nc_download.specs.declared.fault.FetchFault.TheVariants.{Memory as NoMemory};

use crate::short::ShortList;
use nc_name::Memory;
use thiserror::Error;

/// Why there is no file to give.
#[derive(Debug, Drop, Error)]
pub enum FetchFault {
    /// There is no file of this name: no metadata of it was seen, or the newest that was seen says that it was removed.
    #[error("there is no file of this name")]
    NoFile,
    /// Three clouds failed or more, and this is the least of them.
    #[error("cloud {0} failed")]
    Cloud(u8),
    /// Fewer clouds are good than the file comes back from. These are all that aren't, ascending, each with its first cause.
    #[error("fewer clouds are good than the file comes back from")]
    Short(ShortList),
    /// Clouds `a` and `b` hold different metadata of the highest generation that was seen.
    #[error("clouds {a} and {b} hold different metadata of generation {generation}")]
    Conflict {
        generation: u64,
        a: u8,
        b: u8,
    },
    /// No cloud was seen to hold metadata of its own, and this is the least that holds some of another cloud or width.
    #[error("cloud {cloud} holds metadata of cloud {said_cloud} of {said_width}")]
    Misplaced {
        cloud: u8,
        said_cloud: u8,
        said_width: u8,
    },
    /// The rows of the file's code without clouds `a` and `b` are dependent: the least such pair.
    #[error("the file does not come back without clouds {a} and {b}")]
    Unsound {
        a: u8,
        b: u8,
    },
    /// No memory was found.
    #[error("no memory was found")]
    Memory,
}

impl From<Memory> for FetchFault {
    ghost from_gives = { λ _ fault. fault ≡ NoMemory };

    fn from(_memory: Memory) -> FetchFault {
        FetchFault::Memory
    }
}
