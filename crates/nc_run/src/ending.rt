ghost use Rattle.std.specs.Prelude.{◌≡◌};
ghost use Rattle.nc_run.specs.Ending.{plain};

use crate::status::Status;

/// How a run ended, and what is told beside its status.
#[derive(Debug, Drop)]
pub(crate) struct Ending {
    pub status: Status,
    /// The line of a batch that wasn't done, or whose text couldn't be written.
    pub line: Option<u64>,
    /// With how many names an act on all of them was done that wasn't done with all.
    pub after: Option<u64>,
}

/// An ending that has nothing to tell beside its status.
pub(crate) fn plain(status: Status) -> Ending
    ensures { result ≡ plain status }
{
    Ending {
        status,
        line: None,
        after: None,
    }
}
