ghost use Rattle.std.specs.Prelude.{◌≡◌};
ghost use Rattle.nc_restore.specs.declared.fault.RestoreFault.TheVariants.{Memory as NoMemory};
ghost use Rattle.nc_restore.specs.Asking.{fault_of};

use nc_cloud::RoundFault;
use nc_download::ShortList;
use nc_name::Memory;
use thiserror::Error;

/// Why chunks of a file weren't made right again, or not all.
#[derive(Debug, Drop, Error)]
pub enum RestoreFault {
    /// This is the least cloud to be restored that failed, in the first round that wasn't Ok.
    #[error("cloud {0} failed")]
    Cloud(u8),
    /// Fewer of the other clouds are good than the file comes back from. These are all of them that aren't, ascending, each with
    /// its first cause.
    #[error("fewer of the other clouds are good than the file comes back from")]
    Short(ShortList),
    /// The rows of the file's code without clouds `a` and `b` are dependent: the least such pair.
    #[error("the file does not come back without clouds {a} and {b}")]
    Unsound { a: u8, b: u8 },
    /// No memory was found.
    #[error("no memory was found")]
    Memory,
}

impl From<Memory> for RestoreFault {
    ghost from_gives = { λ _ fault. fault ≡ NoMemory };

    fn from(_memory: Memory) -> RestoreFault {
        RestoreFault::Memory
    }
}

/// The fault of a round that isn't Ok.
pub(crate) fn fault_of(round: RoundFault) -> RestoreFault
    ensures { result ≡ fault_of round }
{
    match round {
        RoundFault::Cloud(cloud) => RestoreFault::Cloud(cloud),
        RoundFault::Memory => RestoreFault::Memory,
    }
}
