ghost use Rattle.std.specs.Prelude.{◌≡◌};
ghost use Rattle.nc_repair.specs.declared.fault.RepairFault.TheVariants.{Memory as NoMemory};

use nc_download::How;
use nc_name::Memory;
use thiserror::Error;

/// Why a file wasn't repaired, or not to its end.
#[derive(Clone, Copy, Debug, PartialEq, Eq, Error)]
pub enum RepairFault {
    /// This is the least survivor that failed, where all below it gave their chunks; or the least cloud that failed in the
    /// first round of writes that wasn't Ok.
    #[error("cloud {0} failed")]
    Cloud(u8),
    /// This is the least survivor that didn't give its chunk, and it didn't fail: the chunk isn't good.
    #[error("the chunk of row {row} on cloud {cloud} is damaged")]
    Damaged { cloud: u8, row: u8, how: How },
    /// The generation before was the last that can be stored.
    #[error("no generation is left")]
    Worn,
    /// No memory was found.
    #[error("no memory was found")]
    Memory,
}

impl From<Memory> for RepairFault {
    ghost from_gives = { λ _ fault. fault ≡ NoMemory };

    fn from(_memory: Memory) -> RepairFault {
        RepairFault::Memory
    }
}
