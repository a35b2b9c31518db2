ghost use Rattle.std.specs.Prelude.{◌≡◌};
ghost use Rattle.nc_vault.specs.Faults.{fault_of_fetch, fault_of_repair, fault_of_restore, fault_of_settle, fault_of_write};
ghost use Rattle.nc_vault.specs.declared.fault.Fault.TheVariants.{Memory as NoMemory};

use nc_download::{FetchFault, How, ShortList};
use nc_name::Memory;
use nc_repair::RepairFault;
use nc_restore::RestoreFault;
use nc_settle::SettleFault;
use nc_write::WriteFault;
use thiserror::Error;

/// Why a command wasn't done on the clouds.
#[derive(Debug, Drop, Error)]
pub enum Fault {
    /// There is no file of this name.
    #[error("there is no file of this name")]
    NoFile,
    /// This cloud failed: the least of the first step in which one did.
    #[error("cloud {0} failed")]
    Cloud(u8),
    /// The chunk of this row on this cloud isn't good, and the repair needs it: the least such cloud.
    #[error("the chunk of row {row} on cloud {cloud} isn't good")]
    Damaged {
        cloud: u8,
        row: u8,
        how: How,
    },
    /// Too few clouds are good. Each that isn't is listed, with its cause.
    #[error("too few clouds are good")]
    Short(ShortList),
    /// Clouds `a` and `b` hold different metadata of the highest generation.
    #[error("clouds {a} and {b} hold different metadata of generation {generation}")]
    Conflict {
        generation: u64,
        a: u8,
        b: u8,
    },
    /// This cloud holds metadata of another cloud or width.
    #[error("cloud {cloud} holds metadata of cloud {said_cloud} of {said_width}")]
    Misplaced {
        cloud: u8,
        said_cloud: u8,
        said_width: u8,
    },
    /// The rows of the file's code without clouds `a` and `b` are dependent.
    #[error("the code doesn't stand the loss of clouds {a} and {b}")]
    Unsound {
        a: u8,
        b: u8,
    },
    /// The name's generations are used up: its version is the last one.
    #[error("the name's generations are used up")]
    Worn,
    /// None of so many candidates for a code is good.
    #[error("none of {0} candidates for a code is good")]
    Spent(u16),
    /// No memory was found.
    #[error("no memory was found")]
    Memory,
}

impl From<Memory> for Fault {
    ghost from_gives = { λ _ fault. fault ≡ NoMemory };

    fn from(_memory: Memory) -> Fault {
        Fault::Memory
    }
}

impl From<SettleFault> for Fault {
    ghost from_gives = { λ settle fault. fault ≡ fault_of_settle settle };

    fn from(fault: SettleFault) -> Fault {
        match fault {
            SettleFault::Cloud(cloud) => Fault::Cloud(cloud),
            SettleFault::Misplaced {
                cloud,
                said_cloud,
                said_width,
            } => Fault::Misplaced {
                cloud,
                said_cloud,
                said_width,
            },
            SettleFault::Conflict { generation, a, b } => Fault::Conflict { generation, a, b },
            SettleFault::Memory => Fault::Memory,
        }
    }
}

impl From<WriteFault> for Fault {
    ghost from_gives = { λ write fault. fault ≡ fault_of_write write };

    fn from(fault: WriteFault) -> Fault {
        match fault {
            WriteFault::Cloud(cloud) => Fault::Cloud(cloud),
            WriteFault::Worn => Fault::Worn,
            WriteFault::Memory => Fault::Memory,
        }
    }
}

impl From<RepairFault> for Fault {
    ghost from_gives = { λ repair fault. fault ≡ fault_of_repair repair };

    fn from(fault: RepairFault) -> Fault {
        match fault {
            RepairFault::Cloud(cloud) => Fault::Cloud(cloud),
            RepairFault::Damaged { cloud, row, how } => Fault::Damaged { cloud, row, how },
            RepairFault::Worn => Fault::Worn,
            RepairFault::Memory => Fault::Memory,
        }
    }
}

impl From<RestoreFault> for Fault {
    ghost from_gives = { λ restore fault. fault ≡ fault_of_restore restore };

    fn from(fault: RestoreFault) -> Fault {
        match fault {
            RestoreFault::Cloud(cloud) => Fault::Cloud(cloud),
            RestoreFault::Short(list) => Fault::Short(list),
            RestoreFault::Unsound { a, b } => Fault::Unsound { a, b },
            RestoreFault::Memory => Fault::Memory,
        }
    }
}

impl From<FetchFault> for Fault {
    ghost from_gives = { λ fetch fault. fault ≡ fault_of_fetch fetch };

    fn from(fault: FetchFault) -> Fault {
        match fault {
            FetchFault::NoFile => Fault::NoFile,
            FetchFault::Cloud(cloud) => Fault::Cloud(cloud),
            FetchFault::Short(list) => Fault::Short(list),
            FetchFault::Conflict { generation, a, b } => Fault::Conflict { generation, a, b },
            FetchFault::Misplaced {
                cloud,
                said_cloud,
                said_width,
            } => Fault::Misplaced {
                cloud,
                said_cloud,
                said_width,
            },
            FetchFault::Unsound { a, b } => Fault::Unsound { a, b },
            FetchFault::Memory => Fault::Memory,
        }
    }
}
