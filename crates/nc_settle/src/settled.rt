ghost use Rattle.std.specs.Prelude.{◌≡◌, ◌↔◌, IsTrue};
ghost use Rattle.nc_state.specs.Holding.{IsLiveTop, top_generation};
ghost use Rattle.nc_settle.specs.declared.settled.SettleFault.TheVariants.{Memory as NoMemory};

use nc_meta::Meta;
use nc_name::Memory;
use thiserror::Error;

/// What a name was settled on: the metadata that all clouds hold, where there is some.
#[derive(Clone, Copy, Debug)]
pub struct Settled {
    pub top: Option<Meta>,
}

impl Settled {
    /// Its generation, 0 where there is none.
    pub fn generation(&self) -> u64
        ensures { result ≡ top_generation self.now.top }
    {
        match &self.top {
            None => 0,
            Some(meta) => meta.generation(),
        }
    }

    /// Whether there is a file.
    pub fn is_live(&self) -> bool
        ensures { IsTrue result ↔ IsLiveTop self.now.top }
    {
        matches!(&self.top, Some(Meta::Live(_)))
    }
}

/// Why a name wasn't settled.
#[derive(Clone, Copy, Debug, PartialEq, Eq, Error)]
pub enum SettleFault {
    /// This is the least cloud that failed in the look, or in the round of writes.
    #[error("cloud {0} failed")]
    Cloud(u8),
    /// This is the least cloud that holds metadata of another cloud or width.
    #[error("cloud {cloud} holds metadata of cloud {said_cloud} of {said_width}")]
    Misplaced {
        cloud: u8,
        said_cloud: u8,
        said_width: u8,
    },
    /// Clouds `a` and `b` hold different metadata of the highest generation.
    #[error("clouds {a} and {b} hold different metadata of generation {generation}")]
    Conflict {
        generation: u64,
        a: u8,
        b: u8,
    },
    /// No memory was found.
    #[error("no memory was found")]
    Memory,
}

impl From<Memory> for SettleFault {
    ghost from_gives = { λ _ fault. fault ≡ NoMemory };

    fn from(_memory: Memory) -> SettleFault {
        SettleFault::Memory
    }
}
