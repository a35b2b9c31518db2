use nc_name::Memory;
use std::alloc::{AllocError, AllocFailed};
use std::io;
use thiserror::Error;

/// Why there is no time to tell.
#[derive(Debug, Drop, Error)]
pub enum Fault {
    #[error("usage: nc_bench kernel BYTES PASSES TURNS | encode|decode WIDTH BYTES WORKERS TURNS")]
    Usage,
    #[error("no code was found")]
    Code,
    #[error("an answer isn't right")]
    Wrong,
    #[error("{0}")]
    Memory(#[from] Memory),
    #[error("{0}")]
    System(#[from] io::Error),
}

impl From<AllocError> for Fault {
    fn from(_: AllocError) -> Self {
        Fault::Memory(Memory)
    }
}

impl<T: Drop> From<AllocFailed<T>> for Fault {
    fn from(_: AllocFailed<T>) -> Self {
        Fault::Memory(Memory)
    }
}
