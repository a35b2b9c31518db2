use thiserror::Error;

/// What a mill tells.
#[derive(Clone, Copy, Debug)]
pub struct Milled {
    /// The cloud that was lost and repaired.
    pub lost: u8,
    /// How many chunks the repair took from the other clouds.
    pub fetched: u64,
    /// The SHA-256 of the bytes that came back at last.
    pub digest: [u8; 32],
}

/// Why a mill tells nothing.
#[derive(Clone, Copy, Debug, Error)]
pub enum MillFault {
    /// None of so many candidates is a good code, for the file or for its repair.
    #[error("none of {0} candidates is good")]
    Spent(u16),
    /// Memory ran out.
    #[error("memory ran out")]
    Memory,
}
