use thiserror::Error;

/// Why a file wasn't written, or not to its end.
#[derive(Clone, Copy, Debug, PartialEq, Eq, Error)]
pub enum WriteFault {
    /// This is the least cloud that failed in the first round that wasn't Ok.
    #[error("cloud {0} failed")]
    Cloud(u8),
    /// The generation before was the last that can be stored.
    #[error("no generation is left")]
    Worn,
    /// No memory was found.
    #[error("no memory was found")]
    Memory,
}
