use nc_name::Blob;

/// What one cloud holds of a file: its two chunks.
#[derive(Debug, Drop)]
pub struct Piece {
    pub cloud: u8,
    /// The chunk of the cloud's row 0.
    pub zero: Blob,
    /// The chunk of the cloud's row 1.
    pub one: Blob,
}

/// The two chunks of one cloud, made anew.
#[derive(Debug, Drop)]
pub struct Pair {
    /// The chunk of the cloud's new row 0.
    pub zero: Blob,
    /// The chunk of the cloud's new row 1.
    pub one: Blob,
}
