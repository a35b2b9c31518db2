use nc_name::Sequence;

/// A part of a name on a cloud.
#[derive(Clone, Copy, Debug, PartialEq, Eq)]
pub enum Part {
    /// The metadata, in the slot of its generation.
    Meta,
    /// The chunk of this row.
    Chunk(u8),
}

/// Why a part isn't right.
#[derive(Clone, Copy, Debug, PartialEq, Eq)]
pub enum State {
    /// There is no object.
    Missing,
    /// The object is no sealed metadata of this cloud and width, or no frame of a chunk of the length that is told.
    Broken,
    /// The object is sealed metadata of a lower generation.
    Old,
    /// The chunk has the length that is told, and another digest.
    Marked,
}

/// A part that isn't right.
#[derive(Clone, Copy, Debug, PartialEq, Eq)]
pub struct Flaw {
    pub cloud: u8,
    pub part: Part,
    pub state: State,
}

/// Parts that aren't right: by cloud, metadata first and then row by row.
pub type Flaws = Sequence<Flaw>;
