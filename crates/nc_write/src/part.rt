/// A part of a name's objects: one on each cloud.
#[derive(Clone, Copy, Debug, PartialEq, Eq)]
pub enum Part {
    /// The metadata in this slot.
    Metas { slot: u8 },
    /// The chunk of this row in the slot that new chunks go to.
    Beside { row: u8 },
    /// The chunk of this row in the slot beside that one: the one that the metadata of a file names.
    Named { row: u8 },
}
