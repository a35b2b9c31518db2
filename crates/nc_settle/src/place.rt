use nc_meta::Meta;

/// What stands on a cloud under one of the two metadata keys of a name.
#[derive(Clone, Copy, Debug)]
pub enum Place {
    /// There is no object.
    Absent,
    /// An object that is none of the below: torn, under another key, too long, or with a payload that is no meta of this slot.
    Broken,
    /// A whole frame of another cloud or width: it says these.
    Misplaced { said_cloud: u8, said_width: u8 },
    /// The cloud failed.
    Failed,
    /// A sealed meta: a whole frame of this cloud, width and key, whose payload is this meta, and whose generation modulo 2 is
    /// the slot.
    Sealed(Meta),
}
