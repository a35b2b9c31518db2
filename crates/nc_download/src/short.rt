ghost use Rattle.std.specs.Prelude.{◌≡◌, ◌<◌, ◌++◌, ◌∷◌, [], length};

use std::marker::Model;

/// Why a chunk isn't good.
#[derive(Clone, Copy, Debug, PartialEq, Eq)]
pub enum How {
    /// There is no object.
    Missing,
    /// The object is no frame of this cloud, width and key whose payload has the length that is wanted.
    Broken,
    /// The payload has the length that is wanted and another digest.
    Marked,
}

/// Why a cloud gives nothing to a file.
#[derive(Clone, Copy, Debug, PartialEq, Eq)]
pub enum Why {
    /// The cloud failed.
    Failed,
    /// The first of its chunks that isn't good is that of this row.
    Row { row: u8, how: How },
}

/// A cloud that gives nothing to a file.
#[derive(Clone, Copy, Debug, PartialEq, Eq)]
pub struct Bad {
    pub cloud: u8,
    pub why: Why,
}

/// At most ten clouds that give nothing to a file, seen as their list. It takes no memory.
#[derive(Debug, Drop)]
pub struct ShortList {
    bads: [Bad; 10],
    len: usize,
}

impl Model for ShortList {
    ghost use Rattle.std.specs.Prelude.{◌≡◌, ◌≤◌, List, length, take};
    ghost use Rattle.nc_download.specs.declared.short.Bad.{Bad};

    ghost Value = { List Bad };

    ghost view = { λ s. take s.len s.bads };

    ghost invariant = { λ s. (length s.bads ≡ 10) × (s.len ≤ 10) };
}

impl ShortList {
    pub fn new() -> ShortList
        ensures { result ≡ [] }
    {
        let none = Bad {
            cloud: 0,
            why: Why::Failed,
        };
        ShortList {
            bads: [none; 10],
            len: 0,
        }
    }

    /// A cloud more.
    pub fn push(&mut self, bad: Bad)
        requires { length self.old < 10 }
        ensures { self.new ≡ self.old ++ bad ∷ [] }
    {
        self.bads[self.len] = bad;
        self.len += 1;
    }

    pub fn items(&self) -> &[Bad]
        ensures { result.now ≡ self.now }
    {
        &self.bads[..self.len]
    }
}
