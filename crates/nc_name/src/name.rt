ghost use Rattle.std.specs.Prelude.{◌≡◌, ◌↔◌, ◌<◌, ℕ, false, length, slice_index, IsTrue, IfOk, IfErr, IfSome, IfNone};
ghost use Rattle.nc_name.specs.Names.{IsName, IsFirstControl, RefusesName, is_control};

use nc_bytes::{is_same, padded};
use std::marker::Model;
use thiserror::Error;

/// The name of a file: 1 to 100 bytes of UTF-8 without control characters, seen as the list of its bytes.
/// It stands in a fixed array, whose unused bytes are 0, so that it is copied without memory.
#[derive(Clone, Copy, Debug)]
pub struct Name {
    bytes: [u8; 100],
    len: u8,
}

impl Model for Name {
    ghost use Rattle.std.specs.Prelude.{ℕ, List, take};

    ghost Value = { List ℕ };

    ghost use Rattle.nc_name.specs.Stored.{IsStored, fields_of, fields_back};

    ghost view = { λ n. take n.len n.bytes };

    ghost invariant = { IsStored };

    ghost inverse = { fields_of };

    ghost inverse_ok = { fields_back };
}

/// Why a text is no name. Of several causes the first here is told.
#[derive(Clone, Copy, Debug, PartialEq, Eq, Error)]
pub enum NameFault {
    /// It has no bytes.
    #[error("the name is empty")]
    Empty,
    /// It has this many bytes, which are more than 100.
    #[error("the name has {len} bytes, more than 100")]
    Long { len: u64 },
    /// The first control character stands at this byte: one below 0x20, or 0x7F.
    #[error("byte {at} of the name is a control character")]
    Control { at: u64 },
}

impl Name {
    /// The name that is this text.
    pub fn read(text: &str) -> Result<Name, NameFault>
        ensures ok { IfOk result (λ name. (name ≡ text.now) × IsName text.now) }
        ensures fault { IfErr result (RefusesName text.now) }
    {
        let bytes = text.as_bytes();
        if bytes.is_empty() {
            return Err(NameFault::Empty);
        }
        if 100 < bytes.len() {
            let len = bytes.len() as u64;
            return Err(NameFault::Long { len });
        }
        match first_control(bytes) {
            Some(at) => Err(NameFault::Control { at: at as u64 }),
            None => Ok(Name {
                bytes: padded(bytes),
                len: bytes.len() as u8,
            }),
        }
    }

    pub fn bytes(&self) -> &[u8]
        ensures same { result.now ≡ self.now }
        ensures name { IsName result.now }
    {
        nc_bytes::part_of(&self.bytes, 0, self.len as usize)
    }

    /// Whether two names are the same.
    pub fn is_same(&self, other: &Name) -> bool
        ensures { IsTrue result ↔ (self.now ≡ other.now) }
    {
        is_same(self.bytes(), other.bytes())
    }
}

/// The place of the first control character.
fn first_control(bytes: &[u8]) -> Option<usize>
    ensures some { IfSome result (IsFirstControl bytes.now) }
    ensures none { IfNone result ((i : ℕ) → i < length bytes.now → is_control (slice_index bytes.now i) ≡ false) }
{
    bytes.iter().position(|b| *b < 0x20 || *b == 0x7F)
}
