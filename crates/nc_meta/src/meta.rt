ghost use Rattle.std.specs.Prelude.{◌≡◌, ◌≤◌, Some, IfOk, IfSome, IfNone};
ghost use Rattle.nc_meta.specs.declared.meta.Meta.{Meta as MetaValue};
ghost use Rattle.nc_meta.specs.Metas.{IsMeta, Spells, generation_of};

use crate::gone::{gone_bytes, read_gone};
use crate::live::{live_bytes, read_live};
use nc_code::{Code, Witnesses};
use nc_name::{Blob, Memory};
use std::alloc::Global;

/// What is stored of a file: it has this content, or it was deleted.
#[derive(Clone, Copy, Debug)]
pub enum Meta {
    Live(Live),
    Gone { generation: u64 },
}

/// What is stored of a file that has a content.
#[derive(Clone, Copy, Debug)]
pub struct Live {
    /// Counts the versions of the file, from 1 on.
    pub generation: u64,
    /// The bytes of the file, at most 2^26.
    pub len: u64,
    /// What the clouds hold.
    pub code: Code,
    /// By cloud: the slot, 0 or 1, that its chunks stand in.
    pub slots: [u8; 10],
    /// The SHA-256 of the payload of row `r` of cloud `c` is `marks[2c+r]`.
    pub marks: [[u8; 32]; 20],
    /// A plan for each cloud that may be lost next, if they were found.
    pub witnesses: Option<Witnesses>,
}

impl Meta {
    pub fn generation(&self) -> u64
        ensures { result ≡ generation_of self.now }
    {
        match self {
            Meta::Live(live) => live.generation,
            Meta::Gone { generation } => *generation,
        }
    }

    /// The payload, at this width.
    pub fn write(&self, alloc: Global, width: u8) -> Result<Blob, Memory>
        requires wide { 4 ≤ width }
        requires narrow { width ≤ 10 }
        requires fits { IsMeta width self.now }
        ensures { IfOk result (λ blob. Spells width blob self.now) }
    {
        let bytes = match self {
            Meta::Live(live) => live_bytes(alloc, width, live)?,
            Meta::Gone { generation } => gone_bytes(alloc, *generation)?,
        };
        Ok(Blob::from_vec(bytes))
    }

    /// The meta whose payload this is, at this width. Whether its code is MDS or its plans are witnesses isn't asked.
    pub fn read(width: u8, payload: &[u8]) -> Option<Meta>
        requires wide { 4 ≤ width }
        requires narrow { width ≤ 10 }
        ensures some { IfSome result (Spells width payload.now) }
        ensures none { IfNone result ((meta : MetaValue) → Spells width payload.now meta → ⊥) }
        ensures is { (meta : MetaValue) → Spells width payload.now meta → result ≡ Some meta }
    {
        if let Some(generation) = read_gone(payload) {
            return Some(Meta::Gone { generation });
        }
        match read_live(width, payload) {
            Some(live) => Some(Meta::Live(live)),
            None => None,
        }
    }
}
