ghost use Rattle.std.specs.Prelude.{◌≡◌, Option, Some, List, ℕ, IfOk, OnOk, length, true};
ghost use Rattle.nc_name.specs.Keys.{Slots};
ghost use Rattle.nc_cloud.specs.Fleet.{is_bytes, Shows};
ghost use Rattle.nc_download.specs.Chunks.{frame_len, IsJudged};
ghost use Rattle.nc_cloud.specs.Deciding.{IsSeen};

use crate::short::How;
use nc_bytes::is_same;
use nc_cloud::Answer;
use nc_frame::{Seen, open};
use nc_name::Key;
use sha2::{Digest, Sha256};

/// A chunk that metadata tells of.
#[derive(Clone, Copy, Debug)]
pub struct Wanted {
    pub cloud: u8,
    /// The number of clouds.
    pub width: u8,
    pub key: Key,
    /// The bytes of the payload.
    pub size: u64,
    /// The SHA-256 of the payload.
    pub mark: [u8; 32],
}

/// The payload of the chunk, where the answer gives it; else what is wrong. Nothing that is asked for up to the length of
/// its frame is told to be good but the payload whose digest is the mark.
pub fn judge<'a>(wanted: &Wanted, answer: &'a Answer) -> Result<&'a [u8], How>
    requires slots { Slots wanted.now.key }
    requires seen { IsSeen answer.now ≡ true }
    ensures verdict { (held : Option (List ℕ))
        → Shows answer.now (frame_len wanted.now) held
        → IsJudged wanted.now held result }
    ensures long { IfOk result (λ payload. length payload.now ≡ wanted.now.size) }
    ensures given { OnOk result (is_bytes answer.now ≡ true) }
{
    match answer {
        Answer::Bytes(blob) => judge_bytes(wanted, blob.bytes()),
        Answer::Absent => Err(How::Missing),
        _ => Err(How::Broken),
    }
}

/// The payload of the chunk, where these bytes are its frame; else what is wrong.
pub(crate) fn judge_bytes<'a>(wanted: &Wanted, bytes: &'a [u8]) -> Result<&'a [u8], How>
    requires slots { Slots wanted.now.key }
    ensures verdict { IsJudged wanted.now (Some bytes.now) result }
    ensures long { IfOk result (λ payload. length payload.now ≡ wanted.now.size) }
{
    let Seen::Payload(payload) = open(wanted.cloud, wanted.width, &wanted.key, bytes) else {
        return Err(How::Broken);
    };
    if payload.len() as u64 != wanted.size {
        return Err(How::Broken);
    }
    if is_same(&Sha256::digest(payload), &wanted.mark) {
        Ok(payload)
    } else {
        Err(How::Marked)
    }
}
