//! A chunk judged with both of its digests computed at the same time.
ghost use Rattle.std.specs.Prelude.{◌≡◌, Option, Some, List, ℕ, IfOk, OnOk, length, true};
ghost use Rattle.sha2.specs.Sha256.{sha256};
ghost use Rattle.nc_name.specs.Keys.{Slots, key_text};
ghost use Rattle.nc_cloud.specs.Fleet.{is_bytes, Shows};
ghost use Rattle.nc_frame.specs.Opening.{Opens};
ghost use Rattle.nc_download.specs.Chunks.{frame_len, IsInner, IsJudged};
ghost use Rattle.nc_cloud.specs.Deciding.{IsSeen};

use crate::inner::inner_of;
use crate::judging::{Wanted, judge, judge_bytes};
use crate::short::How;
use nc_bytes::is_same;
use nc_cloud::Answer;
use nc_frame::{Seen, open};
use sha2::{Digest, Sha256};
use std::thread::{Threads, join};

/// As `judge`. Two workers compute the digests of the frame and of the payload, of which one takes as long as the other, at the
/// same time, where a thread can be begun.
pub fn judge_by<'a, R: Threads>(
    rt: &R,
    wanted: &Wanted,
    answer: &'a Answer,
    workers: u8,
) -> Result<&'a [u8], How>
    requires slots { Slots wanted.now.key }
    requires seen { IsSeen answer.now ≡ true }
    ensures verdict { (held : Option (List ℕ))
        → Shows answer.now (frame_len wanted.now) held
        → IsJudged wanted.now held result }
    ensures long { IfOk result (λ payload. length payload.now ≡ wanted.now.size) }
    ensures given { OnOk result (is_bytes answer.now ≡ true) }
{
    match answer {
        Answer::Bytes(blob) => judge_frame(rt, wanted, blob.bytes(), workers),
        _ => judge(wanted, answer),
    }
}

/// As `judge_by`, of bytes that a cloud gave, however many they are.
pub fn judge_frame<'a, R: Threads>(
    rt: &R,
    wanted: &Wanted,
    bytes: &'a [u8],
    workers: u8,
) -> Result<&'a [u8], How>
    requires slots { Slots wanted.now.key }
    ensures verdict { IsJudged wanted.now (Some bytes.now) result }
    ensures long { IfOk result (λ payload. length payload.now ≡ wanted.now.size) }
{
    if workers < 2 {
        return judge_bytes(wanted, bytes);
    }
    judge_at_once(rt, wanted, bytes)
}

/// As `judge_bytes`, with both digests computed at the same time.
fn judge_at_once<'a, R: Threads>(rt: &R, wanted: &Wanted, bytes: &'a [u8]) -> Result<&'a [u8], How>
    requires slots { Slots wanted.now.key }
    ensures verdict { IsJudged wanted.now (Some bytes.now) result }
    ensures long { IfOk result (λ payload. length payload.now ≡ wanted.now.size) }
{
    let Some(inner) = inner_of(wanted, bytes) else {
        return Err(How::Broken);
    };
    let (seen, digest) = join(
        rt,
        || open(wanted.cloud, wanted.width, &wanted.key, bytes),
        || -> [u8; 32]
            ensures { result ≡ sha256 inner.entry.now }
        { Sha256::digest(inner) },
    );
    verdict(wanted, bytes, inner, seen, &digest)
}

/// What stands in the payload's place, where the bytes are the chunk's frame, and this digest is the mark.
fn verdict<'a>(
    wanted: &Wanted,
    bytes: &[u8],
    inner: &'a [u8],
    seen: Seen<'_>,
    digest: &[u8; 32],
) -> Result<&'a [u8], How>
    requires inner { IsInner wanted.now bytes.now inner.now }
    requires opens { Opens bytes.now wanted.now.cloud wanted.now.width (key_text wanted.now.key) seen }
    requires digest { digest.now ≡ sha256 inner.now }
    ensures verdict { IsJudged wanted.now (Some bytes.now) result }
    ensures long { IfOk result (λ payload. length payload.now ≡ wanted.now.size) }
{
    let Seen::Payload(_) = seen else {
        return Err(How::Broken);
    };
    if is_same(digest, &wanted.mark) {
        Ok(inner)
    } else {
        Err(How::Marked)
    }
}
