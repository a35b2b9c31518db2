//! Where the payload stands in the frame of a chunk.
ghost use Rattle.std.specs.Prelude.{◌≡◌, ◌≢◌, ◌+◌, IfNone, IfSome, length};
ghost use Rattle.nc_name.specs.Keys.{Slots, key_text};
ghost use Rattle.nc_download.specs.Chunks.{frame_len, IsInner};

use crate::judging::Wanted;
use nc_bytes::part_of;
use nc_name::Blob;

/// What stands in the payload's place of a chunk's frame, where it is: it takes no memory.
pub fn payload_in(wanted: &Wanted, frame: Blob) -> Blob
    requires slots { Slots wanted.now.key }
    requires long { length frame ≡ frame_len wanted.now }
    ensures { IsInner wanted.now frame result }
{
    frame.into_part(payload_at(wanted), wanted.size as usize)
}

/// What stands in the payload's place, where the bytes are as many as the chunk's frame has.
pub(crate) fn inner_of<'a>(wanted: &Wanted, bytes: &'a [u8]) -> Option<&'a [u8]>
    requires slots { Slots wanted.now.key }
    ensures some { IfSome result (λ inner. IsInner wanted.now bytes.now inner.now) }
    ensures none { IfNone result (length bytes.now ≢ frame_len wanted.now) }
{
    let at = payload_at(wanted);
    let Some(rest) = bytes.len().checked_sub(at) else {
        return None;
    };
    if rest < 32 {
        return None;
    }
    let len = rest - 32;
    if len as u64 != wanted.size {
        return None;
    }
    Some(part_of(bytes, at, len))
}

/// The place.
fn payload_at(wanted: &Wanted) -> usize
    requires { Slots wanted.now.key }
    ensures { result ≡ 16 + length (key_text wanted.now.key) }
{
    16 + wanted.key.text().as_str().len()
}
