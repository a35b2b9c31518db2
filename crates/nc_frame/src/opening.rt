ghost use Rattle.std.specs.Prelude.{◌≡◌, ◌↔◌, ◌+◌, ◌≤◌, IfSome, IfNone, IsTrue, length, take, drop};
ghost use Rattle.sha2.specs.Sha256.{sha256};
ghost use Rattle.nc_name.specs.Keys.{Slots, key_text};
ghost use Rattle.nc_frame.specs.Frames.{Sealed, Whole};
ghost use Rattle.nc_frame.specs.Opening.{Opens};
ghost use Rattle.nc_frame.specs.declared.opening.Seen.TheVariants.{Misplaced};

use nc_bytes::{is_same, part_of, u16_at, u64_at};
use nc_name::Key;
use sha2::{Digest, Sha256};

/// What bytes that stand on a cloud under a key turn out to be.
#[derive(Clone, Copy, Debug)]
pub enum Seen<'a> {
    /// The payload, from a frame of this cloud, width and key.
    Payload(&'a [u8]),
    /// A whole frame of another cloud or width: it says these.
    Misplaced { said_cloud: u8, said_width: u8 },
    /// Not a whole frame, or one of this cloud and width under another key.
    Broken,
}

/// Reads what stands on this cloud, of so many, under this key. It takes no memory.
pub fn open<'a>(cloud: u8, width: u8, key: &Key, bytes: &'a [u8]) -> Seen<'a>
    requires { Slots key.now }
    ensures { Opens bytes.now cloud width (key_text key.now) result }
{
    let Some(parts) = read_parts(bytes) else {
        return Seen::Broken;
    };
    if parts.cloud != cloud || parts.width != width {
        return parts.misplaced();
    }
    if is_same(parts.key, key.text().as_str().as_bytes()) {
        Seen::Payload(parts.payload)
    } else {
        Seen::Broken
    }
}

/// The parts of a whole frame.
#[derive(Drop)]
struct Parts<'a> {
    cloud: u8,
    width: u8,
    key: &'a [u8],
    payload: &'a [u8],
}

impl<'a> Parts<'a> {
    fn misplaced(&self) -> Seen<'a>
        ensures { result ≡ Misplaced self.now.cloud self.now.width }
    {
        Seen::Misplaced {
            said_cloud: self.cloud,
            said_width: self.width,
        }
    }
}

/// The parts of a whole frame; of other bytes none. No length that the bytes tell is trusted.
fn read_parts(bytes: &[u8]) -> Option<Parts<'_>>
    ensures some { IfSome result (λ p. Sealed bytes.now p.cloud p.width p.key.now p.payload.now) }
    ensures none { IfNone result (Whole bytes.now → ⊥) }
{
    if bytes.len() < 48 {
        return None;
    }
    if !is_same(part_of(bytes, 0, 4), b"NCF1") {
        return None;
    }
    let key_len = u16_at(bytes, 6) as usize;
    if bytes.len() < 48 + key_len {
        return None;
    }
    let len = bytes.len() - 48 - key_len;
    if u64_at(bytes, 8 + key_len) != len as u64 {
        return None;
    }
    if !is_digested(bytes, 16 + key_len + len) {
        return None;
    }
    Some(Parts {
        cloud: bytes[4],
        width: bytes[5],
        key: part_of(bytes, 8, key_len),
        payload: part_of(bytes, 16 + key_len, len),
    })
}

/// Whether what stands from a place on is the SHA-256 of what stands before it.
pub(crate) fn is_digested(bytes: &[u8], end: usize) -> bool
    requires { end ≤ length bytes.now }
    ensures { IsTrue result ↔ (sha256 (take end bytes.now) ≡ drop end bytes.now) }
{
    let (front, digest) = bytes.split_at(end);
    is_same(&Sha256::digest(front), digest)
}
