ghost use Rattle.std.specs.Prelude.{◌≡◌, ◌+◌, ◌<◌, ◌≤◌, ◌++◌, ◌^◌, ℕ, List, IfOk, length};
ghost use Rattle.nc_name.specs.Keys.{Slots, key_text};
ghost use Rattle.nc_frame.specs.Frames.{LaidOut, Sealed, finished, frame_front};

use nc_bytes::{part_of, told_bytes, u16_bytes, u64_bytes};
use nc_name::{BEHIND, Blob, FRONT, Key, Memory};
use sha2::{Digest, Sha256};
use std::alloc::Global;

/// The frame of a payload that is to stand on this cloud, of so many, under this key.
pub fn seal(alloc: Global, cloud: u8, width: u8, key: &Key, payload: &[u8]) -> Result<Blob, Memory>
    requires { Slots key.now }
    ensures { IfOk result (λ blob. Sealed blob cloud width (key_text key.now) payload.now) }
{
    let mut bytes = Blob::with_room(alloc, FRONT, payload.len().saturating_add(BEHIND))?;
    bytes.append(payload)?;
    seal_around(alloc, cloud, width, key, bytes)
}

/// The same of a payload that has room before and behind it: then it isn't copied.
pub fn seal_around(
    alloc: Global,
    cloud: u8,
    width: u8,
    key: &Key,
    payload: Blob,
) -> Result<Blob, Memory>
    requires { Slots key.now }
    ensures { IfOk result (λ blob. Sealed blob cloud width (key_text key.now) payload) }
{
    let frame = lay_out(alloc, cloud, width, key, payload)?;
    Ok(finish(frame))
}

/// The frame of a payload but for its digest, in whose place zeros stand until `finish`. It is made around a payload that has room
/// before and behind it.
pub fn lay_out(
    alloc: Global,
    cloud: u8,
    width: u8,
    key: &Key,
    payload: Blob,
) -> Result<Blob, Memory>
    requires { Slots key.now }
    ensures { IfOk result (λ blob. LaidOut blob cloud width (key_text key.now) payload) }
{
    told_bytes(payload.bytes());
    let text = key.text();
    let len = payload.bytes().len();
    let front = front_of(alloc, cloud, width, text.as_str().as_bytes(), len)?;
    let mut bytes = payload.with_front(alloc, &front)?;
    bytes.append(&[0; BEHIND])?;
    Ok(bytes)
}

/// A frame that was laid out, with its digest. It takes no memory.
pub fn finish(frame: Blob) -> Blob
    requires { 32 ≤ length frame }
    ensures { result ≡ finished frame }
{
    let end = frame.bytes().len() - BEHIND;
    let digest = Sha256::digest(part_of(frame.bytes(), 0, end));
    frame.with_end(&digest)
}

/// What stands before a payload of so many bytes.
#[tactic(auto, unfolding(crate::specs::Frames::frame_front))]
fn front_of(alloc: Global, cloud: u8, width: u8, key: &[u8], len: usize) -> Result<Vec<u8>, Memory>
    requires { length key.now < 2 ^ 16 }
    ensures { IfOk result
        (λ front. (payload : List ℕ) → length payload ≡ len
        → front.items ++ payload ≡ frame_front cloud width key.now payload) }
{
    let mut bytes = Vec::new(alloc);
    bytes.extend_from_slice(&[b'N', b'C', b'F', b'1', cloud, width])?;
    bytes.extend_from_slice(&u16_bytes(key.len() as u16))?;
    bytes.extend_from_slice(key)?;
    bytes.extend_from_slice(&u64_bytes(len as u64))?;
    Ok(bytes)
}
