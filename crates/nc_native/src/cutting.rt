ghost use Rattle.std.specs.Prelude.{◌≡◌, ℕ, ◌*◌, ◌≤◌, List, drop, length, IfOk};
ghost use Rattle.nc_bytes.specs.Bytes.{padded};
ghost use Rattle.nc_gf256.specs.Width.{native_count};
ghost use Rattle.nc_native.specs.Native.{chunk_size, natives_of, native_len, AllLong};

use crate::Natives;
use nc_name::{Blob, Memory};
use std::alloc::Global;

/// The bytes of each chunk of a file of `len` bytes: a native is one part of `2 * (width - 2)`, rounded up.
pub fn chunk_size(len: u64, width: u8) -> u64
    requires wide { 4 ≤ width }
    requires narrow { width ≤ 10 }
    ensures { result ≡ chunk_size len width }
{
    len.div_ceil(2 * (u64::from(width) - 2))
}

/// Cuts a file into its `2 * (width - 2)` natives, all of one length. Zeros fill up the last ones.
pub fn cut(alloc: Global, bytes: &[u8], width: u8) -> Result<Natives, Memory>
    requires wide { 4 ≤ width }
    requires narrow { width ≤ 10 }
    ensures value { IfOk result (λ natives. natives ≡ natives_of bytes.now width) }
    ensures count { IfOk result (λ natives. length natives ≡ native_count width) }
    ensures long { IfOk result (λ natives. AllLong (native_len natives) natives) }
{
    cut_from(alloc, bytes, width, 0)
}

/// The natives of a file from this one on.
pub fn cut_from(alloc: Global, bytes: &[u8], width: u8, first: usize) -> Result<Natives, Memory>
    requires wide { 4 ≤ width }
    requires narrow { width ≤ 10 }
    requires few { first ≤ native_count width }
    requires fits { first * chunk_size (length bytes.now) width ≤ length bytes.now }
    ensures { IfOk result (λ natives. natives ≡ drop first (natives_of bytes.now width)) }
{
    let size = chunk_size(bytes.len() as u64, width) as usize;
    let mut natives = Natives::new(alloc);
    let (_, mut rest) = bytes.split_at(first * size);
    for _i in first..2 * (usize::from(width) - 2) {
        let (front, back) = rest.split_at(size.min(rest.len()));
        natives.push(filled_up(alloc, front, size)?)?;
        rest = back;
    }
    Ok(natives)
}

/// The bytes, and zeros up to `size` bytes.
fn filled_up(alloc: Global, front: &[u8], size: usize) -> Result<Blob, Memory>
    requires { length front.now ≤ size }
    ensures { IfOk result (λ blob. blob ≡ padded size front.now) }
{
    let Ok(mut bytes) = Vec::with_capacity(alloc, size) else {
        return Err(Memory);
    };
    if bytes.extend_from_slice(front).is_err() || bytes.resize(size, 0).is_err() {
        return Err(Memory);
    }
    Ok(Blob::from_vec(bytes))
}
