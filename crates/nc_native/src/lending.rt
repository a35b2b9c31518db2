ghost use Rattle.std.specs.Prelude.{◌≡◌, ◌*◌, ◌≤◌, length, take, IfOk};
ghost use Rattle.nc_gf256.specs.Width.{native_count};
ghost use Rattle.nc_native.specs.Native.{chunk_size, lent, natives_of, tail_of, whole_count};

use crate::Natives;
use crate::cutting::{chunk_size, cut_from};
use nc_name::Memory;
use std::alloc::Global;

/// The natives of a file that it doesn't fill. Only these need memory of their own: the others lie in the file.
pub fn tail_of(alloc: Global, bytes: &[u8], width: u8) -> Result<Natives, Memory>
    requires wide { 4 ≤ width }
    requires narrow { width ≤ 10 }
    ensures { IfOk result (λ tail. tail ≡ tail_of bytes.now width) }
{
    let whole = whole_count(bytes.len() as u64, width) as usize;
    cut_from(alloc, bytes, width, whole)
}

/// All natives of a file, where they stand in it and in its tail.
pub fn lend_natives<'a>(
    alloc: Global,
    bytes: &'a [u8],
    width: u8,
    tail: &'a Natives,
) -> Result<Vec<&'a [u8]>, Memory>
    requires wide { 4 ≤ width }
    requires narrow { width ≤ 10 }
    requires tail { tail.now ≡ tail_of bytes.now width }
    ensures { IfOk result (λ list. lent list.items ≡ natives_of bytes.now width) }
{
    let mut list = lend_whole(alloc, bytes, width)?;
    for native in tail.items() {
        if list.push(native.bytes()).is_err() {
            return Err(Memory);
        }
    }
    Ok(list)
}

/// The natives that lie wholly in a file.
fn lend_whole(alloc: Global, bytes: &[u8], width: u8) -> Result<Vec<&[u8]>, Memory>
    requires wide { 4 ≤ width }
    requires narrow { width ≤ 10 }
    ensures { IfOk result
        (λ list. lent list.items
        ≡ take (whole_count (length bytes.now) width) (natives_of bytes.now width)) }
{
    let size = chunk_size(bytes.len() as u64, width) as usize;
    let mut list = Vec::new(alloc);
    let mut rest = bytes;
    for _i in 0..whole_count(bytes.len() as u64, width) as usize {
        let (front, back) = rest.split_at(size);
        if list.push(front).is_err() {
            return Err(Memory);
        }
        rest = back;
    }
    Ok(list)
}

/// How many natives lie wholly in a file of `len` bytes.
fn whole_count(len: u64, width: u8) -> u64
    requires wide { 4 ≤ width }
    requires narrow { width ≤ 10 }
    ensures count { result ≡ whole_count len width }
    ensures few { result ≤ native_count width }
    ensures fits { result * chunk_size len width ≤ len }
{
    len / chunk_size(len, width).max(1)
}
