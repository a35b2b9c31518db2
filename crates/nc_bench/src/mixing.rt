//! Encoding and decoding, by a code that is drawn as for a new file: few of its factors are 0.

ghost use Rattle.std.specs.Prelude.{◌≡◌, ◌+◌, ◌*◌, ◌<◌, ◌≤◌, length, IfOk};
ghost use Rattle.std.specs.List.{All, AllPairs};
ghost use Rattle.nc_code.specs.Codes.{IsMds};
ghost use Rattle.nc_native.specs.Native.{chunk_size};
ghost use Rattle.nc_mix.specs.Decoding.{IsBefore, IsLong};

use crate::fault::Fault;
use crate::pattern::bytes_of;
use crate::words::Mixing;
use nc_code::Code;
use nc_mix::{Open, Piece, decode, encode};
use nc_name::Blob;
use nc_native::{chunk_size, cut};
use nc_search::{Start, find_start};
use std::alloc::Global;
use std::rt::Clock;
use std::thread::Threads;
use std::time::{Duration, Instant};

/// The least times of a turn.
#[derive(Clone, Copy, Debug)]
pub struct Times {
    /// From the natives of a file to the chunks of all clouds.
    pub encode: Duration,
    /// From the chunks of all clouds but the first two to the file.
    pub decode: Duration,
}

/// Encodes a file and decodes it again in each turn.
pub fn time_mixing<R: Clock + Threads + Sync>(
    rt: &R,
    alloc: Global,
    job: &Mixing,
) -> Result<Times, Fault> {
    let file = bytes_of(alloc, job.bytes)?;
    let code = code_of(job.width)?;
    let natives = cut(alloc, &file, job.width)?;
    let mut least = Times {
        encode: Duration::MAX,
        decode: Duration::MAX,
    };
    for _ in 0..job.turns {
        let start = Instant::now(rt)?;
        let chunks = encode(rt, alloc, &natives, &code, job.workers, &Open)?;
        least.encode = least.encode.min(start.elapsed(rt)?);
        let pieces = last_pieces(alloc, chunks.items(), job.width, file.len())?;
        let start = Instant::now(rt)?;
        let back = decode(
            rt,
            alloc,
            &pieces,
            &code,
            file.len() as u64,
            job.workers,
            &Open,
        )?;
        least.decode = least.decode.min(start.elapsed(rt)?);
        if back.bytes() != file.as_slice() {
            return Err(Fault::Wrong);
        }
    }
    Ok(least)
}

/// The first good code that a key of zeros draws at a width.
fn code_of(width: u8) -> Result<Code, Fault>
    requires wide { 4 ≤ width }
    requires narrow { width ≤ 10 }
    ensures width { IfOk result (λ code. code.width ≡ width) }
    ensures mds { IfOk result IsMds }
{
    match find_start(width, &[0; 32], 4096) {
        Start::Found { good, .. } => Ok(*good.code()),
        Start::Spent(_) => Err(Fault::Code),
    }
}

/// The pieces of all clouds but the first two, of which a file of `len` bytes is to come back.
fn last_pieces(alloc: Global, chunks: &[Blob], width: u8, len: usize) -> Result<Vec<Piece>, Fault>
    requires wide { 4 ≤ width }
    requires narrow { width ≤ 10 }
    requires count { length chunks.now ≡ 2 * width }
    ensures count { IfOk result (λ v. length v.items + 2 ≡ width) }
    ensures ascending { IfOk result (λ v. AllPairs IsBefore v.items) }
    ensures in_width { IfOk result (λ v. All (λ x. x.cloud < width) v.items) }
    ensures long { IfOk result (λ v. All (IsLong (chunk_size len width)) v.items) }
{
    let size = chunk_size(len as u64, width) as usize;
    let mut pieces = Vec::new(alloc);
    for cloud in 2..width {
        let zero = chunks[2 * cloud as usize].bytes();
        let one = chunks[2 * cloud as usize + 1].bytes();
        pieces.push(piece(alloc, cloud, zero, one, size)?)?;
    }
    Ok(pieces)
}

/// The piece of a cloud, whose chunks have `size` bytes.
fn piece(alloc: Global, cloud: u8, zero: &[u8], one: &[u8], size: usize) -> Result<Piece, Fault>
    ensures cloud { IfOk result (λ x. x.cloud ≡ cloud) }
    ensures long { IfOk result (IsLong size) }
{
    if zero.len() != size {
        return Err(Fault::Wrong);
    }
    if one.len() != size {
        return Err(Fault::Wrong);
    }
    let zero = Blob::from_slice(alloc, zero)?;
    let one = Blob::from_slice(alloc, one)?;
    Ok(Piece { cloud, zero, one })
}
