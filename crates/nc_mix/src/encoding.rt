ghost use Rattle.std.specs.Prelude.{◌≡◌, ℕ, ◌*◌, ◌<◌, ◌≤◌, List, length, IfOk};
ghost use Rattle.std.specs.Borrow.{Bor};
ghost use Rattle.nc_gf256.specs.Width.{native_count};
ghost use Rattle.nc_native.specs.Native.{natives_of, native_len, AllLong};
ghost use Rattle.nc_mix.specs.Mixing.{AreChunksOf, chunks_of, lent};

use crate::Chunks;
use crate::decoding::first_rows;
use crate::gates::Gate;
use crate::sums::mix_rows;
use nc_code::Code;
use nc_name::{Blob, Memory};
use nc_native::{Natives, lend_natives, tail_of};
use std::alloc::Global;
use std::thread::Threads;

/// The chunks of all clouds: chunk `2c+r` is the combination of the natives by row `r` of cloud `c`. The natives are the
/// `2 * (width - 2)` of the code's width, all of one length. Workers and gate change nothing in the answer.
pub fn encode<R: Threads + Sync, G: Gate + Sync>(
    rt: &R,
    alloc: Global,
    natives: &Natives,
    code: &Code,
    workers: u8,
    gate: &G,
) -> Result<Chunks, Memory>
    requires count { length natives.now ≡ native_count code.now.width }
    requires long { AllLong (native_len natives.now) natives.now }
    requires some_worker { 1 ≤ workers }
    requires few_workers { workers ≤ 16 }
    ensures chunks { IfOk result (λ chunks. chunks ≡ chunks_of (2 * code.now.width) code.now.rows natives.now) }
    ensures count { IfOk result (λ chunks. length chunks ≡ 2 * code.now.width) }
    ensures of_file { IfOk result (λ chunks. (v : List ℕ) → natives.now ≡ natives_of v code.now.width → AreChunksOf code.now v chunks) }
{
    let sources = lend(alloc, natives.items())?;
    encode_lent(rt, alloc, &sources, code, workers, gate)
}

/// The chunks of a file, as `encode` makes them of its natives. No native that lies wholly in the file is copied.
pub fn encode_file<R: Threads + Sync, G: Gate + Sync>(
    rt: &R,
    alloc: Global,
    bytes: &[u8],
    code: &Code,
    workers: u8,
    gate: &G,
) -> Result<Chunks, Memory>
    requires some_worker { 1 ≤ workers }
    requires few_workers { workers ≤ 16 }
    ensures count { IfOk result (λ chunks. length chunks ≡ 2 * code.now.width) }
    ensures of_file { IfOk result (AreChunksOf code.now bytes.now) }
{
    let tail = tail_of(alloc, bytes, code.width())?;
    let sources = lend_natives(alloc, bytes, code.width(), &tail)?;
    encode_lent(rt, alloc, &sources, code, workers, gate)
}

/// The chunks made of natives, wherever these lie.
fn encode_lent<R: Threads + Sync, G: Gate + Sync>(
    rt: &R,
    alloc: Global,
    sources: &[&[u8]],
    code: &Code,
    workers: u8,
    gate: &G,
) -> Result<Chunks, Memory>
    requires count { length (lent sources.now) ≡ native_count code.now.width }
    requires long { AllLong (native_len (lent sources.now)) (lent sources.now) }
    requires some_worker { 1 ≤ workers }
    requires few_workers { workers ≤ 16 }
    ensures chunks { IfOk result
        (λ chunks. chunks ≡ chunks_of (2 * code.now.width) code.now.rows (lent sources.now)) }
    ensures count { IfOk result (λ chunks. length chunks ≡ 2 * code.now.width) }
    ensures of_file { IfOk result
        (λ chunks. (v : List ℕ) →
        lent sources.now ≡ natives_of v code.now.width →
        AreChunksOf code.now v chunks) }
{
    let rows = first_rows(&code.rows, 2 * code.width() as usize);
    let size = sources[0].len();
    mix_rows(rt, alloc, sources, rows, size, workers, gate)
}

/// The bytes of each blob.
pub fn lend(alloc: Global, blobs: &[Blob]) -> Result<Vec<&[u8]>, Memory>
    ensures { IfOk result (λ v. lent v.items ≡ blobs.now) }
{
    let mut list = Vec::new(alloc);
    for blob in blobs {
        if list.push(blob.bytes()).is_err() {
            return Err(Memory);
        }
    }
    Ok(list)
}
