ghost use Rattle.std.specs.Prelude.{◌≡◌, ◌<◌, ◌≤◌, All, [], length, map, replicate, IfOk, OnOk};
ghost use Rattle.std.specs.Borrow.{Bor};
ghost use Rattle.nc_native.specs.Native.{AllLong};
ghost use Rattle.nc_mix.specs.Mixing.{lent, mixed};
ghost use Rattle.nc_mix.specs.Strips.{HoldParts, HoldsPart, parts_in};
ghost use Rattle.nc_mix.specs.Sums.{AllExtend, AreSums, Extends, kept};

use crate::Chunks;
use crate::gates::Gate;
use crate::strips::{Strip, mix_block, strips_for};
use crate::sum::Sum;
use nc_bytes::part_of;
use nc_name::Memory;
use std::alloc::Global;
use std::thread;
use std::thread::Threads;

/// The mixes of the sources by the rows, block by block: a source is read once for all of them.
pub fn mix_rows<R: Threads + Sync, G: Gate + Sync>(
    rt: &R,
    alloc: Global,
    sources: &[&[u8]],
    rows: &[[u8; 16]],
    size: usize,
    workers: u8,
    gate: &G,
) -> Result<Chunks, Memory>
    requires few { length (lent sources.now) ≤ 16 }
    requires long { AllLong size (lent sources.now) }
    requires some_worker { 1 ≤ workers }
    ensures { IfOk result
        (λ chunks. chunks ≡ map (λ row. mixed size row (lent sources.now)) rows.now) }
{
    let mut sums = empty_sums(alloc, rows.len(), size)?;
    let mut strips = strips_for(alloc, workers, size)?;
    add_blocks(
        rt,
        &mut sums,
        &mut strips,
        sources,
        rows,
        size,
        workers,
        gate,
    )?;
    finish(alloc, sums)
}

/// So many empty sums, with room for so many bytes each.
fn empty_sums(alloc: Global, count: usize, size: usize) -> Result<Vec<Sum>, Memory>
    ensures { IfOk result (λ v. v.items ≡ replicate count (kept [])) }
{
    let mut sums = Vec::new(alloc);
    for _ in 0..count {
        if sums.push(Sum::with_room(alloc, size)?).is_err() {
            return Err(Memory);
        }
    }
    Ok(sums)
}

/// Makes block after block, and puts each behind what is there of the sums, where memory is found for it.
fn add_blocks<R: Threads + Sync, G: Gate + Sync>(
    rt: &R,
    sums: &mut [Sum],
    strips: &mut [Strip],
    sources: &[&[u8]],
    rows: &[[u8; 16]],
    size: usize,
    workers: u8,
    gate: &G,
) -> Result<(), Memory>
    requires some_worker { 1 ≤ workers }
    requires few { length (lent sources.now) ≤ 16 }
    requires long { AllLong size (lent sources.now) }
    requires some_strip { 0 < length strips.old }
    requires empty { sums.old ≡ replicate (length rows.now) (kept []) }
    ensures { OnOk result (AreSums size rows.now (lent sources.now) sums.new) }
{
    let mut at = 0;
    while at < size {
        at = mix_block(rt, strips, sources, rows, size, at, workers, gate)?;
        extend_all(rt, sums, strips, workers);
    }
    Ok(())
}

/// Puts the parts of all strips behind what is there of the sums, by up to `workers` threads.
fn extend_all<R: Threads + Sync>(rt: &R, sums: &mut [Sum], strips: &[Strip], workers: u8)
    requires some_worker { 1 ≤ workers }
    requires parts { HoldParts (length sums.old) strips.now }
    ensures { AllExtend strips.now sums.old sums.new }
{
    thread::for_each_mut(
        rt,
        sums,
        usize::from(workers),
        &|k, sum| extend(sum, strips, k),
    );
}

/// Puts part `k` of each strip in turn behind what is there of the sum.
fn extend(sum: &mut Sum, strips: &[Strip], k: usize)
    requires { All (HoldsPart k) strips.now }
    ensures { Extends (parts_in k strips.now) sum.old sum.new }
{
    for strip in strips {
        sum.append(part_of(&strip.bytes, k * strip.count, strip.count));
    }
}

/// The finished sums.
fn finish(alloc: Global, sums: Vec<Sum>) -> Result<Chunks, Memory>
    ensures { IfOk result (λ chunks. sums.items ≡ map kept chunks) }
{
    let mut chunks = Chunks::new(alloc);
    for sum in sums {
        chunks.push(sum.finish()?)?;
    }
    Ok(chunks)
}
