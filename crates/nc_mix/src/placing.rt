ghost use Rattle.std.specs.Prelude.{◌≡◌, ◌+◌, ◌*◌, ◌<◌, ◌≤◌, All, length, OnOk};
ghost use Rattle.std.specs.Borrow.{Bor};
ghost use Rattle.nc_native.specs.Native.{AllLong};
ghost use Rattle.nc_mix.specs.Mixing.{lent};
ghost use Rattle.nc_mix.specs.Decoding.{solved};
ghost use Rattle.nc_mix.specs.Strips.{HasRoom, HoldsPart, LiesWithin};
ghost use Rattle.nc_mix.specs.Placing.{ArePlaced, placed, put_at};

use crate::gates::Gate;
use crate::strips::{Strip, mix_block};
use nc_bytes::part_of;
use nc_name::Memory;
use std::thread;
use std::thread::Threads;

/// Makes block after block of the mixes, which lie side by side in `sums`, and writes each there.
pub fn place_blocks<R: Threads + Sync, G: Gate + Sync>(
    rt: &R,
    sums: &mut [u8],
    strips: &mut [Strip],
    sources: &[&[u8]],
    rows: &[[u8; 16]],
    size: usize,
    workers: u8,
    gate: &G,
) -> Result<(), Memory>
    requires some_worker { 1 ≤ workers }
    requires few { length (lent sources.now) ≤ 16 }
    requires long { AllLong size (lent sources.now) }
    requires some_strip { 0 < length strips.old }
    requires room { length sums.old ≡ length rows.now * size }
    ensures { OnOk result (sums.new ≡ solved size (lent sources.now) rows.now) }
{
    let mut at = 0;
    while at < size {
        at = mix_block(rt, strips, sources, rows, size, at, workers, gate)?;
        place_all(rt, sums, strips, rows.len(), size, workers);
    }
    Ok(())
}

/// Writes the parts of all strips into the sums, of which there are so many of one size, by up to `workers` threads.
fn place_all<R: Threads + Sync>(
    rt: &R,
    sums: &mut [u8],
    strips: &[Strip],
    rows: usize,
    size: usize,
    workers: u8,
)
    requires some_worker { 1 ≤ workers }
    requires some_byte { 0 < size }
    requires room { length sums.old ≡ rows * size }
    requires parts { All (HasRoom rows size) strips.now }
    ensures { ArePlaced 0 size strips.now sums.old sums.new }
{
    if rows > 0 {
        let group = rows.div_ceil(usize::from(workers)) * size;
        thread::for_each_chunk_mut(
            rt,
            sums,
            group,
            &|start, part| place_group(part, strips, start / size, rows, size),
        );
    }
}

/// Writes the parts of all strips into sums that lie side by side. The first of them is sum `first` of so many.
fn place_group(sums: &mut [u8], strips: &[Strip], first: usize, rows: usize, size: usize)
    requires some_byte { 0 < size }
    requires room { first * size + length sums.old ≤ rows * size }
    requires parts { All (HasRoom rows size) strips.now }
    ensures { ArePlaced first size strips.now sums.old sums.new }
{
    if size <= sums.len() {
        let (sum, others) = sums.split_at_mut(size);
        place(sum, strips, first);
        place_group(others, strips, first + 1, rows, size);
    }
}

/// Writes part `k` of each strip into the sum.
fn place(sum: &mut [u8], strips: &[Strip], k: usize)
    requires parts { All (HoldsPart k) strips.now }
    requires fits { All (LiesWithin (length sum.old)) strips.now }
    ensures { sum.new ≡ placed k strips.now sum.old }
{
    for strip in strips {
        let part = part_of(&strip.bytes, k * strip.count, strip.count);
        put(sum, part, strip.start);
    }
}

/// Writes the part over what the sum holds from `start` on.
fn put(sum: &mut [u8], part: &[u8], start: usize)
    requires { start + length part.now ≤ length sum.old }
    ensures { sum.new ≡ put_at start part.now sum.old }
{
    sum[start..start + part.len()].copy_from_slice(part);
}
