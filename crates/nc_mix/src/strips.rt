ghost use Rattle.std.specs.Prelude.{◌≡◌, ◌*◌, ◌<◌, ◌≤◌, All, true, length, IfOk};
ghost use Rattle.std.specs.Borrow.{Bor};
ghost use Rattle.nc_native.specs.Native.{AllLong};
ghost use Rattle.nc_mix.specs.Mixing.{lent};
ghost use Rattle.nc_mix.specs.Strips.{AllMix, Follow, HasRoom, IsMade, IsMixed, LiesWithin, Mixes};

use crate::adding::mix_parts;
use crate::gates::Gate;
use nc_name::Memory;
use std::alloc::Global;
use std::thread;
use std::thread::Threads;

// The bytes of a strip, few enough that they and those of the sources stay in the nearest caches
// from row to row.
const STRIP: usize = 262_144;

// So many strips are made before the threads are joined: to begin threads for fewer costs more
// than to make them.
const STRIPS: usize = 64;

/// What a worker makes at once: a part of each row's mix, one after another.
#[derive(Drop)]
pub struct Strip {
    /// The place of the part's first byte in its mix.
    pub start: usize,
    /// The length of each part.
    pub count: usize,
    /// Memory was found for the parts, and they are made.
    pub made: bool,
    pub bytes: Vec<u8>,
}

/// Empty strips for mixes of so many bytes, for so many workers.
pub fn strips_for(alloc: Global, workers: u8, size: usize) -> Result<Vec<Strip>, Memory>
    ensures { IfOk result (λ v. 0 < length v.items) }
{
    let mut strips = Vec::new(alloc);
    for _ in 0..strip_count(workers, size) {
        let strip = Strip {
            start: 0,
            count: 0,
            made: false,
            bytes: Vec::new(alloc),
        };
        if strips.push(strip).is_err() {
            return Err(Memory);
        }
    }
    Ok(strips)
}

/// One strip, where no threads are begun. Of fewer bytes than strips each worker has one: else the first would have them all.
fn strip_count(workers: u8, size: usize) -> usize
    ensures { 0 < result }
{
    if workers < 2 {
        1
    } else if size < STRIPS {
        usize::from(workers)
    } else {
        STRIPS
    }
}

/// Makes the next block of all mixes, from `at` on, cut among the strips, and tells where it ends. `Memory` says that none was found
/// for some strip.
pub fn mix_block<R: Threads + Sync, G: Gate + Sync>(
    rt: &R,
    strips: &mut [Strip],
    sources: &[&[u8]],
    rows: &[[u8; 16]],
    size: usize,
    at: usize,
    workers: u8,
    gate: &G,
) -> Result<usize, Memory>
    requires some_worker { 1 ≤ workers }
    requires few { length (lent sources.now) ≤ 16 }
    requires long { AllLong size (lent sources.now) }
    requires left { at < size }
    requires some_strip { 0 < length strips.old }
    ensures room { IfOk result (λ end. All (HasRoom (length rows.now) size) strips.new) }
    ensures mixed { IfOk result (λ end. All (IsMixed rows.now (lent sources.now)) strips.new) }
    ensures follow { IfOk result (Follow at strips.new) }
    ensures on { IfOk result (λ end. at < end) }
    ensures within { IfOk result (λ end. end ≤ size) }
{
    let part = (size - at)
        .div_ceil(strips.len())
        .min(longest_part(rows.len()));
    let end = plan(strips, size, at, part);
    mix_strips(rt, strips, sources, rows, size, workers, gate);
    if are_made(strips) {
        Ok(end)
    } else {
        Err(Memory)
    }
}

/// How many bytes of each of so many mixes a strip has at most.
fn longest_part(rows: usize) -> usize
    ensures { 0 < result }
{
    (STRIP / rows.max(1)).max(1)
}

/// Gives each strip the next part. Tells where the last part ends.
fn plan(strips: &mut [Strip], size: usize, at: usize, part: usize) -> usize
    requires within { at ≤ size }
    ensures fits { All (LiesWithin size) strips.new }
    ensures follow { Follow at strips.new result }
    ensures up { at ≤ result }
    ensures on { 0 < length strips.old → 0 < part → at < size → at < result }
    ensures within { result ≤ size }
{
    let Some((strip, others)) = strips.split_first_mut() else {
        return at;
    };
    let count = part.min(size - at);
    strip.start = at;
    strip.count = count;
    plan(others, size, at + count, part)
}

/// Whether the parts of all strips are made.
fn are_made(strips: &[Strip]) -> bool
    ensures { result ≡ true → All IsMade strips.now }
{
    strips.iter().all(|strip| strip.made)
}

/// Makes the parts of all strips, by up to `workers` threads.
fn mix_strips<R: Threads + Sync, G: Gate + Sync>(
    rt: &R,
    strips: &mut [Strip],
    sources: &[&[u8]],
    rows: &[[u8; 16]],
    size: usize,
    workers: u8,
    gate: &G,
)
    requires some_worker { 1 ≤ workers }
    requires few { length (lent sources.now) ≤ 16 }
    requires long { AllLong size (lent sources.now) }
    requires fits { All (LiesWithin size) strips.old }
    ensures { AllMix rows.now (lent sources.now) strips.old strips.new }
{
    thread::for_each_mut(
        rt,
        strips,
        usize::from(workers),
        &|_, strip| mix_strip(strip, sources, rows, size, gate),
    );
}

/// Makes the parts of a strip, where memory is found for them.
fn mix_strip<G: Gate>(
    strip: &mut Strip,
    sources: &[&[u8]],
    rows: &[[u8; 16]],
    size: usize,
    gate: &G,
)
    requires few { length (lent sources.now) ≤ 16 }
    requires long { AllLong size (lent sources.now) }
    requires fits { LiesWithin size strip.old }
    ensures { Mixes rows.now (lent sources.now) strip.old strip.new }
{
    if strip.count > 0 {
        gate.enter();
    }
    make_room(strip, rows.len());
    if strip.made {
        mix_parts(
            &mut strip.bytes,
            sources,
            rows,
            size,
            strip.start,
            strip.count,
        );
    }
}

/// Makes room for a part of each of so many mixes, where memory is found for it.
fn make_room(strip: &mut Strip, rows: usize)
    ensures start { strip.new.start ≡ strip.old.start }
    ensures count { strip.new.count ≡ strip.old.count }
    ensures room { strip.new.made ≡ true → length strip.new.bytes.items ≡ rows * strip.old.count }
{
    strip.made = match rows.checked_mul(strip.count) {
        Some(room) => strip.bytes.resize(room, 0).is_ok(),
        None => false,
    };
}
