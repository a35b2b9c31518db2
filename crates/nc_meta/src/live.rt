ghost use Rattle.std.specs.Prelude.{◌≡◌, ◌≤◌, ◌*◌, ◌++◌, [], IfOk, IfSome, IfNone, slice_index_or, take};
ghost use Rattle.nc_meta.specs.declared.meta.Live.{Live as LiveMeta};
ghost use Rattle.nc_gf256.specs.Width.{native_count};
ghost use Rattle.nc_meta.specs.Parts.{each};
ghost use Rattle.nc_meta.specs.Metas.{IsLive, SpellsLive, live_spelling};

use crate::meta::Live;
use crate::plans::{put_witnesses, read_witnesses};
use crate::tables::{are_bits, is_generation, put_rows, rows_at};
use nc_bytes::{is_same, padded, part_of, u64_at, u64_bytes};
use nc_code::Code;
use nc_name::Memory;
use std::alloc::Global;

/// The bytes of the longest file that is stored, 2^26.
const LONGEST: u64 = 67_108_864;

/// What is stored of a file that has a content.
pub(crate) fn read_live(width: u8, payload: &[u8]) -> Option<Live>
    requires wide { 4 ≤ width }
    requires narrow { width ≤ 10 }
    ensures some { IfSome result (SpellsLive width payload.now) }
    ensures none { IfNone result ((live : LiveMeta) → SpellsLive width payload.now live → ⊥) }
{
    let n = width as usize;
    let size = 2 * (n - 2);
    let slots_at = 21 + 2 * n * size;
    let marks_at = slots_at + n;
    let tail_at = marks_at + 2 * n * 32;
    if payload.len() <= tail_at {
        return None;
    }
    if !is_same(part_of(payload, 0, 5), b"NCM1\x01") {
        return None;
    }
    let generation = u64_at(payload, 5);
    if !is_generation(generation) {
        return None;
    }
    let len = u64_at(payload, 13);
    if LONGEST < len {
        return None;
    }
    let slots = part_of(payload, slots_at, n);
    if !are_bits(slots) {
        return None;
    }
    let witnesses = read_witnesses(n, part_of(payload, tail_at, payload.len() - tail_at))?;
    Some(Live {
        generation,
        len,
        code: Code::new(width, &rows_at(payload, 21, 2 * n, size)),
        slots: padded(slots),
        marks: rows_at(payload, marks_at, 2 * n, 32),
        witnesses,
    })
}

pub(crate) fn live_bytes(alloc: Global, width: u8, live: &Live) -> Result<Vec<u8>, Memory>
    requires wide { 4 ≤ width }
    requires narrow { width ≤ 10 }
    requires fits { IsLive width live.now }
    ensures { IfOk result (λ bytes. bytes.items ≡ live_spelling width live.now) }
{
    let n = width as usize;
    let mut bytes = Vec::with_capacity(alloc, 1262)?;
    bytes.extend_from_slice(b"NCM1\x01")?;
    bytes.extend_from_slice(&u64_bytes(live.generation))?;
    bytes.extend_from_slice(&u64_bytes(live.len))?;
    put_code(&mut bytes, n, &live.code)?;
    bytes.extend_from_slice(part_of(&live.slots, 0, n))?;
    put_rows(&mut bytes, &live.marks, 2 * n, 32)?;
    put_witnesses(&mut bytes, n, &live.witnesses)?;
    Ok(bytes)
}

/// Appends the rows of a code, as far as they have factors.
fn put_code(bytes: &mut Vec<u8>, n: usize, code: &Code) -> Result<(), Memory>
    requires wide { 2 ≤ n }
    requires narrow { n ≤ 10 }
    ensures { IfOk result (λ _. bytes.new.items ≡ bytes.old.items ++ each (2 * n) (λ i. take (native_count n) (slice_index_or code.now.rows i []))) }
{
    put_rows(bytes, &code.rows, 2 * n, 2 * (n - 2))
}
