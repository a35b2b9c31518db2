ghost use Rattle.std.specs.Prelude.{◌≡◌, ◌↔◌, ◌+◌, ◌*◌, ◌<◌, ◌≤◌, ◌++◌, ℕ, [], IsTrue, IfOk, length, slice_index, slice_index_or, take};
ghost use Rattle.nc_bytes.specs.Bytes.{padded, part};
ghost use Rattle.nc_meta.specs.Parts.{IsGeneration, each};

use nc_bytes::{padded, part_of};
use nc_name::Memory;

/// Rows of `size` bytes, `count` of them, which stand from place `at` on; rows after them are 0.
pub(crate) fn rows_at<const N: usize>(
    bytes: &[u8],
    at: usize,
    count: usize,
    size: usize,
) -> [[u8; N]; 20]
    requires rows { count ≤ 20 }
    requires sizes { size ≤ N }
    requires fits { at + count * size ≤ length bytes.now }
    ensures len { length result ≡ 20 }
    ensures rows { (i : ℕ) → i < count → slice_index_or result i [] ≡ padded N (part (at + i * size) size bytes.now) }
    ensures rest { (i : ℕ) → count ≤ i → i < 20 → slice_index_or result i [] ≡ padded N [] }
{
    let mut rows = [padded(&[]); 20];
    for i in 0..count {
        rows[i] = padded(part_of(bytes, at + i * size, size));
    }
    rows
}

/// Appends the first `size` bytes of each of the first `count` rows.
pub(crate) fn put_rows<const N: usize>(
    out: &mut Vec<u8>,
    rows: &[[u8; N]; 20],
    count: usize,
    size: usize,
) -> Result<(), Memory>
    requires rows { count ≤ 20 }
    requires sizes { size ≤ N }
    ensures { IfOk result (λ _. out.new.items ≡ out.old.items ++ each count (λ i. take size (slice_index_or rows.now i []))) }
{
    for i in 0..count {
        out.extend_from_slice(part_of(&rows[i], 0, size))?;
    }
    Ok(())
}

/// Whether each of the bytes is 0 or 1.
pub(crate) fn are_bits(bytes: &[u8]) -> bool
    ensures { IsTrue result ↔ ((i : ℕ) → i < length bytes.now → slice_index bytes.now i < 2) }
{
    bytes.iter().all(|b| *b < 2)
}

/// Whether a file may have this generation.
pub(crate) fn is_generation(generation: u64) -> bool
    ensures { IsTrue result ↔ IsGeneration generation }
{
    1 <= generation && generation < u64::MAX
}
