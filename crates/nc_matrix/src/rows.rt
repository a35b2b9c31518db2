//! Rows of 32 bytes, made from others.

ghost use Rattle.std.specs.Prelude.{◌≡◌, ℕ, ◌+◌, ◌<◌, ◌≤◌, slice_index, bit_xor};
ghost use Rattle.nc_bytes.specs.Bytes.{AreBytes};
ghost use Rattle.nc_gf256.specs.Field.{mul};
ghost use Rattle.nc_gf256.specs.Rows.{unit};

use nc_bytes::told_bytes;
use nc_lanes::{mul_add, scale};

/// The row with `t` times another row added to it.
pub fn plus_multiple(row: &[u8; 32], other: &[u8; 32], t: u8) -> [u8; 32]
    ensures bytes { AreBytes result }
    ensures sums { (k : ℕ) → slice_index result k
        ≡ bit_xor (slice_index row.now k) (mul t (slice_index other.now k)) }
{
    let mut sum = *row;
    mul_add(&mut sum, other, t);
    told_bytes(&sum);
    sum
}

/// The row multiplied by `t`.
pub fn multiple(row: &[u8; 32], t: u8) -> [u8; 32]
    ensures bytes { AreBytes result }
    ensures products { (k : ℕ) → slice_index result k ≡ mul t (slice_index row.now k) }
{
    let mut product = *row;
    scale(&mut product, t);
    told_bytes(&product);
    product
}

/// The first `n` entries of a row, and row `i` of the identity after them.
pub fn augmented_row(row: &[u8; 16], n: usize, i: usize) -> [u8; 32]
    requires few { n ≤ 16 }
    requires within { i < n }
    ensures bytes { AreBytes result }
    ensures left { (k : ℕ) → k < n → slice_index result k ≡ slice_index row.now k }
    ensures right { (k : ℕ) → k < n → slice_index result (n + k) ≡ unit i k }
{
    let mut wide = [0; 32];
    for k in 0..n {
        wide[k] = row[k];
    }
    wide[n + i] = 1;
    wide
}

/// The `n` entries of a row from place `n` on, and 0 after them.
pub fn right_row(row: &[u8; 32], n: usize) -> [u8; 16]
    requires { n ≤ 16 }
    ensures bytes { AreBytes result }
    ensures entries { (k : ℕ) → k < n → slice_index result k ≡ slice_index row.now (n + k) }
    ensures zero_past { (k : ℕ) → n ≤ k → slice_index result k ≡ 0 }
{
    let mut half = [0; 16];
    for k in 0..n {
        half[k] = row[n + k];
    }
    half
}
