ghost use Rattle.std.specs.Prelude.{◌≡◌, ℕ, slice_index, bit_xor};
ghost use Rattle.nc_bytes.specs.Bytes.{AreBytes};
ghost use Rattle.nc_gf256.specs.Field.{mul};

use crate::{add, mul};
use nc_bytes::told_bytes;

/// The row with `factor` times another row added to it.
pub fn plus_times<const N: usize>(row: &[u8; N], other: &[u8; N], factor: u8) -> [u8; N]
    ensures bytes { AreBytes result }
    ensures sums { (k : ℕ) → slice_index result k
        ≡ bit_xor (slice_index row.now k) (mul factor (slice_index other.now k)) }
{
    told_bytes(row);
    let mut sum = *row;
    for k in 0..N {
        sum[k] = add(row[k], mul(factor, other[k]));
    }
    sum
}
