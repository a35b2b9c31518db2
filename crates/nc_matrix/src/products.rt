//! Dot products of rows and columns.

ghost use Rattle.std.specs.Prelude.{◌≡◌, ℕ, ◌<◌, ◌≤◌, slice_index};
ghost use Rattle.nc_gf256.specs.Rows.{dot};
ghost use Rattle.nc_matrix.specs.Cells.{entry};
ghost use Rattle.nc_matrix.specs.Products.{product_entry};

use super::square::Square;

/// The dot product of the first `n` entries of two rows.
pub fn dot(row: &[u8; 16], other: &[u8; 16], n: usize) -> u8
    requires { n ≤ 16 }
    ensures { result ≡ dot n row.now other.now }
{
    nc_lanes::dot(&row[..n], &other[..n])
}

/// Column `k` of a square.
fn column(b: &Square, k: usize) -> [u8; 16]
    requires { k < 16 }
    ensures { (i : ℕ) → slice_index result i ≡ entry b.now.cells i k }
{
    let mut column = [0; 16];
    for i in 0..16usize {
        column[i] = b.cells[i][k];
    }
    column
}

/// The dot products of a row with each column of a square, and 0 past its size.
pub fn row_times(row: &[u8; 16], b: &Square) -> [u8; 16]
    ensures entries { (k : ℕ) → k < b.now.size
        → slice_index result k ≡ product_entry b.now.size row.now b.now.cells k }
    ensures zero_past { (k : ℕ) → b.now.size ≤ k → slice_index result k ≡ 0 }
{
    let n = b.size as usize;
    let mut sums = [0; 16];
    for k in 0..n {
        sums[k] = dot(row, &column(b, k), n);
    }
    sums
}
