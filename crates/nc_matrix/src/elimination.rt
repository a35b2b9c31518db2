//! Elimination in one table of 32 columns: a square with the identity beside it.

ghost use Rattle.std.specs.Prelude.{◌≡◌, ◌≢◌, ℕ, ◌+◌, ◌<◌, ◌≤◌, slice_index, IsNone, IfSome};
ghost use Rattle.nc_bytes.specs.Bytes.{AreBytes};
ghost use Rattle.nc_matrix.specs.Cells.{entry};
ghost use Rattle.nc_matrix.specs.Elimination.{AreRows, IsAugmented, IsNormalized, IsPivot, IsReadOff, IsReduced, IsScaled, IsSheared, IsStep, clearing, lifting};

use super::rows::{augmented_row, multiple, plus_multiple, right_row};
use super::square::Square;
use nc_gf256::inv;

/// The square's rows with those of the identity beside them.
pub fn augmented(a: &Square) -> [[u8; 32]; 16]
    ensures { IsAugmented a.now.size a.now.cells result }
{
    let n = a.size as usize;
    let mut rows = [[0; 32]; 16];
    for i in 0..n {
        rows[i] = augmented_row(&a.cells[i], n, i);
    }
    rows
}

/// The first row from `c` on with a non-zero entry in column `c`.
pub fn pivot_row(rows: &[[u8; 32]; 16], n: usize, c: usize) -> Option<usize>
    requires few { n ≤ 16 }
    requires within { c < n }
    ensures some { IfSome result (λ p. IsPivot n c rows.now p) }
    ensures none { IsNone result → (i : ℕ) → c ≤ i → i < n → entry rows.now i c ≡ 0 }
{
    for p in c..n {
        if rows[p][c] != 0 {
            return Some(p);
        }
    }
    None
}

/// The rows with a non-zero entry in row `c` and column `c`: row `p` is added to row `c` unless it is that row.
pub fn lifted(rows: &[[u8; 32]; 16], n: usize, c: usize, p: usize) -> [[u8; 32]; 16]
    requires few { n ≤ 16 }
    requires within { c < n }
    requires below { p < n }
    requires bytes { AreRows n rows.now }
    ensures rows { AreRows n result }
    ensures sums { IsSheared n p (lifting c p) rows.now result }
{
    let mut raised = *rows;
    if p != c {
        raised[c] = plus_multiple(&rows[c], &rows[p], 1);
    }
    raised
}

/// The rows with row `c` multiplied by `t`.
pub fn scaled(rows: &[[u8; 32]; 16], n: usize, c: usize, t: u8) -> [[u8; 32]; 16]
    requires few { n ≤ 16 }
    requires within { c < n }
    requires bytes { AreRows n rows.now }
    ensures rows { AreRows n result }
    ensures product { IsScaled n c t rows.now result }

    // A caller that took the factor out of an `Option` doesn't see that it is a byte.
    ensures byte { t < 256 }
{
    let mut normal = *rows;
    normal[c] = multiple(&rows[c], t);
    normal
}

/// The rows with row `c` multiplied so that its entry in column `c`, which isn't 0, becomes 1.
pub fn normalized(rows: &[[u8; 32]; 16], n: usize, c: usize) -> [[u8; 32]; 16]
    requires few { n ≤ 16 }
    requires within { c < n }
    requires bytes { AreRows n rows.now }
    requires pivot { entry rows.now c c ≢ 0 }
    ensures rows { AreRows n result }
    ensures normal { IsNormalized n c rows.now result }
{
    match inv(rows[c][c]) {
        Some(t) => scaled(rows, n, c, t),
        None => unreachable!(),
    }
}

/// The multiple of row `c` that clears row `i` in column `c`, where row `c` has 1 there; none for row `c` itself.
fn clearing_multiple(rows: &[[u8; 32]; 16], i: usize, c: usize) -> u8
    requires row { i < 16 }
    requires column { c < 16 }
    ensures { result ≡ clearing c rows.now i }
{
    if i == c { 0 } else { rows[i][c] }
}

/// The rows other than `c` with 0 in column `c`, by multiples of row `c`, whose entry there is 1.
pub fn cleared(rows: &[[u8; 32]; 16], n: usize, c: usize) -> [[u8; 32]; 16]
    requires few { n ≤ 16 }
    requires within { c < n }
    requires bytes { AreRows n rows.now }
    ensures rows { AreRows n result }
    ensures sums { IsSheared n c (clearing c rows.now) rows.now result }
{
    let mut clear = *rows;
    for i in 0..n {
        clear[i] = plus_multiple(&rows[i], &rows[c], clearing_multiple(rows, i, c));
    }
    clear
}

/// The rows with column `c` reduced too, by the pivot row `p`.
pub fn step(rows: &[[u8; 32]; 16], n: usize, c: usize, p: usize) -> [[u8; 32]; 16]
    requires few { n ≤ 16 }
    requires within { c < n }
    requires bytes { AreRows n rows.now }
    requires reduced { IsReduced n c rows.now }
    requires pivot { IsPivot n c rows.now p }
    ensures { IsStep n (c + 1) rows.now result }
{
    let raised = lifted(rows, n, c, p);
    let normal = normalized(&raised, n, c);
    cleared(&normal, n, c)
}

/// The vector that column `c` shows to be sent to 0, where no row from `c` on has a pivot there.
pub fn kernel(rows: &[[u8; 32]; 16], c: usize) -> [u8; 16]
    requires { c < 16 }
    ensures { IsReadOff c rows.now result }
{
    let mut v = [0; 16];
    for k in 0..c {
        v[k] = rows[k][c];
    }
    v[c] = 1;
    v
}

/// The square in the columns from `size` on.
pub fn right_half(rows: &[[u8; 32]; 16], size: u8) -> Square
    requires some { 1 ≤ size }
    requires few { size ≤ 16 }
    ensures size { result.size ≡ size }
    ensures bytes { (i k : ℕ) → entry result.cells i k < 256 }
    ensures entries { (i k : ℕ) → i < size → k < size → entry result.cells i k ≡ entry rows.now i (size + k) }
{
    let n = size as usize;
    let mut cells = [[0; 16]; 16];
    for i in 0..n {
        cells[i] = right_row(&rows[i], n);
    }
    Square { size, cells }
}
