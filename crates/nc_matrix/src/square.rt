//! Squares of bytes.

ghost use Rattle.std.specs.Prelude.{◌≡◌, ℕ, ◌≤◌};
ghost use Rattle.nc_matrix.specs.Cells.{entry};

/// A square of 1 to 16 rows and columns. What stands past the size is 0.
#[derive(Clone, Copy)]
pub struct Square {
    pub size: u8,
    pub cells: [[u8; 16]; 16],
    pub ghost at_least_one: { 1 ≤ size },
    pub ghost at_most_sixteen: { size ≤ 16 },
    pub ghost zero_below: { (i k : ℕ) → size ≤ i → entry cells i k ≡ 0 },
    pub ghost zero_right: { (i k : ℕ) → size ≤ k → entry cells i k ≡ 0 },
}
