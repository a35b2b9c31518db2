//! Squares of field elements up to 16 by 16: products, and inverses by elimination.
#![tactic(auto)]

ghost use Rattle.std.specs.Prelude.{◌≡◌, ℕ, ◌<◌, slice_index};
ghost use Rattle.nc_matrix.specs.Cells.{entry};
ghost use Rattle.nc_matrix.specs.Products.{times};
ghost use Rattle.nc_matrix.specs.Inverted.{IsInverted};

use elimination::{augmented, kernel, pivot_row, right_half, step};
pub use outcome::Outcome;
use products::dot;
pub use products::row_times;
pub use square::Square;

mod elimination;
mod outcome;
mod products;
mod rows;
mod square;
#[cfg(test)]
mod tests;

/// The inverse of a square, by elimination (Gauss and Jordan); or, where its rows are dependent, a vector that shows it.
pub fn invert(a: &Square) -> Outcome
    ensures { IsInverted a.now.size a.now.cells result }
{
    let n = a.size as usize;
    let mut rows = augmented(a);
    for c in 0..n {
        match pivot_row(&rows, n, c) {
            Some(p) => rows = step(&rows, n, c, p),
            None => return Outcome::Kernel(kernel(&rows, c)),
        }
    }
    Outcome::Inverse(right_half(&rows, a.size))
}

/// The product of two squares of the same size: the entry in row i and column k is the dot product of row i of `a` with
/// column k of `b`.
pub fn product(a: &Square, b: &Square) -> Square
    requires { a.now.size ≡ b.now.size }
    ensures size { result.size ≡ a.now.size }
    ensures entries { (i k : ℕ) → i < a.now.size → k < a.now.size
        → entry result.cells i k ≡ times a.now.size a.now.cells i (λ j. entry b.now.cells j k) }
{
    let mut cells = [[0; 16]; 16];
    for i in 0..a.size as usize {
        cells[i] = row_times(&a.cells[i], b);
    }
    Square {
        size: a.size,
        cells,
    }
}

/// The product of a square with a vector: place i holds the dot product of row i with the vector. Places past the size
/// hold 0, and what the vector holds there is not read.
pub fn apply(a: &Square, v: &[u8; 16]) -> [u8; 16]
    ensures { (i : ℕ) → slice_index result i
        ≡ times a.now.size a.now.cells i (λ k. slice_index v.now k) }
{
    let mut image = [0; 16];
    for i in 0..a.size as usize {
        image[i] = dot(&a.cells[i], v, a.size as usize);
    }
    image
}
