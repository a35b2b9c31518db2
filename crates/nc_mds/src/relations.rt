//! Relations between the rows of all clouds. They are found once for a code, and decide the loss of two clouds by four rows of
//! four bytes each.

ghost use Rattle.std.specs.Prelude.{◌≡◌, ℕ, ◌+◌, ◌<◌, ◌≤◌, slice_index, IfSome};
ghost use Rattle.nc_gf256.specs.Rows.{unit};
ghost use Rattle.nc_gf256.specs.Width.{native_count};
ghost use Rattle.nc_matrix.specs.Products.{product_entry};
ghost use Rattle.nc_mds.specs.Relations.{AreRelations, AreSolved, IsMinor, four};

use crate::pairs::without;
use nc_code::Code;
use nc_matrix::{Outcome, Square, invert, row_times};

/// Four relations between the rows of a code: with the factors of each, the rows of all clouds add up to 0. Row `r` of cloud `c`
/// has factor `2c+r`.
pub type Relations = [[u8; 20]; 4];

/// The relations that give the rows of the last two clouds by those of the others. None where the others' are dependent, and
/// none at width 4, where the others have just four rows anyway.
pub fn relations_of(code: &Code) -> Option<Relations>
    ensures { IfSome result (AreRelations code.now) }
{
    let width = code.width();
    if width == 4 {
        return None;
    }
    match invert(&without(code, width - 2, width - 1)) {
        Outcome::Inverse(inverse) => Some(solved(code, &inverse)),
        Outcome::Kernel(_) => None,
    }
}

/// The rows of the last two clouds by the rows of the others, whose inverse is given.
fn solved(code: &Code, inverse: &Square) -> Relations
    requires { inverse.now.size ≡ native_count code.now.width }
    ensures { AreSolved code.now inverse.now.cells result }
{
    let mut relations = [[0; 20]; 4];
    for j in 0..4u8 {
        let row = code.row(code.width - 2 + j / 2, j % 2);
        relations[j as usize] = relation(&row, inverse, j as usize);
    }
    relations
}

/// The factors with which the rows of a square give a row, by the square's inverse, and then row `j` of the identity.
fn relation(row: &[u8; 16], inverse: &Square, j: usize) -> [u8; 20]
    requires { j < 4 }
    ensures left { (i : ℕ) → i < inverse.now.size → slice_index result i ≡ product_entry inverse.now.size row.now inverse.now.cells i }
    ensures right { (i : ℕ) → i < 4 → slice_index result (inverse.now.size + i) ≡ unit j i }
{
    let size = inverse.size as usize;
    let products = row_times(row, inverse);
    let mut factors = [0; 20];
    for i in 0..size {
        factors[i] = products[i];
    }
    factors[size + j] = 1;
    factors
}

/// What the relations say of the rows of clouds `a` and `b` alone.
pub fn minor(relations: &Relations, a: u8, b: u8) -> Square
    requires less { a < b }
    requires within { b < 10 }
    ensures { IsMinor a b relations.now result }
{
    let mut cells = [[0; 16]; 16];
    for j in 0..4usize {
        cells[j] = factors_of(&relations[j], a as usize, b as usize);
    }
    Square { size: 4, cells }
}

/// The factors of the rows of clouds `a` and `b`, and then zeros.
fn factors_of(factors: &[u8; 20], a: usize, b: usize) -> [u8; 16]
    requires first { a < 10 }
    requires second { b < 10 }
    ensures { (k : ℕ) → slice_index result k ≡ slice_index (four (slice_index factors.now) a b) k }
{
    let mut row = [0; 16];
    row[0] = factors[2 * a];
    row[1] = factors[2 * a + 1];
    row[2] = factors[2 * b];
    row[3] = factors[2 * b + 1];
    row
}
