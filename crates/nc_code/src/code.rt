ghost use Rattle.std.specs.Prelude.{◌≡◌, ◌↔◌, ◌*◌, ◌<◌, ◌≤◌, ℕ, [], IsTrue, slice_index_or};
ghost use Rattle.nc_bytes.specs.Bytes.{IsZeroPast, AreZeroPast};
ghost use Rattle.nc_gf256.specs.Width.{native_count};
ghost use Rattle.nc_code.specs.Parts.{IsCode};
ghost use Rattle.nc_code.specs.Codes.{code_row};

use crate::told::told_rows;
use std::marker::Model;

/// Which combinations of the native chunks the clouds hold. Row `r`, 0 or 1, of cloud `c` is `rows[2c+r]`; entry `i` of a
/// row is the factor of native chunk `i`. Entries past the natives and rows past the clouds are 0.
#[derive(Clone, Copy, Debug)]
pub struct Code {
    /// The number of clouds, 4 to 10.
    pub width: u8,
    pub rows: [[u8; 16]; 20],
}

impl Model for Code {
    ghost use Rattle.nc_code.specs.Parts.{CodeParts, IsCode};

    ghost Value = { CodeParts };

    ghost view = { λ c. record { width = c.width; rows = c.rows } };

    ghost invariant = { λ c. IsCode (record { width = c.width; rows = c.rows }) };

    ghost inverse = { λ c. record { width = c.width; rows = c.rows } };
}

impl Code {
    /// The code of these rows. Its type's rule is kept by what is asked here.
    pub fn new(width: u8, rows: &[[u8; 16]; 20]) -> Code
        requires wide { 4 ≤ width }
        requires narrow { width ≤ 10 }
        requires zero_past { (i : ℕ) → IsZeroPast (native_count width) (slice_index_or rows.now i []) }
        requires rows_past { AreZeroPast (2 * width) rows.now }
        ensures parts { result ≡ record { width = width; rows = rows.now } }
        ensures kept { IsCode result }
    {
        told_rows(rows);
        Code { width, rows: *rows }
    }

    /// The number of clouds. Its contract also hands on what the type keeps.
    pub fn width(&self) -> u8
        ensures width { result ≡ self.now.width }
        ensures kept { IsCode self.now }
    {
        self.width
    }

    /// Row `r` of cloud `c`.
    pub fn row(&self, c: u8, r: u8) -> [u8; 16]
        requires cloud { c < self.now.width }
        requires pair { r < 2 }
        ensures { result ≡ code_row self.now c r }
    {
        self.rows[2 * c as usize + r as usize]
    }
}

/// Whether two codes are equal.
pub fn same_code(a: &Code, b: &Code) -> bool
    ensures { IsTrue result ↔ (a.now ≡ b.now) }
{
    a.width == b.width && a.rows == b.rows
}
