ghost use Rattle.std.specs.Prelude.{◌≡◌, ◌+◌, ◌-◌, ◌<◌, ◌≤◌, ℕ, IsNone, IsTrue, IfSome, slice_index_or, []};
ghost use Rattle.nc_gf256.specs.Rows.{Independent};
ghost use Rattle.nc_gf256.specs.Width.{native_count};
ghost use Rattle.nc_code.specs.Codes.{IsPairMds};
ghost use Rattle.nc_matrix.specs.Inverted.{IsRowAmong};
ghost use Rattle.nc_mds.specs.Verdicts.{ShowsDependent, other_cloud};
ghost use Rattle.nc_mds.specs.Others.{AreOthers};
ghost use Rattle.nc_mds.specs.Relations.{AreRelations};

use crate::relations::{Relations, minor};
use nc_code::Code;
use nc_matrix::{Outcome, Square, invert};

/// A vector that shows that the rows of the clouds other than `a` and `b` are dependent. None where they are independent. The
/// code's relations, where there are any, save the inversion of all these rows.
pub fn pair_kernel(code: &Code, relations: &Option<Relations>, a: u8, b: u8) -> Option<[u8; 16]>
    requires known { IfSome relations.now (AreRelations code.now) }
    requires less { a < b }
    requires within { b < code.now.width }
    ensures some { IfSome result (λ kernel. ShowsDependent code.now a b kernel) }
    ensures none { IsNone result → IsPairMds code.now a b }
{
    let _width = code.width();
    if let Some(known) = relations {
        if are_independent(&minor(known, a, b)) {
            return None;
        }
    }
    match invert(&without(code, a, b)) {
        Outcome::Inverse(_) => None,
        Outcome::Kernel(kernel) => Some(kernel),
    }
}

fn are_independent(square: &Square) -> bool
    ensures { IsTrue result → Independent square.now.size (IsRowAmong square.now.size square.now.cells) }
{
    match invert(square) {
        Outcome::Inverse(_) => true,
        Outcome::Kernel(_) => false,
    }
}

/// The rows of the clouds other than `a` and `b`, which are as many as there are natives.
pub fn without(code: &Code, a: u8, b: u8) -> Square
    requires less { a < b }
    requires within { b < code.now.width }
    ensures { AreOthers code.now a b result }
{
    let size = 2 * (code.width - 2);
    let mut cells = [[0; 16]; 16];
    for i in 0..size {
        cells[i as usize] = code.row(other_cloud(a, b, i / 2), i % 2);
    }
    Square { size, cells }
}

/// The cloud at position `p` among those other than `a` and `b`.
fn other_cloud(a: u8, b: u8, p: u8) -> u8
    requires { p < 8 }
    ensures { result ≡ other_cloud a b p }
{
    if p < a {
        p
    } else if p + 1 < b {
        p + 1
    } else {
        p + 2
    }
}
