ghost use Rattle.std.specs.Prelude.{◌≡◌, ◌<◌, ℕ, IsNone, IfSome};
ghost use Rattle.nc_code.specs.Codes.{IsMds, IsPairMds};
ghost use Rattle.nc_mds.specs.Relations.{AreRelations};
ghost use Rattle.nc_mds.specs.Verdicts.{IsVerdict, IsFirstAfter};
ghost use Rattle.nc_mds.specs.declared.verdict.Verdict.TheVariants.{Mds};

use crate::pairs::pair_kernel;
use crate::relations::{Relations, relations_of};
use crate::verdict::Verdict;
use nc_code::Code;

/// Whether a code is MDS. It stops at the first pair of clouds whose loss leaves dependent rows, by the lower cloud and
/// then the higher one.
pub fn check(code: &Code) -> Verdict
    ensures verdict { IsVerdict code.now result }
    ensures mds { IsMds code.now → result ≡ Mds }
{
    let relations = relations_of(code);
    for a in 0..code.width {
        match first_after(code, &relations, a) {
            Some(found) => {
                let b = found.0;
                let kernel = found.1;
                return Verdict::Fails { a, b, kernel };
            }
            None => {}
        }
    }
    Verdict::Mds
}

/// The least cloud `b` above `a` such that the rows of the clouds other than both are dependent, with a vector that shows it.
fn first_after(code: &Code, relations: &Option<Relations>, a: u8) -> Option<(u8, [u8; 16])>
    requires known { IfSome relations.now (AreRelations code.now) }
    requires first { a < code.now.width }
    ensures some { IfSome result (λ found. IsFirstAfter code.now a found.0 found.1) }
    ensures none { IsNone result → (b : ℕ) → a < b → b < code.now.width → IsPairMds code.now a b }
{
    let width = code.width;
    for b in a + 1..width {
        match pair_kernel(code, relations, a, b) {
            Some(kernel) => return Some((b, kernel)),
            None => {}
        }
    }
    None
}
