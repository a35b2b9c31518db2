ghost use Rattle.std.specs.Prelude.{◌≡◌, ◌+◌, ◌<◌, ◌≤◌, ℕ, length, slice_index, IsNone, IfSome};
ghost use Rattle.nc_search.specs.Tries.{tries_len, tries_at, HasGoodTry, IsFirstGoodTry};

use nc_bytes::part_of;
use nc_code::{Code, Plan};
use nc_nextloss::{first_witness, plan_len};

/// The bytes of sixteen tries at a width.
pub fn tries_len(width: u8) -> usize
    requires wide { 4 ≤ width }
    requires narrow { width ≤ 10 }
    ensures { result ≡ tries_len width }
{
    16 * plan_len(width)
}

/// The first witness of a loss among the sixteen tries that begin at place `at` of a block.
pub fn first_try(code: &Code, lost: u8, base: &[u8; 10], block: &[u8], at: usize) -> Option<Plan>
    requires lost { lost < code.now.width }
    requires base { (t : ℕ) → slice_index base.now t < 2 }
    requires long { at + tries_len code.now.width ≤ length block.now }
    ensures some { IfSome result (IsFirstGoodTry code.now lost base.now (tries_at code.now.width block.now at)) }
    ensures none { IsNone result → HasGoodTry code.now lost base.now (tries_at code.now.width block.now at) → ⊥ }
{
    let width = code.width();
    first_witness(code, lost, base, part_of(block, at, tries_len(width)))
}
