ghost use Rattle.std.specs.Prelude.{◌≡◌, ◌+◌, ◌*◌, ◌<◌, ◌≤◌, ℕ, slice_index, bit_xor};
ghost use Rattle.nc_code.specs.Parts.{IsCode};
ghost use Rattle.nc_code.specs.Codes.{repaired, repaired_row, term};
ghost use Rattle.nc_code.specs.RepairLaw.{RepairedTwice};

use crate::code::Code;
use crate::plan::Plan;
use nc_gf256::plus_times;

/// The code after the repair of cloud `lost` by a plan: row `r` of this cloud becomes the sum, over the survivors `t`, of
/// `plan.coefs[r][t]` times row `plan.choice[t]` of cloud `t`. All other rows stay. The plan's entries for the lost cloud and
/// past the width are not read.
pub fn repaired(code: &Code, lost: u8, plan: &Plan) -> Code
    requires { lost < code.now.width }
    ensures code { result ≡ repaired code.now lost plan.now }
    ensures width { result.width ≡ code.now.width }
    ensures kept { IsCode result }
{
    let zero = new_row(code, lost, plan, 0);
    let one = new_row(code, lost, plan, 1);
    let mut rows = code.rows;
    rows[2 * lost as usize] = zero;
    rows[2 * lost as usize + 1] = one;
    Code::new(code.width, &rows)
}

fn new_row(code: &Code, lost: u8, plan: &Plan, r: u8) -> [u8; 16]
    requires lost { lost < code.now.width }
    requires pair { r < 2 }
    ensures { result ≡ repaired_row code.now lost plan.now r }
{
    let mut row = [0; 16];
    for t in 0..code.width {
        row = with_cloud(code, lost, plan, r, t, &row);
    }
    row
}

/// The sum so far, with what cloud `t` adds to the new row `r`.
fn with_cloud(code: &Code, lost: u8, plan: &Plan, r: u8, t: u8, row: &[u8; 16]) -> [u8; 16]
    requires pair { r < 2 }
    requires cloud { t < code.now.width }
    requires narrow { code.now.width ≤ 10 }
    ensures { (k : ℕ) → slice_index result k ≡ bit_xor (slice_index row.now k) (term code.now lost plan.now r k t) }
{
    if t == lost {
        return *row;
    }
    let chosen = code.row(t, plan.choice[t as usize]);
    plus_times(row, &chosen, plan.coefs[r as usize][t as usize])
}

/// Repairing twice by one plan gives what repairing once gives.
pub fn repairing_twice()
    ensures { RepairedTwice }
{}
