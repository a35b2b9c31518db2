ghost use Rattle.std.specs.Prelude.{◌<◌, ◌≤◌};
ghost use Rattle.nc_code.specs.Codes.{repaired};
ghost use Rattle.nc_code.specs.Striped.{striped_code};
ghost use Rattle.nc_mds.specs.Verdicts.{IsVerdict, IsFails};
ghost use Rattle.nc_nextloss.specs.Laws.{StripedHasNoWitness};

use crate::witness::check_witness;
use nc_code::{Plan, striped};
use nc_mds::Verdict;

/// The striped code has no witness, at any width and for any loss.
pub fn striped_has_no_witness()
    ensures { StripedHasNoWitness }
{}

/// The check of a plan for the striped code, which fails.
pub fn check_striped_repair(width: u8, lost: u8, plan: &Plan) -> Verdict
    requires wide { 4 ≤ width }
    requires narrow { width ≤ 10 }
    requires lost { lost < width }
    ensures verdict { IsVerdict (repaired (striped_code width) lost plan.now) result }
    ensures fails { IsFails result }
{
    plan.told_plan();
    check_witness(&striped(width), lost, plan)
}
