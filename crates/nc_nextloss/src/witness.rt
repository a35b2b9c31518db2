ghost use Rattle.std.specs.Prelude.{◌≡◌, ◌↔◌, ◌<◌, ◌/◌, ◌%◌, ℕ, length, slice_index, IsTrue, IsNone, IfSome};
ghost use Rattle.nc_code.specs.Codes.{IsWitness, repaired};
ghost use Rattle.nc_code.specs.Tries.{plan_len};
ghost use Rattle.nc_mds.specs.Verdicts.{IsVerdict};
ghost use Rattle.nc_mds.specs.declared.verdict.Verdict.TheVariants.{Mds};
ghost use Rattle.nc_nextloss.specs.Firsts.{IsFirstWitness, IsGoodTry};

use crate::reading::{drawn_plan, plan_len};
use nc_code::{Code, Plan, repaired};
use nc_mds::{Verdict, check};

/// Whether a plan is a witness of a loss: the verdict on the code that the repair makes.
pub fn check_witness(code: &Code, lost: u8, plan: &Plan) -> Verdict
    requires { lost < code.now.width }
    ensures verdict { IsVerdict (repaired code.now lost plan.now) result }
    ensures mds { IsWitness code.now lost plan.now → result ≡ Mds }
{
    check(&repaired(code, lost, plan))
}

pub fn is_witness(code: &Code, lost: u8, plan: &Plan) -> bool
    requires { lost < code.now.width }
    ensures { IsTrue result ↔ IsWitness code.now lost plan.now }
{
    match check_witness(code, lost, plan) {
        Verdict::Mds => true,
        Verdict::Fails { .. } => false,
    }
}

/// The first of the tries that is a witness of the loss. A try has `plan_len` bytes and is read with the base.
pub fn first_witness(code: &Code, lost: u8, base: &[u8; 10], tries: &[u8]) -> Option<Plan>
    requires lost { lost < code.now.width }
    requires base { (t : ℕ) → slice_index base.now t < 2 }
    requires whole { length tries.now % plan_len code.now.width ≡ 0 }
    ensures some { IfSome result
        (λ plan. IsFirstWitness code.now lost (slice_index base.now) (slice_index tries.now) (length tries.now / plan_len code.now.width) plan) }
    ensures none { IsNone result
        → (j : ℕ) → j < length tries.now / plan_len code.now.width → IsGoodTry code.now lost (slice_index base.now) (slice_index tries.now) j → ⊥ }
{
    let width = code.width;
    let each = plan_len(width);
    for j in 0..tries.len() / each {
        let plan = drawn_plan(width, lost, base, tries, j * each);
        if is_witness(code, lost, &plan) {
            return Some(plan);
        }
    }
    None
}
