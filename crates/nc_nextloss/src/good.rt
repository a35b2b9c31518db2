ghost use Rattle.std.specs.Prelude.{◌≡◌, ◌↔◌, ◌<◌, IsTrue, IsNone, IfSome};
ghost use Rattle.nc_code.specs.Codes.{IsBare, no_plan};
ghost use Rattle.nc_code.specs.Good.{IsGood};
ghost use Rattle.nc_nextloss.specs.GoodCodes.{IsPlanFor, IsBlank};

use crate::witness::is_witness;
use nc_code::{Code, Plan, Witnesses};
use nc_mds::{Verdict, check};
use std::marker::Model;

/// A code that is MDS, with a plan for each next loss that leaves an MDS code. What isn't stored of the plans is 0.
#[derive(Clone, Copy, Debug)]
pub struct GoodCode {
    code: Code,
    witnesses: Witnesses,
}

impl Model for GoodCode {
    ghost use Rattle.nc_code.specs.Good.{IsGood};
    ghost use Rattle.nc_nextloss.specs.GoodCodes.{GoodParts};

    ghost Value = { GoodParts };

    ghost view = { λ g. record { code = g.code; witnesses = g.witnesses } };

    ghost invariant = { λ g. IsGood g.code g.witnesses };

    ghost inverse = { λ g. record { code = g.code; witnesses = g.witnesses } };
}

impl GoodCode {
    /// The code with witnesses that are proved to be good: nothing is checked. `confirm` checks.
    pub fn new(code: &Code, witnesses: &Witnesses) -> GoodCode
        requires { IsGood code.now witnesses.now }
        ensures { result ≡ record { code = code.now; witnesses = witnesses.now } }
    {
        GoodCode {
            code: *code,
            witnesses: *witnesses,
        }
    }

    /// The code. The contract also hands on what the type keeps.
    pub fn code(&self) -> &Code
        ensures code { result.now ≡ self.now.code }
        ensures kept { IsGood self.now.code self.now.witnesses }
    {
        &self.code
    }

    /// The plans, one for each next loss.
    pub fn witnesses(&self) -> &Witnesses
        ensures { result.now ≡ self.now.witnesses }
    {
        &self.witnesses
    }
}

/// The code with its witnesses, where they are good: the code is MDS, each plan is a witness of its loss, and what isn't
/// stored of the plans is 0.
pub fn confirm(code: &Code, witnesses: &Witnesses) -> Option<GoodCode>
    ensures some { IfSome result (λ g. g ≡ record { code = code.now; witnesses = witnesses.now }) }
    ensures good { IfSome result (λ g. IsGood g.code g.witnesses) }
    ensures none { IsNone result → IsGood code.now witnesses.now → ⊥ }
{
    let _width = code.width();
    witnesses.told_count();
    match check(code) {
        Verdict::Mds => {}
        Verdict::Fails { .. } => return None,
    }
    for lost in 0..10u8 {
        if !is_plan_for(code, lost, witnesses.plan(lost)) {
            return None;
        }
    }
    Some(GoodCode {
        code: *code,
        witnesses: *witnesses,
    })
}

fn is_plan_for(code: &Code, lost: u8, plan: &Plan) -> bool
    ensures { IsTrue result ↔ IsPlanFor code.now lost plan.now }
{
    let width = code.width;
    if lost < width {
        is_bare(width, lost, plan) && is_witness(code, lost, plan)
    } else {
        is_no_plan(plan)
    }
}

/// Whether a plan says nothing of the lost cloud, nor of any past the width.
fn is_bare(width: u8, lost: u8, plan: &Plan) -> bool
    ensures { IsTrue result ↔ IsBare width lost plan.now }
{
    plan.told_plan();
    for t in 0..10u8 {
        if (t == lost || width <= t) && !is_blank(plan, t) {
            return false;
        }
    }
    true
}

fn is_blank(plan: &Plan, t: u8) -> bool
    requires { t < 10 }
    ensures { IsTrue result ↔ IsBlank plan.now t }
{
    let t = t as usize;
    plan.choice[t] == 0 && plan.coefs[0][t] == 0 && plan.coefs[1][t] == 0
}

/// Whether a plan has all choices and factors 0.
fn is_no_plan(plan: &Plan) -> bool
    ensures { IsTrue result ↔ (plan.now ≡ no_plan) }
{
    plan.choice == [0; 10] && plan.coefs == [[0; 10]; 2]
}
