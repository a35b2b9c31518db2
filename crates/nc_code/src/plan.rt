ghost use Rattle.std.specs.Prelude.{◌≡◌, ◌↔◌, ◌<◌, ℕ, IsTrue, length, slice_index};
ghost use Rattle.nc_code.specs.Parts.{IsPlan};
ghost use Rattle.nc_code.specs.Codes.{no_plan};
ghost use Rattle.nc_code.specs.Good.{plan_of};

use crate::told::told_rows;
use std::marker::Model;

/// How the two rows of a lost cloud are made anew, by survivor `t`: its row `choice[t]`, 0 or 1, is fetched, and
/// `coefs[r][t]` is its factor in the new row `r`.
#[derive(Clone, Copy, Debug)]
pub struct Plan {
    pub choice: [u8; 10],
    pub coefs: [[u8; 10]; 2],
}

impl Model for Plan {
    ghost use Rattle.nc_code.specs.Parts.{PlanParts, IsPlan};

    ghost Value = { PlanParts };

    ghost view = { λ p. record { choice = p.choice; coefs = p.coefs } };

    ghost invariant = { λ p. IsPlan (record { choice = p.choice; coefs = p.coefs }) };

    ghost inverse = { λ p. record { choice = p.choice; coefs = p.coefs } };
}

impl Plan {
    /// The plan with all choices and factors 0: it stands where no plan is stored.
    pub fn none() -> Plan
        ensures { result ≡ no_plan }
    {
        Plan::new(&[0; 10], &[[0; 10]; 2])
    }

    /// The plan of these choices and factors. Its type's rule is kept by what is asked here.
    pub fn new(choice: &[u8; 10], coefs: &[[u8; 10]; 2]) -> Plan
        requires { (t : ℕ) → slice_index choice.now t < 2 }
        ensures parts { result ≡ record { choice = choice.now; coefs = coefs.now } }
        ensures kept { IsPlan result }
    {
        told_rows(coefs);
        Plan {
            choice: *choice,
            coefs: *coefs,
        }
    }

    /// Tells what the type keeps.
    pub fn told_plan(&self)
        ensures { IsPlan self.now }
    {
        let _choice = &self.choice;
    }
}

/// A plan for each cloud that may be lost next.
#[derive(Clone, Copy, Debug)]
pub struct Witnesses {
    pub plans: [Plan; 10],
}

impl Witnesses {
    /// Tells how many plans there are.
    pub fn told_count(&self)
        ensures { length self.now.plans ≡ 10 }
    {
        let _plans = &self.plans;
    }

    /// The plan for the loss of cloud `lost`.
    pub fn plan(&self, lost: u8) -> &Plan
        requires { lost < 10 }
        ensures { result.now ≡ plan_of self.now lost }
    {
        &self.plans[lost as usize]
    }
}

/// Whether two plans are equal.
pub fn same_plan(a: &Plan, b: &Plan) -> bool
    ensures { IsTrue result ↔ (a.now ≡ b.now) }
{
    same_choice(&a.choice, &b.choice) && same_coefs(&a.coefs, &b.coefs)
}

/// Whether two lists of plans are equal.
pub fn same_witnesses(a: &Witnesses, b: &Witnesses) -> bool
    ensures { IsTrue result ↔ (a.now ≡ b.now) }
{
    a.told_count();
    b.told_count();
    for lost in 0..10u8 {
        if !same_plan(a.plan(lost), b.plan(lost)) {
            return false;
        }
    }
    true
}

fn same_choice(a: &[u8; 10], b: &[u8; 10]) -> bool
    ensures { IsTrue result ↔ (a.now ≡ b.now) }
{
    a == b
}

fn same_coefs(a: &[[u8; 10]; 2], b: &[[u8; 10]; 2]) -> bool
    ensures { IsTrue result ↔ (a.now ≡ b.now) }
{
    a == b
}
