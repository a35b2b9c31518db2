ghost use Rattle.std.specs.Prelude.{◌≡◌, ◌≢◌, ◌<◌, ◌≤◌, ℕ, Some, length, slice_index, IsNone, IfSome};
ghost use Rattle.std.specs.Option.{option_copied};
ghost use Rattle.nc_code.specs.Codes.{IsBare};
ghost use Rattle.nc_search.specs.Tries.{HasGoodTry, IsFirstGoodTry};
ghost use Rattle.nc_search.specs.Repairs.{repair_len, repair_block, repair_plan, repair_tries, turned_choice, turned_base, IsGoodRepair, IsRepairOf};
ghost use Rattle.nc_search.specs.Searches.{IsMendSearch, mend_plan, IsGoodMend};

use crate::drawing::{fill, word_count};
use crate::tries::{first_try, tries_len};
use nc_code::{Code, Plan, Witnesses, repaired};
use nc_mds::{Verdict, check};
use nc_nextloss::{GoodCode, drawn_plan, plan_len, position};

/// What the search for a repair found.
#[derive(Clone, Copy, Debug)]
pub enum Mend {
    /// The first good candidate, with its index: the plan of the repair, and the code after it with its witnesses.
    Found {
        index: u16,
        plan: Plan,
        good: GoodCode,
    },
    /// None of so many candidates is good.
    Spent(u16),
}

/// The first good one of the candidates for the repair of a lost cloud that are drawn with a key. The plan of candidate 0 is
/// the stored one, where there is one; every other candidate's is read from the first bytes of its block of the key's stream,
/// with the choices of the stored plan as base. Then come sixteen tries for the loss of each other cloud, whose base is the
/// plan's choices turned over. A candidate is good where the code after the repair is MDS and each of these losses has a try
/// that is a witness. The witness for the lost cloud is the plan itself.
pub fn find_repair(
    code: &Code,
    stored: Option<&Plan>,
    lost: u8,
    key: &[u8; 32],
    budget: u16,
) -> Mend
    requires lost { lost < code.now.width }
    requires bare { IfSome stored (λ plan. IsBare code.now.width lost plan.now) }
    requires most { budget ≤ 4096 }
    ensures { IsMendSearch code.now (option_copied stored.entry) lost key.now budget result }
{
    for index in 0..budget {
        match try_repair(code, stored, lost, key, index) {
            Some(found) => {
                let plan = found.0;
                let good = found.1;
                return Mend::Found { index, plan, good };
            }
            None => {}
        }
    }
    Mend::Spent(budget)
}

/// The plan of candidate `index` and what it gives, where it is good.
fn try_repair(
    code: &Code,
    stored: Option<&Plan>,
    lost: u8,
    key: &[u8; 32],
    index: u16,
) -> Option<(Plan, GoodCode)>
    requires lost { lost < code.now.width }
    requires bare { IfSome stored (λ plan. IsBare code.now.width lost plan.now) }
    requires index { index < 4096 }
    ensures plan { IfSome result (λ found. found.0 ≡ mend_plan code.now (option_copied stored.entry) lost key.now index) }
    ensures some { IfSome result (λ found. IsRepairOf code.now lost found.0 (repair_block code.now.width key.now index) found.1) }
    ensures none { IsNone result → IsGoodMend code.now (option_copied stored.entry) lost key.now index → ⊥ }
{
    let width = code.width();
    let len = repair_len(width);
    let mut whole = [0; 2755];
    let (block, _) = whole.split_at_mut(len);
    fill(key, u64::from(index) * word_count(len) as u64, block);
    let plan = repair_plan(width, stored, lost, index, block);
    match good_repair(code, lost, &plan, block) {
        Some(good) => Some((plan, good)),
        None => None,
    }
}

/// The plan of candidate `index`, whose block this is.
fn repair_plan(width: u8, stored: Option<&Plan>, lost: u8, index: u16, block: &[u8]) -> Plan
    requires wide { 4 ≤ width }
    requires narrow { width ≤ 10 }
    requires lost { lost < width }
    requires bare { IfSome stored (λ plan. IsBare width lost plan.now) }
    requires long { length block.now ≡ repair_len width }
    ensures plan { result ≡ repair_plan width lost (option_copied stored.entry) index block.now }
    ensures bare { IsBare width lost result }
{
    match stored {
        None => drawn_plan(width, lost, &[0; 10], block, 0),
        Some(plan) => {
            plan.told_plan();
            if index == 0 {
                *plan
            } else {
                drawn_plan(width, lost, &plan.choice, block, 0)
            }
        }
    }
}

/// What the candidate with a plan and a block gives, where it is good.
fn good_repair(code: &Code, lost: u8, plan: &Plan, block: &[u8]) -> Option<GoodCode>
    requires lost { lost < code.now.width }
    requires bare { IsBare code.now.width lost plan.now }
    requires long { length block.now ≡ repair_len code.now.width }
    ensures some { IfSome result (IsRepairOf code.now lost plan.now block.now) }
    ensures none { IsNone result → IsGoodRepair code.now lost plan.now block.now → ⊥ }
{
    plan.told_plan();
    let width = code.width();
    let again = repaired(code, lost, plan);
    match check(&again) {
        Verdict::Mds => {}
        Verdict::Fails { .. } => return None,
    }
    let base = turned_base(lost, plan);
    let mut plans = [Plan::none(); 10];
    for next in 0..width {
        match next_plan(&again, lost, plan, &base, block, next) {
            Some(found) => plans[next as usize] = found,
            None => return None,
        }
    }
    Some(GoodCode::new(&again, &Witnesses { plans }))
}

/// The plan for the loss of cloud `next` after a repair.
fn next_plan(
    again: &Code,
    lost: u8,
    plan: &Plan,
    base: &[u8; 10],
    block: &[u8],
    next: u8,
) -> Option<Plan>
    requires lost { lost < again.now.width }
    requires next { next < again.now.width }
    requires base { (t : ℕ) → slice_index base.now t < 2 }
    requires long { length block.now ≡ repair_len again.now.width }
    ensures own { next ≡ lost → result ≡ Some plan.now }
    ensures some { next ≢ lost → IfSome result (IsFirstGoodTry again.now next base.now (repair_tries again.now.width lost block.now next)) }
    ensures other { IsNone result → next ≢ lost }
    ensures none { IsNone result → HasGoodTry again.now next base.now (repair_tries again.now.width lost block.now next) → ⊥ }
{
    if next == lost {
        return Some(*plan);
    }
    let width = again.width();
    let at = plan_len(width) + position(lost, next) as usize * tries_len(width);
    first_try(again, next, base, block, at)
}

/// The choices of a plan turned over, for all clouds but the lost one.
fn turned_base(lost: u8, plan: &Plan) -> [u8; 10]
    ensures base { result ≡ turned_base lost plan.now }
    ensures small { (t : ℕ) → slice_index result t < 2 }
{
    let mut base = [0; 10];
    for t in 0..10u8 {
        base[t as usize] = turned_choice(lost, plan, t);
    }
    base
}

fn turned_choice(lost: u8, plan: &Plan, t: u8) -> u8
    requires { t < 10 }
    ensures { result ≡ turned_choice lost plan.now t }
{
    plan.told_plan();
    if t == lost {
        0
    } else {
        1 - plan.choice[t as usize]
    }
}

/// The bytes of a repair block at a width.
fn repair_len(width: u8) -> usize
    requires wide { 4 ≤ width }
    requires narrow { width ≤ 10 }
    ensures len { result ≡ repair_len width }
    ensures short { result ≤ 2755 }
{
    plan_len(width) + (width as usize - 1) * tries_len(width)
}
