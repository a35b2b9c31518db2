ghost use Rattle.std.specs.Prelude.{◌≡◌, ◌+◌, ◌-◌, ◌*◌, ◌<◌, ◌≤◌, ◌++◌, Option, IfOk, IfSome, IfNone, length};
ghost use Rattle.nc_code.specs.Parts.{PlanParts};
ghost use Rattle.nc_code.specs.Good.{plan_of};
ghost use Rattle.nc_code.specs.declared.plan.Witnesses.{Witnesses as PlansOf};
ghost use Rattle.nc_meta.specs.Parts.{each, of_survivors, spread};
ghost use Rattle.nc_meta.specs.Metas.{SpellsPlan, SpellsPlans, SpellsWitnesses, plan_bytes, witness_bytes};

use crate::tables::are_bits;
use nc_bytes::part_of;
use nc_code::{Plan, Witnesses};
use nc_name::Memory;

/// The end of a live payload: a flag, and the plans where it is 1.
pub(crate) fn read_witnesses(n: usize, tail: &[u8]) -> Option<Option<Witnesses>>
    requires wide { 1 ≤ n }
    requires narrow { n ≤ 10 }
    ensures some { IfSome result (SpellsWitnesses n tail.now) }
    ensures none { IfNone result ((w : Option PlansOf) → SpellsWitnesses n tail.now w → ⊥) }
{
    if tail.is_empty() {
        return None;
    }
    let rest = part_of(tail, 1, tail.len() - 1);
    if tail[0] == 1 {
        let witnesses = read_plans(n, rest)?;
        return Some(Some(witnesses));
    }
    if tail[0] != 0 {
        return None;
    }
    if rest.is_empty() { Some(None) } else { None }
}

/// A plan for each loss.
fn read_plans(n: usize, bytes: &[u8]) -> Option<Witnesses>
    requires wide { 1 ≤ n }
    requires narrow { n ≤ 10 }
    ensures some { IfSome result (SpellsPlans n bytes.now) }
    ensures none { IfNone result ((w : PlansOf) → SpellsPlans n bytes.now w → ⊥) }
{
    let size = 3 * (n - 1);
    if bytes.len() != n * size {
        return None;
    }
    let mut plans = [Plan::none(); 10];
    for lost in 0..n {
        plans[lost] = read_plan(n, lost, part_of(bytes, lost * size, size))?;
    }
    Some(Witnesses { plans })
}

/// The plan for one loss.
fn read_plan(n: usize, lost: usize, bytes: &[u8]) -> Option<Plan>
    requires narrow { n ≤ 10 }
    requires lost { lost < n }
    requires long { length bytes.now ≡ 3 * (n - 1) }
    ensures some { IfSome result (SpellsPlan n lost bytes.now) }
    ensures none { IfNone result ((p : PlanParts) → SpellsPlan n lost bytes.now p → ⊥) }
{
    let survivors = n - 1;
    let choice = part_of(bytes, 0, survivors);
    if !are_bits(choice) {
        return None;
    }
    let first = spread(lost, part_of(bytes, survivors, survivors));
    let second = spread(lost, part_of(bytes, survivors + survivors, survivors));
    Some(Plan::new(&spread(lost, choice), &[first, second]))
}

/// By cloud, what is said of the survivors of a loss.
fn spread(lost: usize, bytes: &[u8]) -> [u8; 10]
    requires lost { lost ≤ length bytes.now }
    requires short { length bytes.now < 10 }
    ensures { result ≡ spread lost bytes.now }
{
    let mut whole = [0; 10];
    let (before, after) = bytes.split_at(lost);
    let (front, rest) = whole.split_at_mut(lost);
    front.copy_from_slice(before);
    let (_, rest) = rest.split_at_mut(1);
    let (back, _) = rest.split_at_mut(after.len());
    back.copy_from_slice(after);
    whole
}

/// Appends the end of a live payload.
pub(crate) fn put_witnesses(
    out: &mut Vec<u8>,
    n: usize,
    witnesses: &Option<Witnesses>,
) -> Result<(), Memory>
    requires { n ≤ 10 }
    ensures { IfOk result (λ _. out.new.items ≡ out.old.items ++ witness_bytes n witnesses.now) }
{
    match witnesses {
        None => {
            out.push(0)?;
            Ok(())
        }
        Some(witnesses) => {
            out.push(1)?;
            put_plans(out, n, witnesses)
        }
    }
}

fn put_plans(out: &mut Vec<u8>, n: usize, witnesses: &Witnesses) -> Result<(), Memory>
    requires { n ≤ 10 }
    ensures { IfOk result (λ _. out.new.items ≡ out.old.items ++ each n (λ lost. plan_bytes n lost (plan_of witnesses.now lost))) }
{
    for lost in 0..n {
        put_plan(out, n, lost, witnesses.plan(lost as u8))?;
    }
    Ok(())
}

fn put_plan(out: &mut Vec<u8>, n: usize, lost: usize, plan: &Plan) -> Result<(), Memory>
    requires narrow { n ≤ 10 }
    requires lost { lost < n }
    ensures { IfOk result (λ _. out.new.items ≡ out.old.items ++ plan_bytes n lost plan.now) }
{
    put_survivors(out, n, lost, &plan.choice)?;
    put_survivors(out, n, lost, &plan.coefs[0])?;
    put_survivors(out, n, lost, &plan.coefs[1])
}

/// Appends what is said of the survivors.
fn put_survivors(out: &mut Vec<u8>, n: usize, lost: usize, bytes: &[u8; 10]) -> Result<(), Memory>
    requires narrow { n ≤ 10 }
    requires lost { lost < n }
    ensures { IfOk result (λ _. out.new.items ≡ out.old.items ++ of_survivors n lost bytes.now) }
{
    out.extend_from_slice(part_of(bytes, 0, lost))?;
    out.extend_from_slice(part_of(bytes, lost + 1, n - (lost + 1)))?;
    Ok(())
}
