ghost use Rattle.std.specs.Prelude.{◌≡◌, ◌+◌, ◌<◌, ◌≤◌, [], ◌∷◌, length, IfOk};
ghost use Rattle.nc_native.specs.Native.{AllLong, native_len};
ghost use Rattle.nc_mix.specs.Regenerating.{IsRegenerated, RepairsFile, factor_at, factors, survivor};

use crate::Chunks;
use crate::encoding::lend;
use crate::gates::Gate;
use crate::pieces::Pair;
use crate::sums::mix_rows;
use nc_code::Plan;
use nc_name::{Blob, Memory};
use std::alloc::Global;
use std::thread::Threads;

/// The chunks of a lost cloud, made anew of one chunk of each other cloud: the chunks that the plan chooses, in the order of
/// their clouds, all of one length. Nothing is decoded. Workers and gate change nothing in the answer.
pub fn regenerate<R: Threads + Sync, G: Gate + Sync>(
    rt: &R,
    alloc: Global,
    fetched: &[Blob],
    plan: &Plan,
    lost: u8,
    width: u8,
    workers: u8,
    gate: &G,
) -> Result<Pair, Memory>
    requires wide { 4 ≤ width }
    requires narrow { width ≤ 10 }
    requires lost { lost < width }
    requires count { length fetched.now + 1 ≡ width }
    requires long { AllLong (native_len fetched.now) fetched.now }
    requires some_worker { 1 ≤ workers }
    requires few_workers { workers ≤ 16 }
    ensures pair { IfOk result (IsRegenerated plan.now lost fetched.now) }
    ensures of_file { IfOk result (RepairsFile plan.now lost width fetched.now) }
{
    plan.told_plan();
    let sources = lend(alloc, fetched)?;
    let size = fetched[0].bytes().len();
    let zeroth = factors_of(plan, lost, 0);
    let first = factors_of(plan, lost, 1);
    let rows = [zeroth, first];
    Ok(pair_of(mix_rows(rt, alloc, &sources, &rows, size, workers, gate)?))
}

/// Two chunks as a pair.
fn pair_of(chunks: Chunks) -> Pair
    requires { length chunks ≡ 2 }
    ensures { chunks ≡ result.zero ∷ result.one ∷ [] }
{
    let mut items = chunks.into_items();
    match (items.pop(), items.pop()) {
        (Some(one), Some(zero)) => Pair { zero, one },
        _ => unreachable!(),
    }
}

/// The survivors' factors in the new row `r`, by position.
fn factors_of(plan: &Plan, lost: u8, r: u8) -> [u8; 16]
    requires lost { lost < 10 }
    requires pair { r < 2 }
    ensures { result ≡ factors plan.now lost r }
{
    let mut row = [0; 16];
    for k in 0..16u8 {
        row[k as usize] = factor(plan, lost, r, k);
    }
    row
}

/// The factor in the new row `r` of the survivor at position `k`; 0 past the plan's clouds.
fn factor(plan: &Plan, lost: u8, r: u8, k: u8) -> u8
    requires lost { lost < 10 }
    requires pair { r < 2 }
    requires place { k < 16 }
    ensures { result ≡ factor_at plan.now lost r k }
{
    plan.told_plan();
    let cloud = survivor(lost, k);
    if cloud >= 10 {
        return 0;
    }
    plan.coefs[r as usize][cloud as usize]
}

/// The cloud at position `k` among the clouds other than the lost one.
fn survivor(lost: u8, k: u8) -> u8
    requires { k < 255 }
    ensures { result ≡ survivor lost k }
{
    if k < lost { k } else { k + 1 }
}
