ghost use Rattle.std.specs.Prelude.{◌≡◌, ◌≤◌, ◌<◌, ◌+◌, ◌*◌, ◌^◌, ℕ, length};
ghost use Rattle.nc_bytes.specs.Bytes.{AreZeroPast};
ghost use Rattle.nc_code.specs.Good.{plan_of};
ghost use Rattle.nc_code.specs.Parts.{IsPlan, IsTable};
ghost use Rattle.nc_meta.specs.Metas.{IsLive};
ghost use Rattle.nc_meta.specs.Parts.{IsGeneration};
ghost use Rattle.nc_state.specs.Holding.{top_generation};
ghost use Rattle.nc_write.specs.Putting.{next_meta, next_slots as next_slots_of, slot_after};

use nc_code::Witnesses;
use nc_meta::{Live, Meta};
use nc_nextloss::GoodCode;
use nc_state::free_slot;

/// The metadata of a file of this length with these marks, after this metadata.
pub fn put_live(
    top: &Option<Meta>,
    generation: u64,
    len: u64,
    good: &GoodCode,
    marks: &[[u8; 32]; 20],
) -> Live
    requires next { generation ≡ top_generation top.now + 1 }
    requires last { IsGeneration generation }
    requires short { len ≤ 2 ^ 26 }
    requires marks { IsTable 20 32 marks.now }
    requires past { AreZeroPast (2 * good.now.code.width) marks.now }
    ensures is { result ≡ next_meta good.now.code.width top.now good.now len marks.now }
    ensures fits { IsLive good.now.code.width result }
{
    let width = good.code().width();
    told_plans(good.witnesses());
    Live {
        generation,
        len,
        code: *good.code(),
        slots: next_slots(width, top),
        marks: *marks,
        witnesses: Some(*good.witnesses()),
    }
}

/// Where the chunks of each cloud go after this metadata.
fn next_slots(width: u8, top: &Option<Meta>) -> [u8; 10]
    requires { width ≤ 10 }
    ensures { result ≡ next_slots_of width top.now }
{
    let mut slots = [0; 10];
    for cloud in 0..width {
        slots[usize::from(cloud)] = next_slot(top, cloud);
    }
    slots
}

/// Where the chunks of a cloud go after this metadata: beside those that it names.
pub fn next_slot(top: &Option<Meta>, cloud: u8) -> u8
    requires { cloud < 10 }
    ensures is { result ≡ slot_after top.now cloud }
    ensures pair { result < 2 }
{
    match top {
        None => 0,
        Some(meta) => free_slot(meta, cloud),
    }
}

/// Tells what the type of plans keeps of each.
pub fn told_plans(witnesses: &Witnesses)
    ensures count { length witnesses.now.plans ≡ 10 }
    ensures plans { (lost : ℕ) → lost < 10 → IsPlan (plan_of witnesses.now lost) }
{
    witnesses.told_count();
    for lost in 0..10u8 {
        witnesses.plan(lost).told_plan();
    }
}
