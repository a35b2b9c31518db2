//! `repair_one`: the chunks of a lost cloud are made anew of one chunk of each survivor.
ghost use Rattle.std.specs.Prelude.{◌≡◌, ◌<◌, ◌≤◌, ℕ, IfErr, IfOk, OnOk, IfSome, Some, Err};
ghost use Rattle.nc_code.specs.Codes.{repaired};
ghost use Rattle.nc_meta.specs.Metas.{IsLive, IsMeta};
ghost use Rattle.nc_meta.specs.declared.meta.Meta.TheVariants.{Live as LiveMeta};
ghost use Rattle.nc_cloud.specs.Contents.{Grows};
ghost use Rattle.nc_cloud.specs.Fleet.{got_count};
ghost use Rattle.nc_cloud.specs.Stopping.{GoesOn, Keeps};
ghost use Rattle.nc_fetch.specs.Asking.{GaveAtMost};
ghost use Rattle.nc_state.specs.Holding.{HoldsIfAny};
ghost use Rattle.nc_state.specs.Vaults.{ChangesOnlyName, MayBegin, MayDo};
ghost use Rattle.nc_repair.specs.declared.fault.RepairFault.TheVariants.{Worn};
ghost use Rattle.nc_repair.specs.Mending.{IsRepaired};
ghost use Rattle.nc_repair.specs.Survivors.{HasLost};
ghost use Rattle.nc_repair.specs.Repairing.{HasRepairCause, IsMendedTop, IsWornOut, RepairDid, StopsRepair, fetched_of};
ghost use Rattle.nc_repair.specs.Repairing.{GoodBelow, IfDamaged, IsGoodBy, RightAgain};

use crate::answering::answer_of;
use crate::fault::RepairFault;
use crate::remaking::remake_part;
use crate::sealing::seal_mended;
use nc_cloud::Fleet;
use nc_code::Plan;
use nc_meta::{Live, Meta};
use nc_name::Name;
use nc_nextloss::GoodCode;
use nc_settle::Settled;
use nc_state::next_generation;
use nc_write::write_version;
use std::alloc::Global;
use std::thread::Threads;

/// Repairs one cloud on a name that is settled on a file: one chunk of each survivor is read, in one round, and both chunks of
/// the lost cloud are made anew of these, and written beside its old ones, row 0 and then row 1; then the metadata on all
/// clouds. It gives what the name is settled on then. All memory but that of the rounds is taken before the first write, and
/// no round follows one of writes that isn't Ok.
pub fn repair_one<R: Threads + Sync, F: Fleet>(
    rt: &R,
    alloc: Global,
    fleet: &mut F,
    name: &Name,
    before: &Live,
    lost: u8,
    plan: &Plan,
    good: &GoodCode,
    workers: u8,
) -> Result<Settled, RepairFault>
    requires ready { F.ready }
    requires wide { 4 ≤ F.clouds fleet.old }
    requires narrow { F.clouds fleet.old ≤ 10 }
    requires live { IsLive (F.clouds fleet.old) before.now }
    requires lost { lost < F.clouds fleet.old }
    requires code { good.now.code ≡ repaired before.now.code lost plan.now }
    requires some_workers { 1 ≤ workers }
    requires few_workers { workers ≤ 16 }
    ensures did { RepairDid F.Fleet name.now before.now plan.now lost good.now
        fleet.old fleet.new result }
    ensures made { IfOk result (λ s. IsMendedTop lost before.now good.now s.top) }
    ensures fits { IfOk result (λ s. IfSome s.top (IsMeta (F.clouds fleet.old))) }
    ensures begins { F.tells
        → MayBegin F.Fleet (F.clouds fleet.old) name.now (Some (LiveMeta before.now))
        (IsRepaired (F.clouds fleet.old) lost good.now) fleet.old fleet.new }
    ensures does { F.tells
        → IfOk result (λ s. MayDo (F.clouds fleet.old) name.now (Some (LiveMeta before.now))
        (IsRepaired (F.clouds fleet.old) lost good.now)
        (F.held fleet.old) (F.held fleet.new) s.top) }
    ensures alone { F.tells
        → Keeps F.Fleet fleet.old fleet.new (ChangesOnlyName name.now (F.held fleet.old)) }
    ensures worn { IsWornOut before.now → (result ≡ Err Worn) × (fleet.new ≡ fleet.old) }
    ensures not_worn { result ≡ Err Worn → IsWornOut before.now }
    ensures stops { F.tells
        → IfErr result (StopsRepair (F.clouds fleet.old) name.now before.now plan.now lost
        (F.held fleet.old)) }
    ensures good { F.tells
        → IfOk result (λ s. GoodBelow (F.clouds fleet.old) name.now before.now plan.now lost
        (F.held fleet.old) (F.clouds fleet.old)) }
    ensures kept { IfErr result (IfDamaged (F.held fleet.new ≡ F.held fleet.old)) }
    ensures gets { OnOk result
        ((c : ℕ)
        → c < F.clouds fleet.old
        → F.chunk_gets fleet.new c ≡ got_count (F.chunk_gets fleet.old c) (fetched_of lost c)) }
    ensures gets_few { (c : ℕ)
        → c < F.clouds fleet.old
        → GaveAtMost (fetched_of lost c) (F.chunk_gets fleet.old c) (F.chunk_gets fleet.new c) }
    ensures right { F.tells
        → IfOk result (λ s. RightAgain (F.clouds fleet.old) name.now before.now lost good.now
        (F.held fleet.old) (F.held fleet.new)) }
    ensures holds { F.tells
        → IfOk result (λ s. (c : ℕ)
        → c < F.clouds fleet.old
        → HoldsIfAny (F.clouds fleet.old) (F.held fleet.new) name.now c s.top) }
    ensures good_chunks { F.tells
        → IfOk result (λ s. IsGoodBy (F.clouds fleet.old) name.now (F.held fleet.new) lost s.top) }
    ensures cause { IfErr result
        (HasRepairCause F.counts_exactly (F.faults fleet.old) (F.faults fleet.new)) }
    ensures clean { F.counts_exactly
        → IfOk result (λ s. (c : ℕ) → F.faults fleet.new c ≡ F.faults fleet.old c) }
    ensures clouds { F.clouds fleet.new ≡ F.clouds fleet.old }
    ensures grows { Grows (F.faults fleet.old) (F.faults fleet.new) }
    ensures slips { F.slips fleet.new ≡ F.slips fleet.old }
    ensures time { GoesOn F.Fleet fleet.old fleet.new }
{
    let _told = name.bytes();
    plan.told_plan();
    repair_in_turn(rt, alloc, fleet, name, before, lost, plan, good, workers)
}

/// Makes the chunks of the lost cloud anew, and the writes of the repair of these, and makes the writes in turn.
fn repair_in_turn<R: Threads + Sync, F: Fleet>(
    rt: &R,
    alloc: Global,
    fleet: &mut F,
    name: &Name,
    before: &Live,
    lost: u8,
    plan: &Plan,
    good: &GoodCode,
    workers: u8,
) -> Result<Settled, RepairFault>
    requires ready { F.ready }
    requires lost { HasLost (F.clouds fleet.old) lost before.now }
    requires code { good.now.code ≡ repaired before.now.code lost plan.now }
    requires some_workers { 1 ≤ workers }
    requires few_workers { workers ≤ 16 }
    ensures did { RepairDid F.Fleet name.now before.now plan.now lost good.now
        fleet.old fleet.new result }
{
    let Some(generation) = next_generation(before.generation) else {
        return Err(RepairFault::Worn);
    };
    let width = fleet.width() as u8;
    let _kept = good.code();
    let pair = match remake_part(rt, alloc, fleet, name, before, lost, plan, workers) {
        Ok(pair) => pair,
        Err(fault) => return Err(fault),
    };
    let writes = match seal_mended(
        rt, alloc, width, name, before, generation, lost, good, pair, workers,
    ) {
        Ok(writes) => writes,
        Err(_) => return Err(RepairFault::Memory),
    };
    let live = writes.live;
    let answer = write_version(fleet, writes);
    answer_of(answer, Meta::Live(live))
}
