ghost use Rattle.std.specs.Prelude.{◌≡◌, ◌≢◌, ◌<◌, ◌≤◌, ℕ, IfErr, IfOk, OnOk};
ghost use Rattle.nc_native.specs.Native.{chunk_size};
ghost use Rattle.nc_cloud.specs.Deciding.{OnlyLooked};
ghost use Rattle.nc_cloud.specs.Fleet.{got_count};
ghost use Rattle.nc_cloud.specs.Stopping.{Stops};
ghost use Rattle.nc_meta.specs.Metas.{IsLive};
ghost use Rattle.nc_fetch.specs.Asking.{GaveAtMost};
ghost use Rattle.nc_repair.specs.declared.fault.RepairFault.TheVariants.{Worn};
ghost use Rattle.nc_repair.specs.Asking.{AreSurvivorAsks};
ghost use Rattle.nc_repair.specs.Giving.{StopsMending};
ghost use Rattle.nc_repair.specs.Remaking.{IsMadeAnew, IsPairLong, NotRemade, Remade, RemakesFile};
ghost use Rattle.nc_repair.specs.Repairing.{GoodBelow, HasRepairCause, StopsRepair, fetched_of};
ghost use Rattle.nc_repair.specs.Survivors.{HasLost};

use crate::asking::survivor_asks;
use crate::fault::RepairFault;
use crate::giving::given;
use nc_cloud::{Ask, Fleet};
use nc_code::Plan;
use nc_fetch::get_row;
use nc_meta::Live;
use nc_mix::{Open, Pair, regenerate};
use nc_name::Name;
use std::alloc::Global;
use std::thread::Threads;

/// The work on one part of a file, today the whole file: each survivor is asked, in one round, for the chunk that the plan takes
/// from it, and both chunks of the lost cloud are made anew of these. It writes nothing.
pub fn remake_part<R: Threads + Sync, F: Fleet>(
    rt: &R,
    alloc: Global,
    fleet: &mut F,
    name: &Name,
    live: &Live,
    lost: u8,
    plan: &Plan,
    workers: u8,
) -> Result<Pair, RepairFault>
    requires ready { F.ready }
    requires wide { 4 ≤ F.clouds fleet.old }
    requires narrow { F.clouds fleet.old ≤ 10 }
    requires live { IsLive (F.clouds fleet.old) live.now }
    requires lost { lost < F.clouds fleet.old }
    requires some_workers { 1 ≤ workers }
    requires few_workers { workers ≤ 16 }
    ensures remade { IfOk result
        (Remade F.Fleet name.now live.now plan.now lost fleet.old fleet.new) }
    ensures not_remade { IfErr result
        (NotRemade F.Fleet name.now live.now plan.now lost fleet.old fleet.new) }
    ensures of_file { F.tells
        → IfOk result (RemakesFile (F.clouds fleet.old) name.now live.now plan.now lost
        (F.held fleet.old)) }
    ensures long { IfOk result (IsPairLong (chunk_size live.now.len (F.clouds fleet.old))) }
    ensures good { F.tells
        → IfOk result (λ pair. GoodBelow (F.clouds fleet.old) name.now live.now plan.now lost
        (F.held fleet.old) (F.clouds fleet.old)) }
    ensures why { F.tells
        → IfErr result (StopsRepair (F.clouds fleet.old) name.now live.now plan.now lost
        (F.held fleet.old)) }
    ensures not_worn { IfErr result (λ why. why ≢ Worn) }
    ensures gets { OnOk result
        ((c : ℕ)
        → c < F.clouds fleet.old
        → F.chunk_gets fleet.new c ≡ got_count (F.chunk_gets fleet.old c) (fetched_of lost c)) }
    ensures gets_few { (c : ℕ)
        → c < F.clouds fleet.old
        → GaveAtMost (fetched_of lost c) (F.chunk_gets fleet.old c) (F.chunk_gets fleet.new c) }
    ensures cause { IfErr result
        (HasRepairCause F.counts_exactly (F.faults fleet.old) (F.faults fleet.new)) }
    ensures clean { F.counts_exactly
        → IfOk result (λ pair. (c : ℕ) → F.faults fleet.new c ≡ F.faults fleet.old c) }
    ensures looked { OnlyLooked F.Fleet fleet.old fleet.new }
    ensures stops { Stops F.Fleet fleet.old fleet.new (λ G. G ≡ F.held fleet.old) }
{
    plan.told_plan();
    remake(rt, alloc, fleet, name, live, lost, plan, workers)
}

/// Asks the survivors, and makes both chunks of the lost cloud of what they gave.
fn remake<R: Threads + Sync, F: Fleet>(
    rt: &R,
    alloc: Global,
    fleet: &mut F,
    name: &Name,
    live: &Live,
    lost: u8,
    plan: &Plan,
    workers: u8,
) -> Result<Pair, RepairFault>
    requires ready { F.ready }
    requires lost { HasLost (F.clouds fleet.old) lost live.now }
    requires some_workers { 1 ≤ workers }
    requires few_workers { workers ≤ 16 }
    ensures remade { IfOk result
        (Remade F.Fleet name.now live.now plan.now lost fleet.old fleet.new) }
    ensures not_remade { IfErr result
        (NotRemade F.Fleet name.now live.now plan.now lost fleet.old fleet.new) }
{
    let width = fleet.width() as u8;
    let asks = match survivor_asks(alloc, width, name, live, plan, lost) {
        Ok(asks) => asks,
        Err(_) => return Err(RepairFault::Memory),
    };
    let asks = get_row(fleet, asks);
    made_anew(rt, alloc, width, name, live, lost, plan, asks, workers)
}

/// Judges what the survivors gave, and makes of it both chunks of the lost cloud.
fn made_anew<R: Threads + Sync>(
    rt: &R,
    alloc: Global,
    width: u8,
    name: &Name,
    live: &Live,
    lost: u8,
    plan: &Plan,
    asks: Vec<Ask>,
    workers: u8,
) -> Result<Pair, RepairFault>
    requires lost { HasLost width lost live.now }
    requires asks { AreSurvivorAsks width name.now live.now plan.now lost asks.items }
    requires some_workers { 1 ≤ workers }
    requires few_workers { workers ≤ 16 }
    ensures made { IfOk result (IsMadeAnew width name.now live.now plan.now lost asks.items) }
    ensures stops { IfErr result
        (StopsMending width name.now live.now plan.now lost asks.items) }
{
    let fetched = match given(rt, alloc, width, name, live, plan, lost, asks, workers) {
        Ok(fetched) => fetched,
        Err(fault) => return Err(fault),
    };
    match regenerate(rt, alloc, &fetched, plan, lost, width, workers, &Open) {
        Ok(pair) => Ok(pair),
        Err(_) => Err(RepairFault::Memory),
    }
}
