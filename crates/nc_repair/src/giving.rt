ghost use Rattle.std.specs.Prelude.{◌≡◌, ◌≤◌, ◌++◌, ◌∷◌, [], IfErr, IfOk, OnOk, true};
ghost use Rattle.nc_fetch.specs.Founds.{is_asked};
ghost use Rattle.nc_repair.specs.Asking.{AreSurvivorAsks};
ghost use Rattle.nc_repair.specs.declared.fault.RepairFault.TheVariants.{Memory as NoMemory};
ghost use Rattle.nc_repair.specs.Giving.{AddsGiven, GaveChunks, IsFaultBy, StopsAt};
ghost use Rattle.nc_repair.specs.Survivors.{HasLost};

use crate::fault::RepairFault;
use nc_cloud::Ask;
use nc_code::Plan;
use nc_download::Why;
use nc_fetch::{Found, Seat, judge_all};
use nc_meta::Live;
use nc_name::{Blob, Name};
use std::alloc::Global;
use std::thread::Threads;

/// The payloads that the survivors gave, in order; else the first of them that gave none, and why.
pub(crate) fn given<R: Threads + Sync>(
    rt: &R,
    alloc: Global,
    width: u8,
    name: &Name,
    live: &Live,
    plan: &Plan,
    lost: u8,
    asks: Vec<Ask>,
    workers: u8,
) -> Result<Vec<Blob>, RepairFault>
    requires lost { HasLost width lost live.now }
    requires asks { AreSurvivorAsks width name.now live.now plan.now lost asks.items }
    requires some_workers { 1 ≤ workers }
    ensures gave { IfOk result
        (λ chunks. GaveChunks width name.now live.now plan.now lost asks.items chunks.items) }
    ensures stops { IfErr result (StopsAt width name.now live.now plan.now lost asks.items) }
{
    plan.told_plan();
    let rows = plan.choice;
    let mut seats = match judge_all(rt, alloc, width, name, live, &rows, asks, workers) {
        Ok(seats) => seats,
        Err(_) => return Err(RepairFault::Memory),
    };
    let mut chunks = Vec::new(alloc);
    for k in 0..width - 1 {
        let seat = seats.remove(0);
        match add_given(seat, &mut chunks) {
            Ok(()) => {}
            Err(fault) => return Err(fault),
        }
    }
    Ok(chunks)
}

/// Adds the payload that a judged seat gives.
fn add_given(seat: Seat, chunks: &mut Vec<Blob>) -> Result<(), RepairFault>
    requires { IfOk seat.found (λ found. is_asked found ≡ true) }
    ensures gives { OnOk result (AddsGiven seat.found chunks.old.items chunks.new.items) }
    ensures fault { IfErr result (IsFaultBy seat.wanted.cloud seat.found) }
{
    let Seat { wanted, found, .. } = seat;
    match found {
        Ok(Found::Good(payload)) => push_payload(chunks, payload),
        Ok(Found::Bad(Why::Failed)) => Err(RepairFault::Cloud(wanted.cloud)),
        Ok(Found::Bad(Why::Row { row, how })) => Err(RepairFault::Damaged {
            cloud: wanted.cloud,
            row,
            how,
        }),
        Ok(Found::Unasked) => unreachable!(),
        Err(_) => Err(RepairFault::Memory),
    }
}

fn push_payload(chunks: &mut Vec<Blob>, payload: Blob) -> Result<(), RepairFault>
    ensures pushed { OnOk result (chunks.new.items ≡ chunks.old.items ++ payload ∷ []) }
    ensures fault { IfErr result (λ fault. fault ≡ NoMemory) }
{
    match chunks.push(payload) {
        Ok(()) => Ok(()),
        Err(_) => Err(RepairFault::Memory),
    }
}
