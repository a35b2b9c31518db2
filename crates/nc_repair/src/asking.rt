ghost use Rattle.std.specs.Prelude.{◌≡◌, ◌<◌, ◌+◌, ◌-◌, ◌++◌, ◌∷◌, [], IfOk, OnOk, map};
ghost use Rattle.nc_cloud.specs.Fleet.{asked};
ghost use Rattle.nc_repair.specs.Asking.{AreSurvivorAsks, survivor_ask};
ghost use Rattle.nc_repair.specs.Survivors.{HasLost};

use crate::survivors::{chosen_row, survivor};
use nc_cloud::Ask;
use nc_code::Plan;
use nc_download::{push_ask, wanted};
use nc_meta::Live;
use nc_name::{Memory, Name};
use std::alloc::Global;

/// An ask to each survivor for the chunk that the plan takes from it, in the order of the clouds.
pub(crate) fn survivor_asks(
    alloc: Global,
    width: u8,
    name: &Name,
    live: &Live,
    plan: &Plan,
    lost: u8,
) -> Result<Vec<Ask>, Memory>
    requires lost { HasLost width lost live.now }
    ensures { IfOk result (λ asks. AreSurvivorAsks width name.now live.now plan.now lost asks.items) }
{
    let mut asks = Vec::new(alloc);
    for k in 0..width - 1 {
        push_survivor(&mut asks, width, name, live, plan, lost, k)?;
    }
    Ok(asks)
}

/// Adds the ask to the survivor at a position.
fn push_survivor(
    asks: &mut Vec<Ask>,
    width: u8,
    name: &Name,
    live: &Live,
    plan: &Plan,
    lost: u8,
    k: u8,
) -> Result<(), Memory>
    requires lost { HasLost width lost live.now }
    requires within { k + 1 < width }
    ensures { OnOk result
        (map asked asks.new.items ≡ map asked asks.old.items
        ++ survivor_ask width name.now live.now plan.now lost k ∷ []) }
{
    let cloud = survivor(lost, k);
    let row = chosen_row(plan, cloud);
    push_ask(asks, &wanted(width, name, live, row, cloud))?;
    Ok(())
}
