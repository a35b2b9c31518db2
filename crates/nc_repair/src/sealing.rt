ghost use Rattle.std.specs.Prelude.{◌≡◌, ◌≤◌, ◌+◌, IfOk};
ghost use Rattle.nc_meta.specs.Parts.{IsGeneration};
ghost use Rattle.nc_repair.specs.Mending.{IsMadeOf, alone_at};
ghost use Rattle.nc_repair.specs.Survivors.{HasLost};

use crate::live::mended_live;
use nc_meta::Live;
use nc_mix::Pair;
use nc_name::{Blob, Memory, Name};
use nc_nextloss::GoodCode;
use nc_write::{Placed, Rows, VersionWrites, seal_version};
use std::alloc::Global;
use std::thread::Threads;

/// Seals the new chunks of the lost cloud, in its other slot, and the metadata of the repaired file.
pub(crate) fn seal_mended<R: Threads + Sync>(
    rt: &R,
    alloc: Global,
    width: u8,
    name: &Name,
    old: &Live,
    generation: u64,
    lost: u8,
    good: &GoodCode,
    pair: Pair,
    workers: u8,
) -> Result<VersionWrites, Memory>
    requires next { generation ≡ old.now.generation + 1 }
    requires last { IsGeneration generation }
    requires lost { HasLost width lost old.now }
    requires width { good.now.code.width ≡ width }
    requires some_workers { 1 ≤ workers }
    requires few_workers { workers ≤ 16 }
    ensures { IfOk result (IsMadeOf width name.now lost old.now good.now pair.zero pair.one) }
{
    let Pair { zero, one } = pair;
    let live = mended_live(rt, width, old, generation, lost, good, &zero, &one, workers);
    let zeros = alone(alloc, lost, zero)?;
    let ones = alone(alloc, lost, one)?;
    let rows = Rows { zeros, ones };
    let writes = seal_version(rt, alloc, width, name, &live, rows, workers)?;
    Ok(writes)
}

/// One chunk, on this cloud.
fn alone(alloc: Global, cloud: u8, chunk: Blob) -> Result<Vec<Placed>, Memory>
    ensures { IfOk result (λ placed. placed.items ≡ alone_at cloud chunk) }
{
    let mut placed = Vec::new(alloc);
    match placed.push(Placed { cloud, chunk }) {
        Ok(()) => Ok(placed),
        Err(_) => Err(Memory),
    }
}
