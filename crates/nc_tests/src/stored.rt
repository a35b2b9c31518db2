//! A file over four clouds in memory of which one lost all, and what is seen of it.
ghost use Rattle.std.specs.Prelude.{◌≡◌, ◌<◌, IfSome};
ghost use Rattle.nc_memory.specs.Memory.{width_of};
ghost use Rattle.nc_meta.specs.Metas.{IsLive, IsMeta};

use crate::codes::good_code;
use nc_memory::{Damage, KeyFates, MemFleet, Torn};
use nc_meta::{Live, Meta};
use nc_name::{Key, Memory, Name};
use nc_settle::Settled;
use nc_write::put;
use std::alloc::Global;
use std::process::Abort;
use std::thread::Threads;

/// The metadata of the file that a name is settled on.
pub fn live_of(rt: &impl Abort, settled: &Settled) -> Live
    requires { IfSome settled.now.top (IsMeta 4) }
    ensures { IsLive 4 result }
{
    match &settled.top {
        Some(Meta::Live(live)) => *live,
        _ => panic!(rt; "there is a file"),
    }
}

/// The file "abcdefgh" is stored under the name, and cloud 1 loses all that it holds.
pub fn stored<R: Threads + Sync + Abort>(
    rt: &R,
    alloc: Global,
    fleet: &mut MemFleet,
    name: &Name,
) -> Live
    requires { width_of fleet.old ≡ 4 }
    ensures width { width_of fleet.new ≡ 4 }
    ensures live { IsLive 4 result }
{
    let never = Settled { top: None };
    let good = good_code(rt);
    let settled = match put(rt, alloc, fleet, name, &never, &good, b"abcdefgh", 1) {
        Ok(settled) => settled,
        Err(fault) => panic!(rt; "{fault:?}"),
    };
    match lose(alloc, fleet, 1) {
        Ok(()) => live_of(rt, &settled),
        Err(Memory) => panic!(rt; "there is memory"),
    }
}

/// A cloud loses all that it holds.
pub fn lose(alloc: Global, fleet: &mut MemFleet, cloud: u8) -> Result<(), Memory>
    requires within { cloud < 4 }
    requires width { width_of fleet.old ≡ 4 }
    ensures { width_of fleet.new ≡ 4 }
{
    let rest = Torn::Gone;
    let except = KeyFates::new(alloc);
    fleet.lose(cloud, &Damage { rest, except })
}

/// Whether there is an object where a chunk of the name stands.
pub fn has_chunk(fleet: &MemFleet, cloud: u8, name: &Name, slot: u8, row: u8) -> bool {
    let name = *name;
    fleet
        .object(cloud, &Key::Chunk { name, slot, row })
        .is_some()
}

/// How many chunks each cloud has given.
pub fn gets(fleet: &MemFleet) -> [u64; 4] {
    [fleet.gets(0), fleet.gets(1), fleet.gets(2), fleet.gets(3)]
}
