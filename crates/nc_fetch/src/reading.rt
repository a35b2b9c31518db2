ghost use Rattle.std.specs.Prelude.{◌≤◌, ◌≡◌, IfOk};
ghost use Rattle.nc_code.specs.Codes.{IsMds};
ghost use Rattle.nc_cloud.specs.Deciding.{OnlyLooked};
ghost use Rattle.nc_cloud.specs.Stopping.{Stops};
ghost use Rattle.nc_meta.specs.Metas.{IsLive};
ghost use Rattle.nc_fetch.specs.Reading.{ReadsUnmarked};

use crate::rooms::try_beside;
use nc_cloud::Fleet;
use nc_download::Why;
use nc_meta::Live;
use nc_mix::{Open, decode_into};
use nc_name::{Blob, Memory, Name};
use std::alloc::Global;
use std::thread::Threads;

/// The file that the metadata tells of, from clouds that `whys` doesn't mark. They are tried in ascending order, each time as
/// many as are still wanted; one that fails, or isn't good, gives nothing and is marked. None where fewer are good than the file
/// comes back from.
pub fn read_unmarked<R: Threads + Sync, F: Fleet>(
    rt: &R,
    alloc: Global,
    fleet: &mut F,
    name: &Name,
    live: &Live,
    whys: &mut [Option<Why>; 10],
    workers: u8,
) -> Result<Option<Blob>, Memory>
    requires ready { F.ready }
    requires wide { 4 ≤ F.clouds fleet.old }
    requires narrow { F.clouds fleet.old ≤ 10 }
    requires live { IsLive (F.clouds fleet.old) live.now }
    requires mds { IsMds live.now.code }
    requires some_worker { 1 ≤ workers }
    requires few_workers { workers ≤ 16 }
    ensures reads { IfOk result
        (ReadsUnmarked F.Fleet name.now live.now fleet.old fleet.new whys.old whys.new) }
    ensures looked { OnlyLooked F.Fleet fleet.old fleet.new }
    ensures stops { Stops F.Fleet fleet.old fleet.new (λ G. G ≡ F.held fleet.old) }
{
    let width = fleet.width() as u8;
    let mut room = Vec::new(alloc);
    let pieces = try_beside(rt, alloc, fleet, name, live, whys, &mut room, workers)?;
    if pieces.len() + 2 < usize::from(width) {
        return Ok(None);
    }
    let file = decode_into(
        rt, alloc, room, &pieces, &live.code, live.len, workers, &Open,
    )?;
    Ok(Some(file))
}
