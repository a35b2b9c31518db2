ghost use Rattle.std.specs.Prelude.{◌≡◌, ◌≤◌, IfErr, OnOk};
ghost use Rattle.nc_cloud.specs.Deciding.{OnlyLooked};
ghost use Rattle.nc_cloud.specs.Stopping.{Stops};
ghost use Rattle.nc_fetch.specs.Costs.{EachReadsWhole, ReadsNone};
ghost use Rattle.nc_fetch.specs.Fetching.{Fetches};
ghost use Rattle.nc_fetch.specs.FetchingOnVaults.{EachFetchShows};

use crate::parts::{PartFault, read_part};
use nc_cloud::Fleet;
use nc_download::{FetchFault, shown};
use nc_mds::{Verdict, check};
use nc_name::{Blob, Name};
use nc_settle::look;
use std::alloc::Global;
use std::thread::Threads;

/// The file of this name. Its metadata is looked for on all clouds, of which at most two may fail; that of the highest generation that
/// was seen counts. The clouds that didn't fail are tried in ascending order for its chunks, each time as many as are still wanted.
pub fn fetch<R: Threads + Sync, F: Fleet>(
    rt: &R,
    alloc: Global,
    fleet: &mut F,
    name: &Name,
    workers: u8,
) -> Result<Blob, FetchFault>
    requires ready { F.ready }
    requires wide { 4 ≤ F.clouds fleet.old }
    requires narrow { F.clouds fleet.old ≤ 10 }
    requires some_worker { 1 ≤ workers }
    requires few_workers { workers ≤ 16 }
    ensures fetches { Fetches F.Fleet name.now fleet.old fleet.new result }
    ensures shows { F.tells → EachFetchShows F.Fleet name.now fleet.old fleet.new result }
    ensures unread { IfErr result (ReadsNone (F.chunk_gets fleet.old) (F.chunk_gets fleet.new)) }
    ensures reads { F.tells → OnOk result (EachReadsWhole F.Fleet fleet.old fleet.new) }
    ensures looked { OnlyLooked F.Fleet fleet.old fleet.new }
    ensures stops { Stops F.Fleet fleet.old fleet.new (λ G. G ≡ F.held fleet.old) }
{
    let view = look(alloc, fleet, name)?;
    let live = match shown(&view) {
        Ok(live) => live,
        Err(fault) => return Err(fault),
    };
    if let Verdict::Fails { a, b, .. } = check(&live.code) {
        return Err(FetchFault::Unsound { a, b });
    }
    match read_part(rt, alloc, fleet, name, &live, &view.failed(), workers) {
        Ok(file) => Ok(file),
        Err(PartFault::Short(list)) => Err(FetchFault::Short(list)),
        Err(PartFault::Memory) => Err(FetchFault::Memory),
    }
}
