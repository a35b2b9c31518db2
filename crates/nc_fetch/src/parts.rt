ghost use Rattle.std.specs.Prelude.{◌≡◌, ◌≤◌, IfErr, IfOk};
ghost use Rattle.nc_code.specs.Codes.{IsMds};
ghost use Rattle.nc_cloud.specs.Deciding.{OnlyLooked};
ghost use Rattle.nc_cloud.specs.Stopping.{Stops};
ghost use Rattle.nc_meta.specs.Metas.{IsLive};
ghost use Rattle.nc_settle.specs.MetaWrites.{named};
ghost use Rattle.nc_fetch.specs.declared.parts.PartFault.TheVariants.{Memory as NoMemory};
ghost use Rattle.nc_fetch.specs.Parts.{ComesBackFrom, LacksFor};
ghost use Rattle.nc_fetch.specs.PartsOnVaults.{PartShows};

use crate::causes::{marked_with, short_list};
use crate::reading::read_unmarked;
use nc_cloud::Fleet;
use nc_download::{ShortList, Why};
use nc_meta::Live;
use nc_name::{Blob, Memory, Name};
use std::alloc::Global;
use std::thread::Threads;
use thiserror::Error;

/// Why a part of a file wasn't read.
#[derive(Debug, Drop, Error)]
pub enum PartFault {
    /// Fewer clouds are good than it comes back from. These are all that aren't, ascending, each with its first cause.
    #[error("fewer clouds are good than the file comes back from")]
    Short(ShortList),
    /// No memory was found.
    #[error("no memory was found")]
    Memory,
}

impl From<Memory> for PartFault {
    ghost from_gives = { λ _ fault. fault ≡ NoMemory };

    fn from(_memory: Memory) -> PartFault {
        PartFault::Memory
    }
}

/// The part of a file that the metadata tells of: today the whole file. No cloud that `failed` names is asked. The others are tried in
/// ascending order, each time as many as are still wanted; one that fails, or isn't good, gives nothing.
pub fn read_part<R: Threads + Sync, F: Fleet>(
    rt: &R,
    alloc: Global,
    fleet: &mut F,
    name: &Name,
    live: &Live,
    failed: &[bool; 10],
    workers: u8,
) -> Result<Blob, PartFault>
    requires ready { F.ready }
    requires wide { 4 ≤ F.clouds fleet.old }
    requires narrow { F.clouds fleet.old ≤ 10 }
    requires live { IsLive (F.clouds fleet.old) live.now }
    requires mds { IsMds live.now.code }
    requires some_worker { 1 ≤ workers }
    requires few_workers { workers ≤ 16 }
    ensures comes { IfOk result
        (ComesBackFrom F.Fleet name.now live.now fleet.old fleet.new (named failed.now)) }
    ensures lacks { IfErr result
        (LacksFor F.Fleet name.now live.now fleet.old fleet.new (named failed.now)) }
    ensures shows { F.tells
        → PartShows F.Fleet name.now live.now (named failed.now) fleet.old fleet.new result }
    ensures looked { OnlyLooked F.Fleet fleet.old fleet.new }
    ensures stops { Stops F.Fleet fleet.old fleet.new (λ G. G ≡ F.held fleet.old) }
{
    let width = fleet.width() as u8;
    let mut whys = marked_with(failed, Why::Failed);
    let read = read_unmarked(rt, alloc, fleet, name, live, &mut whys, workers)?;
    match read {
        Some(part) => Ok(part),
        None => Err(PartFault::Short(short_list(&whys, width))),
    }
}
