//! The file comes back from the clouds that aren't to be restored.
ghost use Rattle.std.specs.Prelude.{◌≡◌, ◌<◌, ◌≤◌, IfErr, IfOk};
ghost use Rattle.nc_code.specs.Codes.{IsMds};
ghost use Rattle.nc_cloud.specs.Deciding.{OnlyLooked};
ghost use Rattle.nc_cloud.specs.Stopping.{Stops};
ghost use Rattle.nc_meta.specs.Metas.{IsLive};
ghost use Rattle.nc_settle.specs.MetaWrites.{named};
ghost use Rattle.nc_fetch.specs.Whys.{AreMarkedWith};
ghost use Rattle.nc_restore.specs.Reading.{AreOutside};
ghost use Rattle.nc_restore.specs.Restoring.{ComesFromOutside, LacksOutside, untried, why_outside};

use crate::fault::RestoreFault;
use nc_cloud::Fleet;
use nc_download::{How, Why};
use nc_fetch::{is_named, marked_with, read_unmarked, short_list};
use nc_meta::Live;
use nc_name::{Blob, Name};
use std::alloc::Global;
use std::thread::Threads;

/// The file that the metadata tells of. No cloud that `on` names is asked. The others are tried in ascending order, each time as
/// many as are still wanted; one that fails, or isn't good, gives nothing.
pub(crate) fn read_outside<R: Threads + Sync, F: Fleet>(
    rt: &R,
    alloc: Global,
    fleet: &mut F,
    name: &Name,
    live: &Live,
    on: &[bool; 10],
    workers: u8,
) -> Result<Blob, RestoreFault>
    requires ready { F.ready }
    requires wide { 4 ≤ F.clouds fleet.old }
    requires narrow { F.clouds fleet.old ≤ 10 }
    requires live { IsLive (F.clouds fleet.old) live.now }
    requires mds { IsMds live.now.code }
    requires some_workers { 1 ≤ workers }
    requires few_workers { workers ≤ 16 }
    ensures comes { IfOk result
        (ComesFromOutside F.Fleet name.now live.now fleet.old fleet.new (named on.now)) }
    ensures lacks { IfErr result
        (LacksOutside F.Fleet name.now live.now fleet.old fleet.new (named on.now)) }
    ensures looked { OnlyLooked F.Fleet fleet.old fleet.new }
    ensures stops { Stops F.Fleet fleet.old fleet.new (λ G. G ≡ F.held fleet.old) }
{
    let width = fleet.width() as u8;
    let mut whys = untried_whys(on);
    let read = read_unmarked(rt, alloc, fleet, name, live, &mut whys, workers)?;
    match read {
        Some(file) => Ok(file),
        None => Err(RestoreFault::Short(short_list(&outside(&whys, on), width))),
    }
}

/// The clouds that `on` names, marked as bad, so that they aren't tried. No answer tells of the mark.
fn untried_whys(on: &[bool; 10]) -> [Option<Why>; 10]
    ensures { AreMarkedWith untried 10 (named on.now) result }
{
    let untried = Why::Row {
        row: 0,
        how: How::Missing,
    };
    marked_with(on, untried)
}

/// Why clouds were found bad, but for those that `on` names.
fn outside(whys: &[Option<Why>; 10], on: &[bool; 10]) -> [Option<Why>; 10]
    ensures { AreOutside (named on.now) whys.now 10 result }
{
    let mut table = [None; 10];
    for cloud in 0..10 {
        table[cloud as usize] = outside_why(whys, cloud, on);
    }
    table
}

/// Why a cloud was found bad, where `on` doesn't name it.
fn outside_why(whys: &[Option<Why>; 10], cloud: u8, on: &[bool; 10]) -> Option<Why>
    requires { cloud < 10 }
    ensures { result ≡ why_outside (named on.now) whys.now cloud }
{
    if is_named(on, cloud) {
        None
    } else {
        whys[usize::from(cloud)]
    }
}
