ghost use Rattle.std.specs.Prelude.{◌≡◌, ◌<◌, ◌≤◌, ◌++◌, ◌∷◌, [], IfOk, OnOk, length, map, true};
ghost use Rattle.nc_cloud.specs.Fleet.{asked};
ghost use Rattle.nc_cloud.specs.Rounds.{some_row};
ghost use Rattle.nc_meta.specs.Metas.{IsLive};
ghost use Rattle.nc_settle.specs.MetaWrites.{named};
ghost use Rattle.nc_fetch.specs.Founds.{chunk_ask_on, AreFound};
ghost use Rattle.nc_fetch.specs.Seats.{TakesNext};

use crate::founds::Found;
use crate::marking::is_named;
use crate::seats::{Seat, judge_all};
use nc_cloud::Ask;
use nc_meta::Live;
use nc_name::{Memory, Name};
use std::alloc::Global;
use std::thread::Threads;

/// What the answers of a round give of a row of chunks, by cloud.
pub(crate) fn judge_row<R: Threads + Sync>(
    rt: &R,
    alloc: Global,
    width: u8,
    name: &Name,
    live: &Live,
    row: u8,
    on: &[bool; 10],
    asks: Vec<Ask>,
    workers: u8,
) -> Result<Vec<Found>, Memory>
    requires wide { 4 ≤ width }
    requires narrow { width ≤ 10 }
    requires live { IsLive width live.now }
    requires row { row < 2 }
    requires asks { map asked asks.items
        ≡ some_row (chunk_ask_on width name.now live.now row (named on.now)) 0 width }
    requires some_worker { 1 ≤ workers }
    ensures { IfOk result
        (λ founds. AreFound width name.now live.now row (named on.now) width
        asks.items founds.items) }
{
    let mut seats = judge_all(rt, alloc, width, name, live, &[row; 10], asks, workers)?;
    let mut founds = Vec::new(alloc);
    for cloud in 0..width {
        let found = next_found(on, cloud, &mut seats)?;
        push_found(&mut founds, found)?;
    }
    Ok(founds)
}

/// What the next seat gives, where the cloud was asked.
fn next_found(on: &[bool; 10], cloud: u8, seats: &mut Vec<Seat>) -> Result<Found, Memory>
    requires cloud { cloud < 10 }
    requires some { named on.now cloud ≡ true → 0 < length seats.old.items }
    ensures { TakesNext (named on.now cloud) seats.old.items seats.new.items result }
{
    if is_named(on, cloud) {
        let Seat { found, .. } = seats.remove(0);
        return found;
    }
    Ok(Found::Unasked)
}

fn push_found(founds: &mut Vec<Found>, found: Found) -> Result<(), Memory>
    ensures { OnOk result (founds.new.items ≡ founds.old.items ++ found ∷ []) }
{
    match founds.push(found) {
        Ok(()) => Ok(()),
        Err(_) => Err(Memory),
    }
}
