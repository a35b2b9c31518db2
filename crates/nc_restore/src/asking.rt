//! The chunks of the clouds to be restored are asked for and judged.
ghost use Rattle.std.specs.Prelude.{◌≡◌, ◌<◌, ◌≤◌, ◌+◌, ◌-◌, List, All, map};
ghost use Rattle.std.specs.Prelude.{IfErr, IfOk, Ok, Err, true};
ghost use Rattle.nc_name.specs.Keys.{Slots};
ghost use Rattle.nc_cloud.specs.Deciding.{AreAscending, IsSeen};
ghost use Rattle.nc_cloud.specs.Fleet.{asked};
ghost use Rattle.nc_cloud.specs.Rounds.{some_row};
ghost use Rattle.nc_cloud.specs.declared.fleet.Ask.{Ask as Entry};
ghost use Rattle.nc_meta.specs.Metas.{IsLive};
ghost use Rattle.nc_settle.specs.MetaWrites.{named};
ghost use Rattle.nc_fetch.specs.Founds.{AreLeft, chunk_ask_on};
ghost use Rattle.nc_restore.specs.Asking.{AreJudgedTo, AskFails, GotRow, IsJudgedFrom, JudgedOn, RowIsJudged};

use crate::fault::{RestoreFault, fault_of};
use nc_cloud::{Answer, Ask, Fleet, RoundFault, ask_round};
use nc_download::{Wanted, judge_by, wanted};
use nc_fetch::{asks_on, is_named};
use nc_meta::Live;
use nc_name::Name;
use std::alloc::Global;
use std::thread::Threads;

/// Asks the clouds that `on` names for their chunks of this row, in one round, and names those whose chunk isn't good.
pub(crate) fn judge_row<R: Threads + Sync, F: Fleet>(
    rt: &R,
    alloc: Global,
    fleet: &mut F,
    name: &Name,
    live: &Live,
    row: u8,
    on: &[bool; 10],
    workers: u8,
) -> Result<[bool; 10], RestoreFault>
    requires ready { F.ready }
    requires wide { 4 ≤ F.clouds fleet.old }
    requires narrow { F.clouds fleet.old ≤ 10 }
    requires live { IsLive (F.clouds fleet.old) live.now }
    requires row { row < 2 }
    ensures judged { IfOk result
        (λ bad. RowIsJudged F.Fleet name.now live.now row (named on.now)
        fleet.old fleet.new (named bad)) }
    ensures fails { IfErr result (AskFails F.Fleet (named on.now) 1 fleet.old fleet.new) }
{
    let width = fleet.width() as u8;
    let asks = match asks_on(alloc, width, name, live, row, on) {
        Ok(asks) => asks,
        Err(_) => return Err(RestoreFault::Memory),
    };
    match get_row(fleet, asks) {
        Ok(asks) => Ok(bad_ones(rt, width, name, live, row, on, asks, workers)),
        Err(fault) => Err(fault_of(fault)),
    }
}

/// The same entries, answered in one round. The least that says nothing decides.
fn get_row<F: Fleet>(fleet: &mut F, mut asks: Vec<Ask>) -> Result<Vec<Ask>, RoundFault>
    requires ready { F.ready }
    requires clouds { AreAscending (λ a. a.cloud) (F.clouds fleet.old) asks.items }
    ensures got { IfOk result
        (λ ended. GotRow F.Fleet (map asked asks.items) ended.items
        fleet.old fleet.new (Ok tt)) }
    ensures stopped { IfErr result
        (λ fault. (ended : List Entry)
        × GotRow F.Fleet (map asked asks.items) ended fleet.old fleet.new (Err fault)) }
{
    match ask_round(fleet, &mut asks) {
        Ok(()) => Ok(asks),
        Err(fault) => Err(fault),
    }
}

/// The clouds that `on` names whose chunk of this row isn't good, by their answers.
fn bad_ones<R: Threads>(
    rt: &R,
    width: u8,
    name: &Name,
    live: &Live,
    row: u8,
    on: &[bool; 10],
    mut asks: Vec<Ask>,
    workers: u8,
) -> [bool; 10]
    requires wide { 4 ≤ width }
    requires narrow { width ≤ 10 }
    requires live { IsLive width live.now }
    requires row { row < 2 }
    requires asks { map asked asks.items
        ≡ some_row (chunk_ask_on width name.now live.now row (named on.now)) 0 width }
    requires seen { All (λ a. IsSeen a.answer ≡ true) asks.items }
    ensures { AreJudgedTo width name.now live.now row (named on.now) width asks.items result }
{
    let mut bad = [false; 10];
    for cloud in 0..width {
        bad[usize::from(cloud)] = next_is_bad(
            rt, width, name, live, row, cloud, on, &mut asks, workers,
        );
    }
    bad
}

/// Whether the next entry shows a chunk that isn't good, where the cloud has an entry.
fn next_is_bad<R: Threads>(
    rt: &R,
    width: u8,
    name: &Name,
    live: &Live,
    row: u8,
    cloud: u8,
    on: &[bool; 10],
    asks: &mut Vec<Ask>,
    workers: u8,
) -> bool
    requires wide { 4 ≤ width }
    requires narrow { width ≤ 10 }
    requires live { IsLive width live.now }
    requires row { row < 2 }
    requires cloud { cloud < width }
    requires asks { map asked asks.old.items
        ≡ some_row (chunk_ask_on width name.now live.now row (named on.now))
        cloud (width - cloud) }
    requires seen { All (λ a. IsSeen a.answer ≡ true) asks.old.items }
    ensures left { (all : List Entry)
        → AreLeft width name.now live.now row (named on.now) cloud all asks.old.items
        → AreLeft width name.now live.now row (named on.now) (cloud + 1) all asks.new.items }
    ensures seen { All (λ a. IsSeen a.answer ≡ true) asks.new.items }
    ensures judged { (all : List Entry)
        → AreLeft width name.now live.now row (named on.now) cloud all asks.old.items
        → JudgedOn (named on.now cloud) width name.now live.now row cloud all result }
{
    if is_named(on, cloud) {
        let ask = asks.remove(0);
        let wanted = wanted(width, name, live, row, cloud);
        return is_bad(rt, &wanted, &ask.answer, workers);
    }
    false
}

/// Whether an answer shows a chunk that isn't good. Two workers compute both digests at the same time.
fn is_bad<R: Threads>(rt: &R, wanted: &Wanted, answer: &Answer, workers: u8) -> bool
    requires slots { Slots wanted.now.key }
    requires seen { IsSeen answer.now ≡ true }
    ensures { IsJudgedFrom wanted.now answer.now result }
{
    judge_by(rt, wanted, answer, workers).is_err()
}
