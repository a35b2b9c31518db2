ghost use Rattle.std.specs.Prelude.{◌≡◌, ◌⊎◌, ◌<◌, ◌≤◌, ◌+◌, ◌++◌, IfOk, OnOk, true, false, if◌then◌else◌, ℕ, length, map, option_to_list};
ghost use Rattle.nc_cloud.specs.Deciding.{AreAscending, OnlyLooked};
ghost use Rattle.nc_cloud.specs.Fleet.{asked};
ghost use Rattle.nc_cloud.specs.Rounds.{some_row};
ghost use Rattle.nc_cloud.specs.Stopping.{Stops};
ghost use Rattle.nc_meta.specs.Metas.{IsLive};
ghost use Rattle.nc_settle.specs.MetaWrites.{named};
ghost use Rattle.nc_fetch.specs.Asking.{AreAnswered, RowIsAsked};
ghost use Rattle.nc_fetch.specs.Founds.{chunk_ask_on};
ghost use Rattle.nc_fetch.specs.Trying.{HasTriedAll, TriesBatch};
ghost use Rattle.nc_fetch.specs.Whys.{free};

use crate::founds::Found;
use crate::marking::{free_ones, good_ones, is_fine, is_named, join, whys_after};
use crate::rows::judge_row;
use nc_cloud::{Ask, Fleet};
use nc_download::{Why, push_ask, wanted};
use nc_meta::Live;
use nc_mix::Piece;
use nc_name::{Memory, Name};
use std::alloc::Global;
use std::thread::Threads;

/// Tries clouds in ascending order, but for those that were found bad before: each time as many as are still wanted, until `n - 2` are
/// good, where `n` is the number of clouds. It gives both chunks of the good ones, and marks the others.
pub fn try_clouds<R: Threads + Sync, F: Fleet>(
    rt: &R,
    alloc: Global,
    fleet: &mut F,
    name: &Name,
    live: &Live,
    whys: &mut [Option<Why>; 10],
    workers: u8,
) -> Result<Vec<Piece>, Memory>
    requires ready { F.ready }
    requires wide { 4 ≤ F.clouds fleet.old }
    requires narrow { F.clouds fleet.old ≤ 10 }
    requires live { IsLive (F.clouds fleet.old) live.now }
    requires some_worker { 1 ≤ workers }
    ensures tried { IfOk result
        (λ pieces. HasTriedAll F.Fleet name.now live.now fleet.old fleet.new
        whys.old whys.new pieces.items) }
    ensures looked { OnlyLooked F.Fleet fleet.old fleet.new }
    ensures stops { Stops F.Fleet fleet.old fleet.new (λ G. G ≡ F.held fleet.old) }
{
    let width = fleet.width() as u8;
    let mut pieces = Vec::new(alloc);
    let mut at = 0;
    'batches: while goes_on(at, width, pieces.len()) {
        let wanted = usize::from(width) - 2 - pieces.len();
        let next = batch_end(whys, at, width, wanted);
        try_batch(
            rt,
            alloc,
            fleet,
            name,
            live,
            at,
            next,
            whys,
            &mut pieces,
            workers,
        )?;
        at = next;
    }
    Ok(pieces)
}

/// Whether more clouds are tried: fewer than `n - 2` are good, and some are left.
fn goes_on(at: u8, width: u8, good: usize) -> bool
    requires { good ≤ width }
    ensures more { result ≡ true → (at < width) × (good + 2 < width) }
    ensures ended { result ≡ false → (width ≤ at) ⊎ (width ≤ good + 2) }
{
    at < width && good + 2 < usize::from(width)
}

/// Where the next clouds to be tried end: after so many that weren't found bad, or after the last cloud.
fn batch_end(whys: &[Option<Why>; 10], at: u8, width: u8, wanted: usize) -> u8
    requires left { at < width }
    requires narrow { width ≤ 10 }
    requires some { 1 ≤ wanted }
    requires few { wanted ≤ 10 }
    ensures later { at < result }
    ensures within { result ≤ width }
    ensures few { length (free whys.now at result) ≤ wanted }
    ensures needed { (c : ℕ) → c + 1 ≡ result → length (free whys.now at c) < wanted }
{
    let mut count = 0;
    for cloud in at..width {
        count = count_with(count, is_fine(whys, cloud));
        if count == wanted {
            return cloud + 1;
        }
    }
    width
}

/// One more, where a cloud wasn't found bad.
fn count_with(count: usize, fine: bool) -> usize
    requires { count < 10 }
    ensures { result ≡ count + (if fine then 1 else 0) }
{
    if fine { count + 1 } else { count }
}

/// Tries the clouds from `at` on and below `next` that weren't found bad: row 0 of all in one round, and row 1 of those that passed in
/// the next.
fn try_batch<R: Threads + Sync, F: Fleet>(
    rt: &R,
    alloc: Global,
    fleet: &mut F,
    name: &Name,
    live: &Live,
    at: u8,
    next: u8,
    whys: &mut [Option<Why>; 10],
    pieces: &mut Vec<Piece>,
    workers: u8,
) -> Result<(), Memory>
    requires ready { F.ready }
    requires wide { 4 ≤ F.clouds fleet.old }
    requires narrow { F.clouds fleet.old ≤ 10 }
    requires live { IsLive (F.clouds fleet.old) live.now }
    requires later { at ≤ next }
    requires within { next ≤ F.clouds fleet.old }
    requires some_worker { 1 ≤ workers }
    ensures tried { OnOk result
        (TriesBatch F.Fleet name.now live.now fleet.old fleet.new at next
        whys.old whys.new pieces.old.items pieces.new.items) }
    ensures looked { OnlyLooked F.Fleet fleet.old fleet.new }
    ensures stops { Stops F.Fleet fleet.old fleet.new (λ G. G ≡ F.held fleet.old) }
{
    let width = fleet.width() as u8;
    let left = free_ones(whys, at, next, width);
    let zeros = ask_row(rt, alloc, fleet, name, live, 0, &left, workers)?;
    let passed = good_ones(&zeros);
    let ones = ask_row(rt, alloc, fleet, name, live, 1, &passed, workers)?;
    *whys = whys_after(whys, &zeros, &ones);
    join(width, zeros, ones, pieces)?;
    Ok(())
}

/// Asks the clouds that `on` names for their chunks of this row, in one round.
fn ask_row<R: Threads + Sync, F: Fleet>(
    rt: &R,
    alloc: Global,
    fleet: &mut F,
    name: &Name,
    live: &Live,
    row: u8,
    on: &[bool; 10],
    workers: u8,
) -> Result<Vec<Found>, Memory>
    requires ready { F.ready }
    requires wide { 4 ≤ F.clouds fleet.old }
    requires narrow { F.clouds fleet.old ≤ 10 }
    requires live { IsLive (F.clouds fleet.old) live.now }
    requires row { row < 2 }
    requires some_worker { 1 ≤ workers }
    ensures asked { IfOk result
        (λ founds. RowIsAsked F.Fleet name.now live.now row (named on.now)
        fleet.old fleet.new founds.items) }
    ensures looked { OnlyLooked F.Fleet fleet.old fleet.new }
    ensures stops { Stops F.Fleet fleet.old fleet.new (λ G. G ≡ F.held fleet.old) }
{
    let width = fleet.width() as u8;
    let asks = asks_on(alloc, width, name, live, row, on)?;
    let asks = get_row(fleet, asks);
    judge_row(rt, alloc, width, name, live, row, on, asks, workers)
}

/// The same entries, answered in one round of gets, in which each answers for itself. Where there are no entries, no round is made.
pub fn get_row<F: Fleet>(fleet: &mut F, mut asks: Vec<Ask>) -> Vec<Ask>
    requires ready { F.ready }
    requires clouds { AreAscending (λ a. a.cloud) (F.clouds fleet.old) asks.items }
    ensures entries { map asked result.items ≡ map asked asks.items }
    ensures answered { AreAnswered F.Fleet result.items fleet.old fleet.new }
    ensures looked { OnlyLooked F.Fleet fleet.old fleet.new }
    ensures stops { Stops F.Fleet fleet.old fleet.new (λ G. G ≡ F.held fleet.old) }
{
    get_all(fleet, &mut asks);
    asks
}

/// A round of gets, in which each entry answers for itself. Where there are no entries, no round is made.
fn get_all<F: Fleet>(fleet: &mut F, asks: &mut [Ask])
    requires ready { F.ready }
    requires clouds { AreAscending (λ a. a.cloud) (F.clouds fleet.old) asks.old }
    ensures entries { map asked asks.new ≡ map asked asks.old }
    ensures answered { AreAnswered F.Fleet asks.new fleet.old fleet.new }
    ensures looked { OnlyLooked F.Fleet fleet.old fleet.new }
    ensures stops { Stops F.Fleet fleet.old fleet.new (λ G. G ≡ F.held fleet.old) }
{
    if asks.is_empty() {
        return;
    }
    fleet.get_round(asks);
}

/// An ask for the chunk of this row, one for each cloud that `on` names.
pub fn asks_on(
    alloc: Global,
    width: u8,
    name: &Name,
    live: &Live,
    row: u8,
    on: &[bool; 10],
) -> Result<Vec<Ask>, Memory>
    requires wide { 4 ≤ width }
    requires narrow { width ≤ 10 }
    requires live { IsLive width live.now }
    requires row { row < 2 }
    ensures { IfOk result
        (λ asks. map asked asks.items
        ≡ some_row (chunk_ask_on width name.now live.now row (named on.now)) 0 width) }
{
    let mut asks = Vec::new(alloc);
    for cloud in 0..width {
        push_on(&mut asks, width, name, live, row, cloud, on)?;
    }
    Ok(asks)
}

/// Adds the ask of a cloud, where `on` names it.
fn push_on(
    asks: &mut Vec<Ask>,
    width: u8,
    name: &Name,
    live: &Live,
    row: u8,
    cloud: u8,
    on: &[bool; 10],
) -> Result<(), Memory>
    requires wide { 4 ≤ width }
    requires narrow { width ≤ 10 }
    requires live { IsLive width live.now }
    requires row { row < 2 }
    requires cloud { cloud < width }
    ensures { OnOk result
        (map asked asks.new.items ≡ map asked asks.old.items
        ++ option_to_list (chunk_ask_on width name.now live.now row (named on.now) cloud)) }
{
    if is_named(on, cloud) {
        push_ask(asks, &wanted(width, name, live, row, cloud))?;
    }
    Ok(())
}
