//! `restore_one`: the chunks of one cloud or two are made right again, from the file itself.
ghost use Rattle.std.specs.Prelude.{◌≡◌, ◌≢◌, ◌<◌, ◌≤◌, ◌+◌, ℕ, IfErr, IfOk, IfSome, None, Some, Err, true, if◌then◌else◌};
ghost use Rattle.nc_code.specs.Codes.{IsMds};
ghost use Rattle.nc_meta.specs.Metas.{IsLive};
ghost use Rattle.nc_meta.specs.declared.meta.Meta.TheVariants.{Live as LiveMeta};
ghost use Rattle.nc_cloud.specs.Contents.{Grows};
ghost use Rattle.nc_cloud.specs.Deciding.{OnlyLooked};
ghost use Rattle.nc_cloud.specs.Fleet.{got_count};
ghost use Rattle.nc_cloud.specs.Stopping.{GoesOn, Keeps, Stops};
ghost use Rattle.nc_settle.specs.MetaWrites.{named};
ghost use Rattle.nc_state.specs.Clouds.{count_of};
ghost use Rattle.nc_state.specs.Vaults.{ChangesOnlyName};
ghost use Rattle.nc_fetch.specs.Asking.{GaveAtMost};
ghost use Rattle.nc_restore.specs.declared.fault.RestoreFault.TheVariants.{Memory as NoMemory};
ghost use Rattle.nc_restore.specs.Asking.{AskFails, NamesRestored, is_restored};
ghost use Rattle.nc_restore.specs.Restored.{ChangesOnlyBad, CountsWrong, HasRestoreCause, IfShort, KeptAtRefusal, RestoreIsShort};
ghost use Rattle.nc_restore.specs.Restored.{IfUnsound, RightRestored, ShortShows, StaysResting, TellsSoundness};
ghost use Rattle.nc_restore.specs.Restoring.{AreJudged, LacksOutside, MadeOfFile, RestoreDid, bad_count, by_row, count_by};

use crate::asking::judge_row;
use crate::fault::{RestoreFault, fault_of};
use crate::making::{make_anew, write_anew};
use crate::reading::read_outside;
use nc_cloud::{Fleet, RoundFault};
use nc_fetch::is_named;
use nc_mds::{Verdict, check};
use nc_meta::Live;
use nc_name::Name;
use nc_write::RowWrites;
use std::alloc::Global;
use std::thread::Threads;

/// The clouds whose chunks aren't good, by row.
#[derive(Clone, Copy)]
struct BadRows {
    zeros: [bool; 10],
    ones: [bool; 10],
}

/// Makes the chunks of a file on one cloud or two right again, from the file itself: it reads those chunks, and writes only those
/// that aren't good. It tells how many it wrote. The metadata stays, its generation and its code too. No other cloud is written
/// to, and the file is read from the other clouds alone. All memory of the writes is taken before the first, and no round follows
/// one that isn't Ok.
pub fn restore_one<R: Threads + Sync, F: Fleet>(
    rt: &R,
    alloc: Global,
    fleet: &mut F,
    name: &Name,
    before: &Live,
    first: u8,
    second: Option<u8>,
    workers: u8,
) -> Result<u64, RestoreFault>
    requires ready { F.ready }
    requires wide { 4 ≤ F.clouds fleet.old }
    requires narrow { F.clouds fleet.old ≤ 10 }
    requires live { IsLive (F.clouds fleet.old) before.now }
    requires first { first < F.clouds fleet.old }
    requires second { IfSome second (λ c. c < F.clouds fleet.old) }
    requires differ { IfSome second (λ c. c ≢ first) }
    requires some_workers { 1 ≤ workers }
    requires few_workers { workers ≤ 16 }
    ensures did { RestoreDid F.Fleet name.now before.now (is_restored first second)
        fleet.old fleet.new result }
    ensures sound { TellsSoundness before.now result }
    ensures rests { F.tells
        → StaysResting F.Fleet (F.clouds fleet.old) name.now (Some (LiveMeta before.now))
        fleet.old fleet.new }
    ensures right { F.tells
        → IfOk result (λ count. RightRestored (F.clouds fleet.old) name.now before.now
        (is_restored first second) (F.held fleet.old) (F.held fleet.new)) }
    ensures counts { F.tells
        → IfOk result (CountsWrong (F.clouds fleet.old) name.now before.now
        (is_restored first second) (F.held fleet.old)) }
    ensures healthy { F.tells
        → Keeps F.Fleet fleet.old fleet.new (ChangesOnlyBad (F.clouds fleet.old) name.now
        before.now (is_restored first second) (F.held fleet.old)) }
    ensures alone { F.tells
        → Keeps F.Fleet fleet.old fleet.new (ChangesOnlyName name.now (F.held fleet.old)) }
    ensures short { IfErr result
        (IfShort (RestoreIsShort F.Fleet name.now before.now (is_restored first second)
        fleet.old fleet.new)) }
    ensures shows { F.tells
        → IfErr result (IfShort (λ list. ShortShows F.Fleet name.now before.now
        (is_restored first second) fleet.old fleet.new)) }
    ensures unasked { IfErr result (IfUnsound (fleet.new ≡ fleet.old)) }
    ensures kept { IfErr result (KeptAtRefusal (F.held fleet.new ≡ F.held fleet.old)) }
    ensures none { IfOk result (λ count. count ≡ 0 → F.held fleet.new ≡ F.held fleet.old) }
    ensures cause { IfErr result
        (HasRestoreCause F.counts_exactly (is_restored first second)
        (F.faults fleet.old) (F.faults fleet.new)) }
    ensures clean { F.counts_exactly
        → IfOk result (λ count. (c : ℕ)
        → is_restored first second c ≡ true
        → F.faults fleet.new c ≡ F.faults fleet.old c) }
    ensures gets { F.tells
        → (result ≡ Err NoMemory → ⊥)
        → (c : ℕ)
        → c < F.clouds fleet.old
        → GaveAtMost 2 (F.chunk_gets fleet.old c) (F.chunk_gets fleet.new c) }
    ensures reads { IfOk result (λ count. count ≡ 0
        → (c : ℕ)
        → c < F.clouds fleet.old
        → F.chunk_gets fleet.new c ≡ got_count (F.chunk_gets fleet.old c)
        (if is_restored first second c then 2 else 0)) }
    ensures clouds { F.clouds fleet.new ≡ F.clouds fleet.old }
    ensures grows { Grows (F.faults fleet.old) (F.faults fleet.new) }
    ensures slips { F.slips fleet.new ≡ F.slips fleet.old }
    ensures time { GoesOn F.Fleet fleet.old fleet.new }
{
    let _told = name.bytes();
    let on = restored_table(first, second);
    restore_in_turn(rt, alloc, fleet, name, before, &on, workers)
}

/// A table that names the clouds to be restored.
fn restored_table(first: u8, second: Option<u8>) -> [bool; 10]
    requires first { first < 10 }
    requires second { IfSome second (λ c. c < 10) }
    ensures { NamesRestored first second result }
{
    match second {
        None => table_of_one(first),
        Some(second) => table_of_two(first, second),
    }
}

fn table_of_one(first: u8) -> [bool; 10]
    requires { first < 10 }
    ensures { NamesRestored first None result }
{
    let mut on = [false; 10];
    on[usize::from(first)] = true;
    on
}

fn table_of_two(first: u8, second: u8) -> [bool; 10]
    requires first { first < 10 }
    requires second { second < 10 }
    ensures { NamesRestored first (Some second) result }
{
    let mut on = table_of_one(first);
    on[usize::from(second)] = true;
    on
}

/// Judges the chunks of the clouds that `on` names, makes those that aren't good anew of the file, and writes them.
fn restore_in_turn<R: Threads + Sync, F: Fleet>(
    rt: &R,
    alloc: Global,
    fleet: &mut F,
    name: &Name,
    before: &Live,
    on: &[bool; 10],
    workers: u8,
) -> Result<u64, RestoreFault>
    requires ready { F.ready }
    requires wide { 4 ≤ F.clouds fleet.old }
    requires narrow { F.clouds fleet.old ≤ 10 }
    requires live { IsLive (F.clouds fleet.old) before.now }
    requires some_workers { 1 ≤ workers }
    requires few_workers { workers ≤ 16 }
    ensures did { RestoreDid F.Fleet name.now before.now (named on.now)
        fleet.old fleet.new result }
{
    if let Verdict::Fails { a, b, .. } = check(&before.code) {
        return Err(RestoreFault::Unsound { a, b });
    }
    let bad = match judge_both(rt, alloc, fleet, name, before, on, workers) {
        Ok(bad) => bad,
        Err(fault) => return Err(fault),
    };
    let count = count_bad(&bad, fleet.width() as u8);
    if count == 0 {
        return Ok(0);
    }
    let writes = match remake(rt, alloc, fleet, name, before, on, &bad, workers) {
        Ok(writes) => writes,
        Err(why) => return Err(why),
    };
    let answer = write_anew(fleet, writes);
    counted(answer, count)
}

/// Both rows of the clouds that `on` names are judged, each in a round.
fn judge_both<R: Threads + Sync, F: Fleet>(
    rt: &R,
    alloc: Global,
    fleet: &mut F,
    name: &Name,
    live: &Live,
    on: &[bool; 10],
    workers: u8,
) -> Result<BadRows, RestoreFault>
    requires ready { F.ready }
    requires wide { 4 ≤ F.clouds fleet.old }
    requires narrow { F.clouds fleet.old ≤ 10 }
    requires live { IsLive (F.clouds fleet.old) live.now }
    ensures judged { IfOk result
        (λ bad. AreJudged F.Fleet name.now live.now (named on.now)
        fleet.old fleet.new (by_row bad.zeros bad.ones)) }
    ensures fails { IfErr result (AskFails F.Fleet (named on.now) 2 fleet.old fleet.new) }
{
    let zeros = match judge_row(rt, alloc, fleet, name, live, 0, on, workers) {
        Ok(zeros) => zeros,
        Err(fault) => return Err(fault),
    };
    match judge_row(rt, alloc, fleet, name, live, 1, on, workers) {
        Ok(ones) => Ok(BadRows { zeros, ones }),
        Err(fault) => Err(fault),
    }
}

/// How many chunks aren't good.
fn count_bad(bad: &BadRows, width: u8) -> u64
    requires { width ≤ 10 }
    ensures { result ≡ bad_count width (by_row bad.now.zeros bad.now.ones) }
{
    count_on(&bad.zeros, width) + count_on(&bad.ones, width)
}

/// How many of the first clouds a table names.
fn count_on(on: &[bool; 10], width: u8) -> u64
    requires { width ≤ 10 }
    ensures is { result ≡ count_of width (named on.now) }
    ensures few { result ≤ width }
{
    let mut count = 0;
    for cloud in 0..width {
        count = count_with(count, is_named(on, cloud));
    }
    count
}

fn count_with(count: u64, on: bool) -> u64
    requires { count < 10 }
    ensures { result ≡ (if on then 1 else 0) + count }
{
    if on { count + 1 } else { count }
}

/// Reads the file from the other clouds, and makes the bad chunks anew of it.
fn remake<R: Threads + Sync, F: Fleet>(
    rt: &R,
    alloc: Global,
    fleet: &mut F,
    name: &Name,
    live: &Live,
    on: &[bool; 10],
    bad: &BadRows,
    workers: u8,
) -> Result<RowWrites, RestoreFault>
    requires ready { F.ready }
    requires wide { 4 ≤ F.clouds fleet.old }
    requires narrow { F.clouds fleet.old ≤ 10 }
    requires live { IsLive (F.clouds fleet.old) live.now }
    requires mds { IsMds live.now.code }
    requires some_workers { 1 ≤ workers }
    requires few_workers { workers ≤ 16 }
    ensures remade { IfOk result
        (MadeOfFile F.Fleet name.now live.now (named on.now) (by_row bad.now.zeros bad.now.ones)
        fleet.old fleet.new) }
    ensures lacks { IfErr result
        (LacksOutside F.Fleet name.now live.now fleet.old fleet.new (named on.now)) }
    ensures looked { OnlyLooked F.Fleet fleet.old fleet.new }
    ensures stops { Stops F.Fleet fleet.old fleet.new (λ G. G ≡ F.held fleet.old) }
{
    let width = fleet.width() as u8;
    let file = match read_outside(rt, alloc, fleet, name, live, on, workers) {
        Ok(file) => file,
        Err(fault) => return Err(fault),
    };
    match make_anew(
        rt,
        alloc,
        width,
        name,
        live,
        &bad.zeros,
        &bad.ones,
        file.bytes(),
        workers,
    ) {
        Ok(writes) => Ok(writes),
        Err(_) => Err(RestoreFault::Memory),
    }
}

/// How many chunks were written, where the rounds were answered so.
fn counted(rounds: Result<(), RoundFault>, count: u64) -> Result<u64, RestoreFault>
    ensures { result ≡ count_by count rounds }
{
    match rounds {
        Ok(()) => Ok(count),
        Err(fault) => Err(fault_of(fault)),
    }
}
