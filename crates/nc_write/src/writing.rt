ghost use Rattle.std.specs.Prelude.{◌≡◌, ◌≤◌, ◌∷◌, [], All, List, length};
ghost use Rattle.std.specs.Thread.{IsSync};
ghost use Rattle.nc_cloud.specs.declared.fleet.Job.{Job as JobValue};
ghost use Rattle.nc_cloud.specs.Deciding.{AreAscending, Wrote};
ghost use Rattle.nc_cloud.specs.Fleet.{writes};
ghost use Rattle.nc_frame.specs.Frames.{Whole};
ghost use Rattle.nc_write.specs.InTurn.{FinishedInTurn, WroteInTurn, rounds_of};
ghost use Rattle.nc_write.specs.Laying.{AreFinished, IsLaid};
ghost use Rattle.nc_write.specs.Writes.{AreWrites};

use crate::finishing::finish_row;
use crate::sealing::VersionWrites;
use nc_cloud::{Fleet, Job, RoundFault, write_row};
use std::alloc::Global;
use std::thread::Threads;
use std::{mem, thread};

/// Writes a version that was laid out, in the rounds of `write_version`. The frames of row 0 are finished before the first of them,
/// and those of row 1 while row 0 is written, where there are two workers or more. It takes no memory but that of the rounds.
pub(crate) fn write_laid<R: Threads + Sync, F: Fleet>(
    rt: &R,
    alloc: Global,
    fleet: &mut F,
    version: VersionWrites,
    workers: u8,
) -> Result<(), RoundFault>
    requires ready { F.ready }
    requires laid { IsLaid (F.clouds fleet.old) version }
    requires some_workers { 1 ≤ workers }
    ensures rounds { FinishedInTurn F.Fleet version fleet.old fleet.new result }
{
    let VersionWrites {
        live: _,
        mut first,
        second,
        metas,
    } = version;
    finish_row(rt, alloc, &mut first, workers);
    let (second, answer) = write_beside(rt, alloc, fleet, first, second, workers);
    match answer {
        Ok(()) => {}
        Err(fault) => return Err(fault),
    }
    write_rest(fleet, second, metas)
}

/// Writes a row, and gives the next one with its frames finished, and the answer of the round.
fn write_beside<R: Threads + Sync, F: Fleet>(
    rt: &R,
    alloc: Global,
    fleet: &mut F,
    mut row: Vec<Job>,
    mut next: Vec<Job>,
    workers: u8,
) -> (Vec<Job>, Result<(), RoundFault>)
    requires ready { F.ready }
    requires clouds { AreAscending (λ j. j.cloud) (F.clouds fleet.old) row.items }
    requires whole { All (λ j. Whole j.bytes) row.items }
    requires long { All (λ j. 32 ≤ length j.bytes) next.items }
    requires some_workers { 1 ≤ workers }
    ensures finished { AreFinished next.items result.0.items }
    ensures wrote { (ended : List JobValue)
        × Wrote F.Fleet (writes row.items) ended fleet.old fleet.new result.1 }
{
    if workers < 2 {
        finish_row(rt, alloc, &mut next, 1);
        let answer = write_row(fleet, row);
        return (next, answer);
    }
    let (_, answer) = thread::join_mut(
        rt,
        &mut ||
            requires sync { IsSync R.row }
            requires some_workers { 1 ≤ workers }
            requires long { All (λ j. 32 ≤ length j.bytes) next.items }
            ensures { AreFinished next.entry.items next.exit.items }
        { finish_row(rt, alloc, &mut next, workers) },
        &mut ||
            requires ready { F.ready }
            requires ascending { AreAscending (λ j. j.cloud) (F.clouds fleet.now) row.items }
            requires whole { All (λ j. Whole j.bytes) row.items }
            ensures { (ended : List JobValue)
                × Wrote F.Fleet (writes row.entry.items) ended
                fleet.entry.now fleet.exit.now result }
        { write_row(fleet, mem::replace(&mut row, Vec::new(alloc))) },
    );
    (next, answer)
}

/// Writes the new chunks of a version, row 0 and then row 1, and then its metadata, each in a round. The first round that isn't
/// Ok is the last.
pub fn write_version<F: Fleet>(fleet: &mut F, version: VersionWrites) -> Result<(), RoundFault>
    requires ready { F.ready }
    requires made { AreWrites (F.clouds fleet.old) version }
    ensures rounds { WroteInTurn F.Fleet (rounds_of version) fleet.old fleet.new result }
{
    let VersionWrites {
        live: _,
        first,
        second,
        metas,
    } = version;
    match write_row(fleet, first) {
        Ok(()) => {}
        Err(fault) => return Err(fault),
    }
    write_rest(fleet, second, metas)
}

/// The rounds after the first.
fn write_rest<F: Fleet>(fleet: &mut F, second: Vec<Job>, metas: Vec<Job>) -> Result<(), RoundFault>
    requires ready { F.ready }
    requires clouds { AreAscending (λ j. j.cloud) (F.clouds fleet.old) second.items }
    requires whole { All (λ j. Whole j.bytes) second.items }
    requires meta_clouds { AreAscending (λ j. j.cloud) (F.clouds fleet.old) metas.items }
    requires meta_whole { All (λ j. Whole j.bytes) metas.items }
    ensures rounds { WroteInTurn F.Fleet (writes second.items ∷ writes metas.items ∷ [])
        fleet.old fleet.new result }
{
    match write_row(fleet, second) {
        Ok(()) => {}
        Err(fault) => return Err(fault),
    }
    match write_row(fleet, metas) {
        Ok(()) => Ok(()),
        Err(fault) => Err(fault),
    }
}
