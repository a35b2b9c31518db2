ghost use Rattle.std.specs.Prelude.{◌≡◌, ◌<◌, ◌≤◌, ◌^◌, false, All, IfOk, IsSome, Some, map, string_bytes};
ghost use Rattle.nc_memory.specs.Memory.{log_of, width_of};
ghost use Rattle.nc_memory.specs.Moments.{now_of};
ghost use Rattle.nc_memory.specs.Rounds.{round_place, rounds_in};
ghost use Rattle.nc_memory.specs.Stops.{cut, LeavesStopped};
ghost use Rattle.nc_run.specs.declared.status.Status.TheVariants.{WriteFault};
ghost use Rattle.nc_drive.specs.declared.event.Event.TheVariants.{Lose, Run, Stop};
ghost use Rattle.nc_drive.specs.Driving.{Driven, EventFits, Happens};
ghost use Rattle.nc_drive.specs.Endings.{IsEnding, RunsUntil};
ghost use Rattle.nc_drive.specs.Outcomes.{IsQuiet};

use crate::event::Event;
use crate::limit::Limit;
use crate::outcome::{Outcome, Outcomes};
use nc_memory::{Damage, MemFleet, Torn};
use nc_name::{Blob, Memory};
use nc_run::{Status, run_shown};
use nc_stream::{MemSink, MemSource};
use std::alloc::Global;
use std::thread::Threads;

/// How a run ended: its status, or none where its watcher ended it, what it printed, how many of its
/// acts the watcher let pass, and how long the record was at the end of the last of them.
#[derive(Debug, Drop)]
struct Ending {
    status: Option<Status>,
    out: Blob,
    done: u64,
    since: u64,
}

/// Does a whole history on clouds in memory, event after event, and tells what became of each. At
/// `Memory` it ends early.
pub fn drive<R: Threads + Sync>(
    rt: &R,
    alloc: Global,
    fleet: &mut MemFleet,
    events: &[Event],
) -> Result<Outcomes, Memory>
    requires fits { All (EventFits (width_of fleet.old)) events.now }
    ensures driven { IfOk result (Driven events.now fleet.old fleet.new) }
{
    let mut outcomes = Outcomes::new(alloc);
    for event in events {
        outcomes.push(happen(rt, alloc, fleet, event)?)?;
    }
    Ok(outcomes)
}

/// Does one event.
fn happen<R: Threads + Sync>(
    rt: &R,
    alloc: Global,
    fleet: &mut MemFleet,
    event: &Event,
) -> Result<Outcome, Memory>
    requires fits { EventFits (width_of fleet.old) event.now }
    ensures happens { IfOk result (Happens event.now fleet.old fleet.new) }
{
    match event {
        Event::Run { words, input } => run_event(rt, alloc, fleet, words.items(), input),
        Event::Stop {
            words,
            input,
            round,
            fates,
        } => stop_event(
            rt,
            alloc,
            fleet,
            words.items(),
            input,
            *round,
            fates.items(),
        ),
        Event::Lose { cloud, damage } => lose_event(alloc, fleet, *cloud, damage),
    }
}

/// A run.
fn run_event<R: Threads + Sync>(
    rt: &R,
    alloc: Global,
    fleet: &mut MemFleet,
    words: &[String],
    input: &Blob,
) -> Result<Outcome, Memory>
    ensures happens { IfOk result (Happens (Run words.now input.now) fleet.old fleet.new) }
{
    told_rounds(fleet);
    let end = run_until(rt, alloc, fleet, words, input, u64::MAX)?;
    told_rounds(fleet);
    Ok(whole(fleet, end))
}

/// A run that is stopped in a round, where it has one of that number.
fn stop_event<R: Threads + Sync>(
    rt: &R,
    alloc: Global,
    fleet: &mut MemFleet,
    words: &[String],
    input: &Blob,
    round: u64,
    fates: &[Torn],
) -> Result<Outcome, Memory>
    ensures happens { IfOk result (Happens (Stop words.now input.now round fates.now) fleet.old fleet.new) }
{
    let at = fleet.rounds().saturating_add(round);
    let end = run_until(rt, alloc, fleet, words, input, at)?;
    if fleet.rounds() <= at {
        return Ok(whole(fleet, end));
    }
    *fleet = stopped_since(fleet, end.since, at, fates)?;
    Ok(quiet(alloc, fleet, end.done))
}

/// A cloud loses objects.
fn lose_event(
    alloc: Global,
    fleet: &mut MemFleet,
    cloud: u8,
    damage: &Damage,
) -> Result<Outcome, Memory>
    requires within { cloud < width_of fleet.old }
    ensures happens { IfOk result (Happens (Lose cloud damage.now) fleet.old fleet.new) }
{
    fleet.lose(cloud, damage)?;
    Ok(quiet(alloc, fleet, 0))
}

/// Runs these words to their end, or until an act ends once the round of this number has begun,
/// counted over all of the record. Where `out` finds no memory, there is none.
fn run_until<R: Threads + Sync>(
    rt: &R,
    alloc: Global,
    fleet: &mut MemFleet,
    words: &[String],
    input: &Blob,
    round: u64,
) -> Result<Ending, Memory>
    requires begins { rounds_in (log_of fleet.old) ≤ round }
    ensures runs { IfOk result
        (RunsUntil (map string_bytes words.now) input.now round fleet.old fleet.new) }
{
    let bytes = Blob::from_slice(alloc, input.bytes())?;
    let mut source = MemSource::new(alloc, bytes, usize::MAX);
    let mut out = MemSink::new(alloc, usize::MAX);
    let mut err = MemSink::new(alloc, usize::MAX);
    let mut limit = Limit::new(fleet, round);
    let status = run_shown(
        rt,
        alloc,
        words,
        fleet,
        &mut source,
        &mut out,
        &mut err,
        &mut limit,
    );
    told_end(alloc, status, &out, &limit)
}

/// A record has fewer rounds than a count can say.
fn told_rounds(fleet: &MemFleet)
    ensures { rounds_in (log_of fleet.now) < 2 ^ 64 }
{
    let _rounds = fleet.rounds();
}

/// How a run ended.
fn told_end(
    alloc: Global,
    status: Option<Status>,
    out: &MemSink,
    limit: &Limit,
) -> Result<Ending, Memory>
    ensures ending { IfOk result (IsEnding status out.now limit.now) }
{
    if lost_out(&status) {
        return Err(Memory);
    }
    Ok(Ending {
        status,
        out: Blob::from_slice(alloc, out.bytes())?,
        done: limit.done,
        since: limit.since,
    })
}

/// The output failed.
fn lost_out(status: &Option<Status>) -> bool
    ensures { result ≡ false → status.now ≡ Some WriteFault → ⊥ }
{
    matches!(status, Some(Status::WriteFault))
}

/// The fleet as a stop in this round leaves it, where so much of the record came before the round.
/// It always did: a record only grows. Yet no run promises that of its fleet, so it is looked at here.
fn stopped_since(
    fleet: &MemFleet,
    since: u64,
    round: u64,
    fates: &[Torn],
) -> Result<MemFleet, Memory>
    requires round { round < rounds_in (log_of fleet.now) }
    ensures since { IfOk result (λ left. since ≤ round_place (log_of fleet.now) round) }
    ensures cut { let place = round_place (log_of fleet.now) round in
        IfOk result (λ left. log_of left ≡ cut place fates.now (log_of fleet.now)) }
    ensures leaves { IfOk result (LeavesStopped (round_place (log_of fleet.now) round) fleet.now) }
    ensures width { IfOk result (λ left. width_of left ≡ width_of fleet.now) }
{
    let left = fleet.stopped(round, fates)?;
    if left.length() <= since {
        return Err(Memory);
    }
    Ok(left)
}

/// What became of a run that went to its end.
fn whole(fleet: &MemFleet, end: Ending) -> Outcome
    requires ended { IsSome end.status }
    ensures status { end.status ≡ Some result.status }
    ensures out { result.out ≡ end.out }
    ensures mark { result.mark ≡ now_of fleet.now }
    ensures done { result.done ≡ end.done }
{
    let Ending {
        status,
        out,
        done,
        ..
    } = end;
    let Some(status) = status else {
        unreachable!();
    };
    let mark = fleet.length();
    Outcome {
        status,
        out,
        mark,
        done,
    }
}

/// What became of an event that answers nothing.
fn quiet(alloc: Global, fleet: &MemFleet, done: u64) -> Outcome
    ensures quiet { IsQuiet result }
    ensures mark { result.mark ≡ now_of fleet.now }
    ensures done { result.done ≡ done }
{
    Outcome {
        status: Status::Ok,
        out: Blob::from_vec(Vec::new(alloc)),
        mark: fleet.length(),
        done,
    }
}
