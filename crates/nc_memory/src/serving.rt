ghost use Rattle.std.specs.Prelude.{◌≡◌, map, IfOk, OnOk, option_map};
ghost use Rattle.nc_cloud.specs.Fleet.{asked, erasure, erasures, write, writes};
ghost use Rattle.nc_cloud.specs.declared.fleet.Done.TheVariants.{Memory as NoMemory};
ghost use Rattle.nc_memory.specs.Record.{answer_of, answered_asks, done_of, end_erase, end_job, ended_by, look_of, starved_ask, step_by, steps_of, value};

use crate::log::Log;
use crate::record::{Look, LookList, Refusal, Step, StepList, Torn, refusal_of};
use nc_cloud::{Answer, Ask, Done, Erase, Job};
use nc_name::{Blob, Key, Memory};
use std::alloc::Global;

/// The answer to a get, with a copy of the bytes.
fn answer_to(alloc: Global, log: &Log, refused: Option<Torn>, ask: &Ask) -> Result<Answer, Memory>
    ensures { IfOk result (λ a. a ≡ answer_of refused ask.now.most (value log.now.events.items ask.now.cloud ask.now.key None)) }
{
    if refused.is_some() {
        return Ok(Answer::Failed);
    }
    match log.object(ask.cloud, &ask.key) {
        None => Ok(Answer::Absent),
        Some(bytes) if bytes.len() as u64 <= ask.most => {
            Ok(Answer::Bytes(Blob::from_slice(alloc, bytes)?))
        }
        Some(_) => Ok(Answer::Long),
    }
}

/// Answers each ask by its number.
pub(crate) fn answer_all(
    alloc: Global,
    log: &Log,
    refusals: &[Refusal],
    entries: u64,
    asks: &mut [Ask],
) -> Result<(), Memory>
    ensures asked { map asked asks.new ≡ map asked asks.old }
    ensures ok { OnOk result (asks.new ≡ answered_asks refusals.now entries log.now.events.items asks.old) }
{
    for i in 0..asks.len() {
        asks[i].answer = answer_to(alloc, log, refusal_of(refusals, entries, i), &asks[i])?;
    }
    Ok(())
}

/// No memory was found for this round.
pub(crate) fn starve_asks(asks: &mut [Ask])
    ensures { asks.new ≡ map starved_ask asks.old }
{
    for ask in asks.iter_mut() {
        ask.answer = Answer::Memory;
    }
}

/// What is recorded of the gets of a round.
pub(crate) fn looks_of(alloc: Global, asks: &[Ask]) -> Result<LookList, Memory>
    ensures { IfOk result (λ looks. looks ≡ map look_of asks.now) }
{
    let mut looks = LookList::new(alloc);
    for ask in asks {
        looks.push(Look {
            cloud: ask.cloud,
            failed: matches!(ask.answer, Answer::Failed),
            gave_chunk: matches!(ask.key, Key::Chunk { .. })
                && matches!(ask.answer, Answer::Bytes(_)),
        })?;
    }
    Ok(looks)
}

fn plan_put(alloc: Global, refused: Option<Torn>, job: &Job) -> Result<Step, Memory>
    ensures { IfOk result (λ step. step ≡ step_by refused (write job.now)) }
{
    Ok(Step {
        cloud: job.cloud,
        key: job.key,
        new: Some(Blob::from_slice(alloc, job.bytes.bytes())?),
        failed: refused.is_some(),
        fate: refused,
    })
}

/// The puts of a round as they are recorded, with copies of the bytes.
pub(crate) fn plan_puts(
    alloc: Global,
    refusals: &[Refusal],
    entries: u64,
    jobs: &[Job],
) -> Result<StepList, Memory>
    ensures { IfOk result (λ steps. steps ≡ steps_of refusals.now entries (writes jobs.now)) }
{
    let mut steps = StepList::new(alloc);
    for (i, job) in jobs.iter().enumerate() {
        steps.push(plan_put(alloc, refusal_of(refusals, entries, i), job)?)?;
    }
    Ok(steps)
}

fn plan_erase(refused: Option<Torn>, erase: &Erase) -> Step
    ensures { result ≡ step_by refused (erasure erase.now) }
{
    Step {
        cloud: erase.cloud,
        key: erase.key,
        new: None,
        failed: refused.is_some(),
        fate: refused,
    }
}

/// The deletes of a round as they are recorded.
pub(crate) fn plan_erases(
    alloc: Global,
    refusals: &[Refusal],
    entries: u64,
    erases: &[Erase],
) -> Result<StepList, Memory>
    ensures { IfOk result (λ steps. steps ≡ steps_of refusals.now entries (erasures erases.now)) }
{
    let mut steps = StepList::new(alloc);
    for (i, erase) in erases.iter().enumerate() {
        steps.push(plan_erase(refusal_of(refusals, entries, i), erase))?;
    }
    Ok(steps)
}

fn done_by(refused: Option<Torn>) -> Done
    ensures { result ≡ done_of refused }
{
    match refused {
        None => Done::Ok,
        Some(_) => Done::Failed,
    }
}

/// Answers each put by its number.
pub(crate) fn mark_jobs(refusals: &[Refusal], entries: u64, jobs: &mut [Job])
    ensures { jobs.new ≡ ended_by end_job refusals.now entries jobs.old }
{
    for i in 0..jobs.len() {
        jobs[i].done = done_by(refusal_of(refusals, entries, i));
    }
}

/// Answers each delete by its number.
pub(crate) fn mark_erases(refusals: &[Refusal], entries: u64, erases: &mut [Erase])
    ensures { erases.new ≡ ended_by end_erase refusals.now entries erases.old }
{
    for i in 0..erases.len() {
        erases[i].done = done_by(refusal_of(refusals, entries, i));
    }
}

/// No memory was found for this round.
pub(crate) fn starve_jobs(jobs: &mut [Job])
    ensures { jobs.new ≡ map (end_job NoMemory) jobs.old }
{
    for job in jobs.iter_mut() {
        job.done = Done::Memory;
    }
}

/// No memory was found for this round.
pub(crate) fn starve_erases(erases: &mut [Erase])
    ensures { erases.new ≡ map (end_erase NoMemory) erases.old }
{
    for erase in erases.iter_mut() {
        erase.done = Done::Memory;
    }
}
