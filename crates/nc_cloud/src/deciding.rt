ghost use Rattle.std.specs.Prelude.{◌≡◌, ◌≢◌, ℕ, List, All, map, IfSome, IfNone, true};
ghost use Rattle.nc_frame.specs.Frames.{Whole};
ghost use Rattle.nc_cloud.specs.Fleet.{asked, writes, Answers, chunks_got, got_count};
ghost use Rattle.nc_cloud.specs.declared.fleet.Job.{Job};
ghost use Rattle.nc_cloud.specs.Deciding.{AreAscending, BlamesJob, BlamesAsk, DecidesAsks, DecidesJobs, IsSeen, OnlyLooked, TellsCounts, Wrote};
ghost use Rattle.nc_cloud.specs.Stopping.{Stops};

use crate::fleet::{Answer, Ask, Done, Fleet, Job};
use thiserror::Error;

/// What kept a round from being Ok as a whole.
#[derive(Clone, Copy, Debug, PartialEq, Eq, Error)]
pub enum RoundFault {
    /// This cloud failed: the least of its round.
    #[error("cloud {0} failed")]
    Cloud(u8),
    /// No memory was found.
    #[error("no memory")]
    Memory,
}

/// What is to blame for this write not being Ok.
fn job_fault(job: &Job) -> Option<RoundFault>
    requires { job.now.done ≢ Done.Waiting }
    ensures some { IfSome result (BlamesJob job.now) }
    ensures none { IfNone result (job.now.done ≡ Done.Ok) }
{
    match job.done {
        Done::Ok => None,
        Done::Failed => Some(RoundFault::Cloud(job.cloud)),
        Done::Waiting | Done::Memory => Some(RoundFault::Memory),
    }
}

/// The least entry that isn't Ok decides.
fn written(jobs: &[Job]) -> Result<(), RoundFault>
    requires { All (λ j. j.done ≢ Done.Waiting) jobs.now }
    ensures { DecidesJobs jobs.now result }
{
    for job in jobs {
        if let Some(fault) = job_fault(job) {
            return Err(fault);
        }
    }
    Ok(())
}

/// What is to blame for this get saying nothing.
fn ask_fault(ask: &Ask) -> Option<RoundFault>
    requires { ask.now.answer ≢ Answer.Waiting }
    ensures some { IfSome result (BlamesAsk ask.now) }
    ensures none { IfNone result (IsSeen ask.now.answer ≡ true) }
{
    match ask.answer {
        Answer::Failed => Some(RoundFault::Cloud(ask.cloud)),
        Answer::Waiting | Answer::Memory => Some(RoundFault::Memory),
        _ => None,
    }
}

/// The least entry that says nothing decides.
fn answered(asks: &[Ask]) -> Result<(), RoundFault>
    requires { All (λ a. a.answer ≢ Answer.Waiting) asks.now }
    ensures { DecidesAsks asks.now result }
{
    for ask in asks {
        if let Some(fault) = ask_fault(ask) {
            return Err(fault);
        }
    }
    Ok(())
}

/// A round of writes, on some clouds in ascending order. The least entry that isn't Ok decides.
pub fn write_round<F: Fleet>(fleet: &mut F, jobs: &mut [Job]) -> Result<(), RoundFault>
    requires ready { F.ready }
    requires clouds { AreAscending (λ j. j.cloud) (F.clouds fleet.old) jobs.old }
    requires whole { All (λ j. Whole j.bytes) jobs.old }
    ensures wrote { Wrote F.Fleet (writes jobs.old) jobs.new fleet.old fleet.new result }
{
    fleet.put_round(jobs);
    written(jobs)
}

/// A round of gets, of some clouds in ascending order. The least entry that says nothing decides.
pub fn ask_round<F: Fleet>(fleet: &mut F, asks: &mut [Ask]) -> Result<(), RoundFault>
    requires ready { F.ready }
    requires clouds { AreAscending (λ a. a.cloud) (F.clouds fleet.old) asks.old }
    ensures entries { map asked asks.new ≡ map asked asks.old }
    ensures told { F.tells → All (λ a. Answers a (F.held fleet.old a.cloud a.key)) asks.new }
    ensures decides { DecidesAsks asks.new result }
    ensures counts { TellsCounts F.Fleet fleet.old fleet.new result }
    ensures looked { OnlyLooked F.Fleet fleet.old fleet.new }
    ensures stops { Stops F.Fleet fleet.old fleet.new (λ G. G ≡ F.held fleet.old) }
    ensures gets { (c : ℕ) → F.chunk_gets fleet.new c ≡ got_count (F.chunk_gets fleet.old c) (chunks_got c asks.new) }
{
    fleet.get_round(asks);
    answered(asks)
}

/// A round of writes, on some clouds in ascending order, which are let go afterwards. The least entry that isn't Ok decides.
/// Where there are none, no round is made.
pub fn write_row<F: Fleet>(fleet: &mut F, mut jobs: Vec<Job>) -> Result<(), RoundFault>
    requires ready { F.ready }
    requires clouds { AreAscending (λ j. j.cloud) (F.clouds fleet.old) jobs.items }
    requires whole { All (λ j. Whole j.bytes) jobs.items }
    ensures wrote { (ended : List Job) × Wrote F.Fleet (writes jobs.items) ended fleet.old fleet.new result }
{
    if jobs.is_empty() {
        return Ok(());
    }
    write_round(fleet, &mut jobs)
}
