ghost use Rattle.std.specs.Prelude.{◌≡◌, ◌<◌, ℕ, map, length, find, nat_eq, option_copied, slice_index_or, IfOk, IsErrOf, AllPairs, All, ◌≢◌};
ghost use Rattle.std.specs.Thread.{IsSync};
ghost use Rattle.nc_frame.specs.Frames.{Whole};
ghost use Rattle.nc_cloud.specs.Contents.{Grows, Leaves, Rose};
ghost use Rattle.nc_cloud.specs.Cloud.{AreSorted, Lists};
ghost use Rattle.nc_cloud.specs.declared.cloud.CloudError.TheVariants.{Failed};
ghost use Rattle.nc_cloud.specs.Fleet.{asked, Answers, chunks_got, got_count, writes, touches, erasures, erase_touches};
ghost use Rattle.nc_cloud.specs.Seats.{contents_at, count_at, answer_from, AllServed, ask_at, clouds_in, done_from, erase_at, job_at, collected_ask, collected_erase, collected_job, DidErase, DidGet, DidPut, Serves};

use crate::at_once::AtOnce;
use crate::cloud::{Cloud, CloudError, Got, KeyList};
use crate::fleet::{Answer, Ask, Done, Erase, Job};
use nc_name::Memory;
use std::alloc::Global;
use std::thread::Threads;
use std::{mem, thread};

/// More than there are clouds in a fleet.
const MOST_THREADS: usize = 16;

/// A cloud beside a place for its answer.
#[derive(Drop)]
pub struct Seat<C> {
    pub cloud: C,
    pub answer: Answer,
    pub done: Done,
}

/// The ask of a cloud.
fn ask_of(asks: &[Ask], cloud: usize) -> Option<&Ask>
    ensures { option_copied result ≡ ask_at asks.now cloud }
{
    asks.iter().find(|a| a.cloud as usize == cloud)
}

/// The job of a cloud.
fn job_of(jobs: &[Job], cloud: usize) -> Option<&Job>
    ensures { option_copied result ≡ job_at jobs.now cloud }
{
    jobs.iter().find(|j| j.cloud as usize == cloud)
}

/// The delete of a cloud.
fn erase_of(erases: &[Erase], cloud: usize) -> Option<&Erase>
    ensures { option_copied result ≡ erase_at erases.now cloud }
{
    erases.iter().find(|e| e.cloud as usize == cloud)
}

fn answer_by(got: Result<Got, CloudError>) -> Answer
    ensures { result ≡ answer_from got }
{
    match got {
        Ok(Got::Bytes(bytes)) => Answer::Bytes(bytes),
        Ok(Got::Absent) => Answer::Absent,
        Ok(Got::Long) => Answer::Long,
        Err(CloudError::Failed) => Answer::Failed,
        Err(CloudError::Memory) => Answer::Memory,
    }
}

fn done_by(ended: Result<(), CloudError>) -> Done
    ensures { result ≡ done_from ended }
{
    match ended {
        Ok(()) => Done::Ok,
        Err(CloudError::Failed) => Done::Failed,
        Err(CloudError::Memory) => Done::Memory,
    }
}

/// Serves the ask of this cloud, where there is one.
fn serve_get<C: Cloud>(cloud: usize, seat: &mut Seat<C>, asks: &[Ask])
    ensures { Serves (DidGet C.Cloud) (ask_at asks.now cloud) seat.old seat.new }
{
    match ask_of(asks, cloud) {
        None => {}
        Some(ask) => {
            seat.answer = answer_by(seat.cloud.get(&ask.key, ask.most));
        }
    }
}

/// Does the job of this cloud, where there is one.
fn serve_put<C: Cloud>(cloud: usize, seat: &mut Seat<C>, jobs: &[Job])
    requires { All (λ j. Whole j.bytes) jobs.now }
    ensures { Serves (DidPut C.Cloud) (job_at jobs.now cloud) seat.old seat.new }
{
    match job_of(jobs, cloud) {
        None => {}
        Some(job) => {
            seat.done = done_by(seat.cloud.put(&job.key, job.bytes.bytes()));
        }
    }
}

/// Does the delete of this cloud, where there is one.
fn serve_erase<C: Cloud>(cloud: usize, seat: &mut Seat<C>, erases: &[Erase])
    ensures { Serves (DidErase C.Cloud) (erase_at erases.now cloud) seat.old seat.new }
{
    match erase_of(erases, cloud) {
        None => {}
        Some(erase) => {
            seat.done = done_by(seat.cloud.delete(&erase.key));
        }
    }
}

/// Each cloud serves its ask, all at the same time, in a thread each where threads can be begun.
pub fn get_at_once<C: Cloud + Send + Drop, R: Threads + Sync>(
    rt: &R,
    seats: &mut [Seat<C>],
    asks: &[Ask],
)
    ensures { AllServed (λ c. Serves (DidGet C.Cloud) (ask_at asks.now c)) seats.old seats.new }
{
    thread::for_each_mut(
        rt,
        seats,
        MOST_THREADS,
        &|cloud, seat| serve_get(cloud, seat, asks),
    );
}

/// Each cloud does its job, all at the same time, in a thread each where threads can be begun.
pub fn put_at_once<C: Cloud + Send + Drop, R: Threads + Sync>(
    rt: &R,
    seats: &mut [Seat<C>],
    jobs: &[Job],
)
    requires { All (λ j. Whole j.bytes) jobs.now }
    ensures { AllServed (λ c. Serves (DidPut C.Cloud) (job_at jobs.now c)) seats.old seats.new }
{
    thread::for_each_mut(
        rt,
        seats,
        MOST_THREADS,
        &|cloud, seat| serve_put(cloud, seat, jobs),
    );
}

/// Each cloud does its delete, all at the same time, in a thread each where threads can be begun.
pub fn delete_at_once<C: Cloud + Send + Drop, R: Threads + Sync>(
    rt: &R,
    seats: &mut [Seat<C>],
    erases: &[Erase],
)
    ensures { AllServed (λ c. Serves (DidErase C.Cloud) (erase_at erases.now c)) seats.old seats.new }
{
    thread::for_each_mut(
        rt,
        seats,
        MOST_THREADS,
        &|cloud, seat| serve_erase(cloud, seat, erases),
    );
}

/// Takes the answer out of a seat.
fn taken<C>(seats: &mut [Seat<C>], cloud: usize) -> Answer
    requires { cloud < length seats.old }
    ensures answer { result ≡ slice_index_or (map (λ s. s.answer) seats.old) cloud Answer.Waiting }
    ensures clouds { clouds_in seats.new ≡ clouds_in seats.old }
    ensures others { (c : ℕ) → c ≢ cloud → slice_index_or (map (λ s. s.answer) seats.new) c Answer.Waiting ≡ slice_index_or (map (λ s. s.answer) seats.old) c Answer.Waiting }
{
    mem::replace(&mut seats[cloud].answer, Answer::Waiting)
}

/// Moves the answers to the asks.
fn collect_gets<C>(seats: &mut [Seat<C>], asks: &mut [Ask])
    requires below { All (λ a. a.cloud < length seats.old) asks.old }
    requires once { AllPairs (λ a b. a.cloud ≢ b.cloud) asks.old }
    ensures answers { asks.new ≡ map (collected_ask seats.old) asks.old }
    ensures clouds { clouds_in seats.new ≡ clouds_in seats.old }
{
    for i in 0..asks.len() {
        asks[i].answer = taken(seats, asks[i].cloud as usize);
    }
}

/// The answer in a seat.
fn done_at<C>(seats: &[Seat<C>], cloud: usize) -> Done
    requires { cloud < length seats.now }
    ensures { result ≡ slice_index_or (map (λ s. s.done) seats.now) cloud Done.Waiting }
{
    seats[cloud].done
}

/// Copies the answers to the jobs.
fn collect_puts<C>(seats: &[Seat<C>], jobs: &mut [Job])
    requires { All (λ j. j.cloud < length seats.now) jobs.old }
    ensures { jobs.new ≡ map (collected_job seats.now) jobs.old }
{
    for job in jobs.iter_mut() {
        job.done = done_at(seats, job.cloud as usize);
    }
}

/// Copies the answers to the deletes.
fn collect_erases<C>(seats: &[Seat<C>], erases: &mut [Erase])
    requires { All (λ e. e.cloud < length seats.now) erases.old }
    ensures { erases.new ≡ map (collected_erase seats.now) erases.old }
{
    for erase in erases.iter_mut() {
        erase.done = done_at(seats, erase.cloud as usize);
    }
}

/// A round of gets: each cloud serves its ask, and then the answers are moved to the asks.
pub(crate) fn fan_gets<C: AtOnce, R: Threads + Sync>(
    rt: &R,
    seats: &mut [Seat<C>],
    asks: &mut [Ask],
)
    requires shared { IsSync R.row }
    requires below { All (λ a. a.cloud < length seats.old) asks.old }
    requires once { AllPairs (λ a b. a.cloud ≢ b.cloud) asks.old }
    ensures entries { map asked asks.new ≡ map asked asks.old }
    ensures answered { All (λ a. a.answer ≢ Answer.Waiting) asks.new }
    ensures told { C.tells → All (λ a. Answers a (contents_at C.held (clouds_in seats.old) a.cloud a.key)) asks.new }
    ensures failed { All (λ a. a.answer ≡ Answer.Failed → Rose (count_at C.faults (clouds_in seats.old) a.cloud) (count_at C.faults (clouds_in seats.new) a.cloud)) asks.new }
    ensures exact { C.counts_exactly → (c : ℕ) → All (λ a. a.cloud ≡ c → a.answer ≢ Answer.Failed) asks.new → count_at C.faults (clouds_in seats.new) c ≡ count_at C.faults (clouds_in seats.old) c }
    ensures held { contents_at C.held (clouds_in seats.new) ≡ contents_at C.held (clouds_in seats.old) }
    ensures grows { Grows (count_at C.faults (clouds_in seats.old)) (count_at C.faults (clouds_in seats.new)) }
    ensures slips { count_at C.slips (clouds_in seats.new) ≡ count_at C.slips (clouds_in seats.old) }
    ensures gets { (c : ℕ) → count_at C.chunk_gets (clouds_in seats.new) c ≡ got_count (count_at C.chunk_gets (clouds_in seats.old) c) (chunks_got c asks.new) }
{
    C::get_all(rt, seats, asks);
    collect_gets(seats, asks);
}

/// A round of puts: each cloud does its job, and then the answers are copied to the jobs.
pub(crate) fn fan_puts<C: AtOnce, R: Threads + Sync>(
    rt: &R,
    seats: &mut [Seat<C>],
    jobs: &mut [Job],
)
    requires shared { IsSync R.row }
    requires below { All (λ j. j.cloud < length seats.old) jobs.old }
    requires once { AllPairs (λ a b. a.cloud ≢ b.cloud) jobs.old }
    requires whole { All (λ j. Whole j.bytes) jobs.old }
    ensures entries { writes jobs.new ≡ writes jobs.old }
    ensures answered { All (λ j. j.done ≢ Done.Waiting) jobs.new }
    ensures told { C.tells → Leaves (touches jobs.new) (contents_at C.held (clouds_in seats.old)) (contents_at C.held (clouds_in seats.new)) }
    ensures failed { All (λ j. j.done ≡ Done.Failed → Rose (count_at C.faults (clouds_in seats.old) j.cloud) (count_at C.faults (clouds_in seats.new) j.cloud)) jobs.new }
    ensures exact { C.counts_exactly → (c : ℕ) → All (λ j. j.cloud ≡ c → j.done ≢ Done.Failed) jobs.new → count_at C.faults (clouds_in seats.new) c ≡ count_at C.faults (clouds_in seats.old) c }
    ensures grows { Grows (count_at C.faults (clouds_in seats.old)) (count_at C.faults (clouds_in seats.new)) }
    ensures slips { count_at C.slips (clouds_in seats.new) ≡ count_at C.slips (clouds_in seats.old) }
    ensures gets { count_at C.chunk_gets (clouds_in seats.new) ≡ count_at C.chunk_gets (clouds_in seats.old) }
{
    C::put_all(rt, seats, jobs);
    collect_puts(seats, jobs);
}

/// A round of deletes: each cloud does its delete, and then the answers are copied to the entries.
pub(crate) fn fan_deletes<C: AtOnce, R: Threads + Sync>(
    rt: &R,
    seats: &mut [Seat<C>],
    erases: &mut [Erase],
)
    requires shared { IsSync R.row }
    requires below { All (λ e. e.cloud < length seats.old) erases.old }
    requires once { AllPairs (λ a b. a.cloud ≢ b.cloud) erases.old }
    ensures entries { erasures erases.new ≡ erasures erases.old }
    ensures answered { All (λ e. e.done ≢ Done.Waiting) erases.new }
    ensures told { C.tells → Leaves (erase_touches erases.new) (contents_at C.held (clouds_in seats.old)) (contents_at C.held (clouds_in seats.new)) }
    ensures failed { All (λ e. e.done ≡ Done.Failed → Rose (count_at C.slips (clouds_in seats.old) e.cloud) (count_at C.slips (clouds_in seats.new) e.cloud)) erases.new }
    ensures exact { C.counts_exactly → (c : ℕ) → All (λ e. e.cloud ≡ c → e.done ≢ Done.Failed) erases.new → count_at C.slips (clouds_in seats.new) c ≡ count_at C.slips (clouds_in seats.old) c }
    ensures sure { C.sure_deletes → All (λ e. e.done ≢ Done.Memory) erases.new }
    ensures grows { Grows (count_at C.slips (clouds_in seats.old)) (count_at C.slips (clouds_in seats.new)) }
    ensures faults { count_at C.faults (clouds_in seats.new) ≡ count_at C.faults (clouds_in seats.old) }
    ensures gets { count_at C.chunk_gets (clouds_in seats.new) ≡ count_at C.chunk_gets (clouds_in seats.old) }
{
    C::delete_all(rt, seats, erases);
    collect_erases(seats, erases);
}

/// The keys of all objects of one cloud.
pub(crate) fn list_at<C: Cloud>(seats: &mut [Seat<C>], cloud: usize) -> Result<KeyList, CloudError>
    requires { cloud < length seats.old }
    ensures told { C.tells → IfOk result (Lists (contents_at C.held (clouds_in seats.old) cloud)) }
    ensures sorted { IfOk result AreSorted }
    ensures failed { IsErrOf result Failed → Rose (count_at C.slips (clouds_in seats.old) cloud) (count_at C.slips (clouds_in seats.new) cloud) }
    ensures exact { C.counts_exactly → (c : ℕ) → (c ≡ cloud → IsErrOf result Failed → ⊥) → count_at C.slips (clouds_in seats.new) c ≡ count_at C.slips (clouds_in seats.old) c }
    ensures held { contents_at C.held (clouds_in seats.new) ≡ contents_at C.held (clouds_in seats.old) }
    ensures grows { Grows (count_at C.slips (clouds_in seats.old)) (count_at C.slips (clouds_in seats.new)) }
    ensures faults { count_at C.faults (clouds_in seats.new) ≡ count_at C.faults (clouds_in seats.old) }
    ensures gets { count_at C.chunk_gets (clouds_in seats.new) ≡ count_at C.chunk_gets (clouds_in seats.old) }
{
    seats[cloud].cloud.list()
}
