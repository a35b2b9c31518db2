//! Frames that were laid out get their digests, which takes no memory.
ghost use Rattle.std.specs.Prelude.{◌≡◌, ◌≤◌, All, length};
ghost use Rattle.std.specs.Thread.{IsSync};
ghost use Rattle.nc_write.specs.Laying.{AreFinished, FinishesJob, FinishesRows};

use crate::sealing::RowWrites;
use nc_cloud::Job;
use nc_frame::finish;
use nc_name::Blob;
use std::alloc::Global;
use std::thread::Threads;
use std::{mem, thread};

/// Finishes the frames of both rows, up to so many at the same time, where threads can be begun.
pub(crate) fn finish_rows<R: Threads + Sync>(
    rt: &R,
    alloc: Global,
    rows: RowWrites,
    workers: u8,
) -> RowWrites
    requires zeros { All (λ j. 32 ≤ length j.bytes) rows.first.items }
    requires ones { All (λ j. 32 ≤ length j.bytes) rows.second.items }
    requires some_workers { 1 ≤ workers }
    ensures { FinishesRows rows result }
{
    let RowWrites {
        mut first,
        mut second,
    } = rows;
    if workers < 2 {
        finish_row(rt, alloc, &mut first, 1);
        finish_row(rt, alloc, &mut second, 1);
        return RowWrites { first, second };
    }
    let half = workers / 2;
    thread::join_mut(
        rt,
        &mut ||
            requires sync { IsSync R.row }
            requires some_workers { 1 ≤ half }
            requires long { All (λ j. 32 ≤ length j.bytes) first.items }
            ensures { AreFinished first.entry.items first.exit.items }
        { finish_row(rt, alloc, &mut first, half) },
        &mut ||
            requires sync { IsSync R.row }
            requires some_workers { 1 ≤ half }
            requires long { All (λ j. 32 ≤ length j.bytes) second.items }
            ensures { AreFinished second.entry.items second.exit.items }
        { finish_row(rt, alloc, &mut second, half) },
    );
    RowWrites { first, second }
}

/// Finishes the frames of a row, up to so many at the same time, where threads can be begun.
pub(crate) fn finish_row<R: Threads + Sync>(rt: &R, alloc: Global, jobs: &mut Vec<Job>, workers: u8)
    requires long { All (λ j. 32 ≤ length j.bytes) jobs.old.items }
    requires some_workers { 1 ≤ workers }
    ensures { AreFinished jobs.old.items jobs.new.items }
{
    finish_all(rt, alloc, jobs, workers);
}

fn finish_all<R: Threads + Sync>(rt: &R, alloc: Global, jobs: &mut [Job], workers: u8)
    requires long { All (λ j. 32 ≤ length j.bytes) jobs.old }
    requires some_workers { 1 ≤ workers }
    ensures { AreFinished jobs.old jobs.new }
{
    thread::for_each_mut(
        rt,
        jobs,
        usize::from(workers),
        &|_, job| finish_job(alloc, job),
    );
}

/// Finishes the frame of an entry.
fn finish_job(alloc: Global, job: &mut Job)
    requires { 32 ≤ length job.old.bytes }
    ensures { FinishesJob job.old job.new }
{
    let frame = mem::replace(&mut job.bytes, Blob::from_vec(Vec::new(alloc)));
    job.bytes = finish(frame);
}
