//! A program that times what the vaults compute: `nc_bench WORDS` does the same work a number of
//! times and prints the least time of a turn in microseconds. The answers are compared with what
//! they must be.
#![tactic(auto)]

mod fault;
mod kernel;
mod mixing;
mod pattern;
mod words;

use crate::fault::Fault;
use crate::kernel::time_kernel;
use crate::mixing::time_mixing;
use crate::words::{Job, job_of};
use std::alloc::Global;
use std::process::ExitCode;
use std::rt::{Clock, Env};
use std::thread::Threads;
use std::time::Duration;
use std::{env, io};

fn main(rt: HostRuntime) -> io::Result<ExitCode> {
    match timed(&rt, rt.alloc(), command_line(&rt)) {
        Ok(least) => {
            println!(rt; "{}", least.as_micros())?;
            Ok(ExitCode::SUCCESS)
        }
        Err(Fault::Usage) => {
            println!(rt; "{}", Fault::Usage)?;
            Ok(ExitCode::from(2))
        }
        Err(fault) => {
            eprintln!(rt; "{fault}")?;
            Ok(ExitCode::from(1))
        }
    }
}

/// The words of the command line, the program's name first.
fn command_line<R: Env + AllocGlobal>(rt: &R) -> Result<Vec<String>, Fault> {
    let line = env::args(rt)?.collect(rt.alloc())?;
    Ok(line)
}

/// The least time of a turn of what the words ask for.
fn timed<R: Clock + Threads + Sync>(
    rt: &R,
    alloc: Global,
    line: Result<Vec<String>, Fault>,
) -> Result<Duration, Fault> {
    match job_of(alloc, line?.as_slice())? {
        Job::Kernel(kernel) => time_kernel(rt, alloc, &kernel),
        Job::Encode(mixing) => Ok(time_mixing(rt, alloc, &mixing)?.encode),
        Job::Decode(mixing) => Ok(time_mixing(rt, alloc, &mixing)?.decode),
    }
}
