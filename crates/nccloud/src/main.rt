//! The program: `nccloud CLOUDS WORDS` does what the words ask for on clouds that are folders, as `put NAME` and `get NAME`, and
//! tells a fault by a line on standard error.
#![tactic(auto)]

mod edges;
#[cfg(test)]
mod edges_tests;

use crate::edges::{after_first, ending, folders};
use nc_cloud::Fanned;
use nc_run::{Status, run, tell_early};
use nc_stream::{StdSink, StdSource};
use nc_vault::Fault;
use std::env;
use std::io::ErrorKind;
use std::process::ExitCode;
use std::rt::Env;

fn main(rt: HostRuntime) -> ExitCode {
    let alloc = rt.alloc();
    let mut err = StdSink::new(rt.stderr());
    let line = match command_line(&rt) {
        Ok(line) => line,
        Err(status) => return ending(&tell_early(&mut err, status)),
    };
    let words = after_first(line.as_slice());
    let clouds = match folders(rt, words) {
        Ok(clouds) => clouds,
        Err(_) => return ending(&tell_early(&mut err, Status::Vault(Fault::Memory))),
    };
    let mut fleet = match Fanned::new(rt, alloc, clouds) {
        Ok(fleet) => fleet,
        Err(_) => return ending(&tell_early(&mut err, Status::Vault(Fault::Memory))),
    };
    let mut source = StdSource::new(rt.stdin());
    let mut out = StdSink::new(rt.stdout());
    let status = run(
        &rt,
        alloc,
        after_first(words),
        &mut fleet,
        &mut source,
        &mut out,
        &mut err,
    );
    ending(&status)
}

/// The words of the command line, the program's name first. Words that aren't UTF-8 are no command.
fn command_line<R: Env + AllocGlobal>(rt: &R) -> Result<Vec<String>, Status> {
    match env::args(rt) {
        Ok(words) => match words.collect(rt.alloc()) {
            Ok(words) => Ok(words),
            Err(_) => Err(Status::Vault(Fault::Memory)),
        },
        Err(e) => {
            if e.kind() == ErrorKind::OutOfMemory {
                Err(Status::Vault(Fault::Memory))
            } else {
                Err(Status::Usage)
            }
        }
    }
}
