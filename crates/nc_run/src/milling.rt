//! A run that mills.
ghost use Rattle.std.specs.Prelude.{◌≡◌};
ghost use Rattle.nc_words.specs.Settings.{IsSetting};
ghost use Rattle.nc_words.specs.Texts.{mill_text};
ghost use Rattle.nc_run.specs.Ending.{CountsStream, IsEarly, IsPlain, IsRefused};
ghost use Rattle.nc_run.specs.Milling.{EndsTold, MillRuns};
ghost use Rattle.nc_run.specs.Sides.{IsWide};

use crate::ending::{Ending, plain};
use crate::status::Status;
use nc_mill::{MillFault, Milled, mill};
use nc_stream::Sink;
use nc_vault::Fault;
use nc_words::{Setting, say_mill};
use std::alloc::Global;
use std::thread::Threads;

/// Mills on so many clouds of its own, and prints the mill's line.
pub(crate) fn run_mill<R: Threads + Sync, K: Sink>(
    rt: &R,
    alloc: Global,
    setting: &Setting,
    width: u8,
    number: u64,
    out: &mut K,
) -> Ending
    requires width { IsWide width }
    requires setting { IsSetting setting.now }
    ensures begun { IsRefused result.status → ⊥ }
    ensures late { IsEarly result.status → ⊥ }
    ensures runs { MillRuns K.Sink width setting.now number out.old out.new result }
    ensures write { CountsStream Status.WriteFault K.counts_exactly
        (K.faults out.old) (K.faults out.new) result.status }
{
    match mill(rt, alloc, setting, width, number) {
        Ok(milled) => tell_mill(width, number, &milled, out),
        Err(MillFault::Spent(tried)) => plain(Status::Vault(Fault::Spent(tried))),
        Err(MillFault::Memory) => plain(Status::Vault(Fault::Memory)),
    }
}

/// Prints a mill's line.
fn tell_mill<K: Sink>(width: u8, number: u64, milled: &Milled, out: &mut K) -> Ending
    ensures told { EndsTold K.Sink
        (mill_text number width milled.now.lost milled.now.fetched milled.now.digest)
        out.old out.new result.status }
    ensures plain { IsPlain result }
    ensures write { CountsStream Status.WriteFault K.counts_exactly
        (K.faults out.old) (K.faults out.new) result.status }
{
    let lost = milled.lost;
    match say_mill(out, number, width, lost, milled.fetched, &milled.digest) {
        Ok(()) => plain(Status::Ok),
        Err(_) => plain(Status::WriteFault),
    }
}
