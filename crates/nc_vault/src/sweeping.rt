//! The acts on all names: `recover`, `repair` and `restore`.
ghost use Rattle.std.specs.Prelude.{◌≡◌, ◌≤◌, ℕ, IfErr, IfOk, List, OnOk, Some, true};
ghost use Rattle.nc_words.specs.Acts.{FitsWidth, sweeps, task_of};
ghost use Rattle.nc_words.specs.Settings.{IsSetting};
ghost use Rattle.nc_vault.specs.Acting.{Acted};
ghost use Rattle.nc_vault.specs.Faults.{fault_of_round};
ghost use Rattle.nc_vault.specs.Parts.{PartDone, PartStopped};
ghost use Rattle.nc_vault.specs.Sweeping.{PartReads, sweep_reply};

use crate::fault::Fault;
use crate::recovering::recover_name;
use crate::repairing::repair_name;
use crate::reply::Reply;
use crate::restoring::restore_name;
use nc_cloud::{Fleet, RoundFault};
use nc_name::Name;
use nc_names::all_names;
use nc_words::{Act, Setting};
use std::alloc::Global;
use std::thread::Threads;

/// Does an act on all names, name by name, in their order. A failed list of a cloud ends it before the first name; then the first
/// name that it can't be done with does, and the names before it stay done.
pub(crate) fn sweep<R: Threads + Sync, F: Fleet>(
    rt: &R,
    alloc: Global,
    fleet: &mut F,
    setting: &Setting,
    act: &Act,
) -> Reply
    requires ready { F.ready }
    requires wide { 4 ≤ F.clouds fleet.old }
    requires narrow { F.clouds fleet.old ≤ 10 }
    requires setting { IsSetting setting.now }
    requires sweeps { sweeps act.now ≡ true }
    requires fits { FitsWidth (F.clouds fleet.old) act.now }
    ensures acted { (bytes : List ℕ) → Acted F.Fleet (task_of setting.now act.now bytes) fleet.old fleet.new result }
{
    let names = match all_names(alloc, fleet) {
        Ok(names) => names,
        Err(fault) => return stopped(list_fault(fault), 0),
    };
    let mut count = 0;
    for done in 0..names.len() {
        match sweep_name(rt, alloc, fleet, setting, act, &names[done]) {
            Ok(more) => count += more,
            Err(fault) => return stopped(fault, done),
        }
    }
    done_with(act, names.len() as u64, count)
}

/// The part of the act on one name. It tells what it counts: of a repair the files, of a restore the chunks that it wrote.
fn sweep_name<R: Threads + Sync, F: Fleet>(
    rt: &R,
    alloc: Global,
    fleet: &mut F,
    setting: &Setting,
    act: &Act,
    name: &Name,
) -> Result<u64, Fault>
    requires ready { F.ready }
    requires wide { 4 ≤ F.clouds fleet.old }
    requires narrow { F.clouds fleet.old ≤ 10 }
    requires setting { IsSetting setting.now }
    requires sweeps { sweeps act.now ≡ true }
    requires fits { FitsWidth (F.clouds fleet.old) act.now }
    ensures done { (bytes : List ℕ) → IfOk result (λ files.
        PartDone F.Fleet (task_of setting.now act.now bytes) name.now files fleet.old fleet.new) }
    ensures stopped { (bytes : List ℕ) → IfErr result (λ cause.
        PartStopped F.Fleet (task_of setting.now act.now bytes) name.now cause fleet.old fleet.new) }
    ensures reads { OnOk result (PartReads F.Fleet act.now fleet.old fleet.new) }
{
    match act {
        Act::Repair(lost) => repair_name(rt, alloc, fleet, setting, name, *lost),
        Act::Recover => recover_name(alloc, fleet, name),
        Act::Restore { first, second } => restore_name(
            rt, alloc, fleet, setting, name, *first, *second,
        ),
        _ => unreachable!(),
    }
}

/// How the act is answered that is done with so many names, and counted so much.
fn done_with(act: &Act, names: u64, count: u64) -> Reply
    ensures { result ≡ sweep_reply act.now names count }
{
    match act {
        Act::Repair(_) => Reply::Repaired { files: count },
        Act::Restore { .. } => Reply::Restored { objects: count },
        _ => Reply::Settled { names },
    }
}

/// What a failed round of lists is told as.
pub(crate) fn list_fault(fault: RoundFault) -> Fault
    ensures { result ≡ fault_of_round fault }
{
    match fault {
        RoundFault::Cloud(cloud) => Fault::Cloud(cloud),
        RoundFault::Memory => Fault::Memory,
    }
}

/// The act was stopped once so many names were done.
pub(crate) fn stopped(fault: Fault, done: usize) -> Reply
    ensures { result ≡ Reply.Stopped fault (Some done) }
{
    Reply::Stopped {
        fault,
        after: Some(done as u64),
    }
}
