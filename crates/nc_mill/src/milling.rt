//! A mill, act by act.
ghost use Rattle.std.specs.Prelude.{◌≡◌, ◌≤◌, ◌+◌, OnOk, IfOk, IfErr};
ghost use Rattle.nc_cloud.specs.Contents.{nothing};
ghost use Rattle.nc_name.specs.Names.{IsName};
ghost use Rattle.nc_state.specs.Clouds.{no_cloud, with_cloud};
ghost use Rattle.nc_words.specs.Settings.{IsSetting};
ghost use Rattle.nc_mill.specs.Ends.{IsRun, RefusesRun};
ghost use Rattle.nc_mill.specs.Mills.{IsMilled, RefusesMill, mill_name};
ghost use Rattle.nc_mill.specs.Stages.{FitsMill, KeepsFile, StoresFile};
ghost use Rattle.nc_mill.specs.Sures.{count_in, held_by};

use crate::answers::{given, repaired, unstored};
use crate::file::mill_file;
use crate::job::Job;
use crate::milled::{MillFault, Milled};
use crate::sure::Sure;
use nc_name::{Blob, Name};
use nc_vault::step;
use nc_words::{Act, Setting};
use sha2::{Digest, Sha256};
use std::alloc::Global;
use std::thread::Threads;

/// Makes so many clouds in memory and a file of 8 MiB, puts it, loses a cloud, gets the file, repairs the cloud and gets the
/// file again. The number decides the file's bytes and which cloud is lost.
pub fn mill<R: Threads + Sync>(
    rt: &R,
    alloc: Global,
    setting: &Setting,
    width: u8,
    number: u64,
) -> Result<Milled, MillFault>
    requires wide { (4 ≤ width) × (width ≤ 10) }
    requires setting { IsSetting setting.now }
    ensures milled { IfOk result (IsMilled width number) }
    ensures refused { IfErr result (RefusesMill width setting.now number) }
{
    let Ok(file) = mill_file(alloc, number) else {
        return Err(MillFault::Memory);
    };
    let Ok(mut clouds) = Sure::new(alloc, width) else {
        return Err(MillFault::Memory);
    };
    let job = Job {
        setting: *setting,
        width,
        lost: (number % u64::from(width)) as u8,
        name: mill_name(),
        file,
    };
    run(rt, alloc, &mut clouds, &job)
}

/// The name of the file.
fn mill_name() -> Name
    ensures same { result ≡ mill_name }
    ensures name { IsName mill_name }
{
    match Name::read("mill") {
        Ok(name) => name,
        Err(_) => unreachable!(),
    }
}

/// Does the acts of a mill on clouds without objects.
fn run<R: Threads + Sync>(
    rt: &R,
    alloc: Global,
    clouds: &mut Sure,
    job: &Job,
) -> Result<Milled, MillFault>
    requires fits { FitsMill job.now }
    requires width { count_in clouds.old ≡ job.now.width }
    requires empty { held_by clouds.old ≡ nothing }
    ensures milled { IfOk result (IsRun job.now) }
    ensures refused { IfErr result (RefusesRun job.now) }
{
    put_file(rt, alloc, clouds, job)?;
    lose_cloud(alloc, clouds, job)?;
    let _whole = get_file(rt, alloc, clouds, job)?;
    let fetched = repair_cloud(rt, alloc, clouds, job)?;
    let file = get_file(rt, alloc, clouds, job)?;
    Ok(Milled {
        lost: job.lost,
        fetched,
        digest: Sha256::digest(file.bytes()),
    })
}

/// Stores the file on clouds without objects.
fn put_file<R: Threads + Sync>(
    rt: &R,
    alloc: Global,
    clouds: &mut Sure,
    job: &Job,
) -> Result<(), MillFault>
    requires fits { FitsMill job.now }
    requires width { count_in clouds.old ≡ job.now.width }
    requires empty { held_by clouds.old ≡ nothing }
    ensures width { count_in clouds.new ≡ job.now.width }
    ensures stored { OnOk result (StoresFile job.now no_cloud (held_by clouds.new)) }
    ensures refused { IfErr result (RefusesRun job.now) }
{
    let act = Act::Put(job.name);
    let reply = step(rt, alloc, clouds, &job.setting, &act, job.file.bytes());
    match unstored(&reply) {
        None => Ok(()),
        Some(fault) => Err(fault),
    }
}

/// Takes all objects of the cloud that is lost.
fn lose_cloud(alloc: Global, clouds: &mut Sure, job: &Job) -> Result<(), MillFault>
    requires fits { FitsMill job.now }
    requires width { count_in clouds.old ≡ job.now.width }
    requires stores { StoresFile job.now no_cloud (held_by clouds.old) }
    ensures width { count_in clouds.new ≡ job.now.width }
    ensures stores { OnOk result
        (StoresFile job.now (with_cloud no_cloud job.now.lost) (held_by clouds.new)) }
    ensures refused { IfErr result (RefusesRun job.now) }
{
    match clouds.empty(alloc, job.lost) {
        Ok(()) => Ok(()),
        Err(_) => Err(MillFault::Memory),
    }
}

/// Gets the file, on clouds that keep it.
fn get_file<R: Threads + Sync>(
    rt: &R,
    alloc: Global,
    clouds: &mut Sure,
    job: &Job,
) -> Result<Blob, MillFault>
    requires fits { FitsMill job.now }
    requires width { count_in clouds.old ≡ job.now.width }
    requires keeps { KeepsFile job.now (held_by clouds.old) }
    ensures width { count_in clouds.new ≡ job.now.width }
    ensures held { held_by clouds.new ≡ held_by clouds.old }
    ensures got { IfOk result (λ bytes. bytes ≡ job.now.file) }
    ensures refused { IfErr result (RefusesRun job.now) }
{
    let act = Act::Get(job.name);
    let reply = step(rt, alloc, clouds, &job.setting, &act, &[]);
    match given(reply) {
        Ok(bytes) => Ok(bytes),
        Err(fault) => Err(fault),
    }
}

/// Makes the lost cloud whole again, and tells how many chunks that took: of each file one of each other cloud.
fn repair_cloud<R: Threads + Sync>(
    rt: &R,
    alloc: Global,
    clouds: &mut Sure,
    job: &Job,
) -> Result<u64, MillFault>
    requires fits { FitsMill job.now }
    requires width { count_in clouds.old ≡ job.now.width }
    requires stores { StoresFile job.now (with_cloud no_cloud job.now.lost) (held_by clouds.old) }
    ensures width { count_in clouds.new ≡ job.now.width }
    ensures keeps { OnOk result (KeepsFile job.now (held_by clouds.new)) }
    ensures fetched { IfOk result (λ fetched. fetched + 1 ≡ job.now.width) }
    ensures refused { IfErr result (RefusesRun job.now) }
{
    let act = Act::Repair(job.lost);
    let reply = step(rt, alloc, clouds, &job.setting, &act, &[]);
    match repaired(&reply) {
        Ok(files) => Ok(files * u64::from(job.width - 1)),
        Err(fault) => Err(fault),
    }
}
