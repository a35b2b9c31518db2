ghost use Rattle.std.specs.Prelude.{◌≡◌, ◌<◌, ◌≤◌, ◌++◌, ◌∷◌, [], All, IfOk, OnOk, option_to_list};
ghost use Rattle.nc_frame.specs.Frames.{Whole};
ghost use Rattle.nc_meta.specs.Metas.{IsMeta, Spells};
ghost use Rattle.nc_cloud.specs.Fleet.{write, writes};
ghost use Rattle.nc_cloud.specs.Rounds.{some_row};
ghost use Rattle.nc_state.specs.Holding.{meta_key};
ghost use Rattle.nc_settle.specs.MetaWrites.{meta_write, meta_write_on, named};

use nc_cloud::{Done, Job};
use nc_frame::seal;
use nc_meta::Meta;
use nc_name::{Blob, Key, Memory, Name};
use nc_state::slot_of;
use std::alloc::Global;

/// The writes of this metadata on the clouds that `on` names, in ascending order.
pub fn meta_jobs(
    alloc: Global,
    width: u8,
    name: &Name,
    meta: &Meta,
    on: &[bool; 10],
) -> Result<Vec<Job>, Memory>
    requires wide { 4 ≤ width }
    requires narrow { width ≤ 10 }
    requires fits { IsMeta width meta.now }
    ensures writes { IfOk result (λ jobs. writes jobs.items ≡ some_row (meta_write_on width name.now meta.now (named on.now)) 0 width) }
    ensures whole { IfOk result (λ jobs. All (λ j. Whole j.bytes) jobs.items) }
{
    let payload = meta.write(alloc, width)?;
    let mut jobs = Vec::new(alloc);
    for cloud in 0..width {
        push_named(&mut jobs, alloc, cloud, width, name, meta, &payload, on)?;
    }
    Ok(jobs)
}

/// Adds the write of this metadata on a cloud, where `on` names it.
fn push_named(
    jobs: &mut Vec<Job>,
    alloc: Global,
    cloud: u8,
    width: u8,
    name: &Name,
    meta: &Meta,
    payload: &Blob,
    on: &[bool; 10],
) -> Result<(), Memory>
    requires narrow { width ≤ 10 }
    requires cloud { cloud < width }
    requires spells { Spells width payload.now meta.now }
    requires whole { All (λ j. Whole j.bytes) jobs.old.items }
    ensures writes { OnOk result (writes jobs.new.items ≡ writes jobs.old.items ++ option_to_list (meta_write_on width name.now meta.now (named on.now) cloud)) }
    ensures whole { OnOk result (All (λ j. Whole j.bytes) jobs.new.items) }
{
    if !on[cloud as usize] {
        return Ok(());
    }
    let job = meta_job(alloc, cloud, width, name, meta, payload)?;
    push_job(jobs, job)?;
    Ok(())
}

/// The write of this metadata on a cloud.
fn meta_job(
    alloc: Global,
    cloud: u8,
    width: u8,
    name: &Name,
    meta: &Meta,
    payload: &Blob,
) -> Result<Job, Memory>
    requires spells { Spells width payload.now meta.now }
    ensures write { IfOk result (λ job. write job ≡ meta_write width name.now meta.now cloud) }
    ensures whole { IfOk result (λ job. Whole job.bytes) }
{
    let key = meta_key(name, meta);
    let bytes = seal(alloc, cloud, width, &key, payload.bytes())?;
    Ok(Job {
        cloud,
        key,
        bytes,
        done: Done::Waiting,
    })
}

/// Where this metadata stands: the slot follows from its generation.
fn meta_key(name: &Name, meta: &Meta) -> Key
    ensures { result ≡ meta_key name.now meta.now }
{
    Key::Meta {
        name: *name,
        slot: slot_of(meta.generation()),
    }
}

/// Adds a write to those of a round.
pub fn push_job(jobs: &mut Vec<Job>, job: Job) -> Result<(), Memory>
    ensures { OnOk result (jobs.new.items ≡ jobs.old.items ++ job ∷ []) }
{
    match jobs.push(job) {
        Ok(()) => Ok(()),
        Err(_) => Err(Memory),
    }
}
