//! `put` of a file.
ghost use Rattle.std.specs.Prelude.{◌≡◌, ◌≤◌, ◌^◌, length};
ghost use Rattle.nc_name.specs.Names.{IsName};
ghost use Rattle.nc_words.specs.declared.act.Act.TheVariants as act;
ghost use Rattle.nc_words.specs.Acts.{task_of};
ghost use Rattle.nc_words.specs.Settings.{IsSetting};
ghost use Rattle.nc_vault.specs.Acting.{put_reply, Acted};

use crate::coming::come;
use crate::drawing::draw;
use crate::fault::Fault;
use crate::finishing::finish;
use crate::reply::Reply;
use nc_cloud::Fleet;
use nc_name::Name;
use nc_words::Setting;
use std::alloc::Global;
use std::thread::Threads;

/// Stores this file under the name, as the generation after the one that the name is settled on, and deletes what no longer counts of
/// the name. Before the file's first chunk is written, the name is settled, its code is drawn, and all memory of the writes is taken.
pub fn put<R: Threads + Sync, F: Fleet>(
    rt: &R,
    alloc: Global,
    fleet: &mut F,
    setting: &Setting,
    name: &Name,
    bytes: &[u8],
) -> Reply
    requires ready { F.ready }
    requires wide { 4 ≤ F.clouds fleet.old }
    requires narrow { F.clouds fleet.old ≤ 10 }
    requires setting { IsSetting setting.now }
    requires short { length bytes.now ≤ 2 ^ 26 }
    ensures acted { Acted F.Fleet (task_of setting.now (act.Put name.now) bytes.now) fleet.old fleet.new result }
{
    match store(rt, alloc, fleet, setting, name, bytes) {
        Ok(generation) => Reply::Stored { generation },
        Err(fault) => Reply::Stopped { fault, after: None },
    }
}

fn store<R: Threads + Sync, F: Fleet>(
    rt: &R,
    alloc: Global,
    fleet: &mut F,
    setting: &Setting,
    name: &Name,
    bytes: &[u8],
) -> Result<u64, Fault>
    requires ready { F.ready }
    requires wide { 4 ≤ F.clouds fleet.old }
    requires narrow { F.clouds fleet.old ≤ 10 }
    requires setting { IsSetting setting.now }
    requires short { length bytes.now ≤ 2 ^ 26 }
    ensures acted { Acted F.Fleet (task_of setting.now (act.Put name.now) bytes.now) fleet.old fleet.new (put_reply result) }
{
    told_name(name);
    let before = match come(alloc, fleet, name) {
        Ok(before) => before,
        Err(fault) => return Err(Fault::from(fault)),
    };
    let good = match draw(setting, name, &before, fleet.width() as u8) {
        Ok(good) => good,
        Err(fault) => return Err(fault),
    };
    let after = match nc_write::put(
        rt,
        alloc,
        fleet,
        name,
        &before,
        &good,
        bytes,
        setting.workers,
    ) {
        Ok(after) => after,
        Err(fault) => return Err(Fault::from(fault)),
    };
    match finish(alloc, fleet, name, &after) {
        Ok(()) => Ok(after.generation()),
        Err(_) => Err(Fault::Memory),
    }
}

/// Tells what the type of names keeps.
pub fn told_name(name: &Name)
    ensures { IsName name.now }
{
    let _bytes = name.bytes();
}
