ghost use Rattle.std.specs.Prelude.{◌≤◌, ◌^◌, length};
ghost use Rattle.nc_words.specs.Acts.{FitsWidth, task_of};
ghost use Rattle.nc_words.specs.Settings.{IsSetting};
ghost use Rattle.nc_vault.specs.Acting.{Acted};

use crate::getting::get;
use crate::listing::list;
use crate::putting::put;
use crate::removing::remove;
use crate::reply::Reply;
use crate::scrubbing::scrub;
use crate::statting::stat;
use crate::sweeping::sweep;
use nc_cloud::Fleet;
use nc_words::{Act, Setting};
use std::alloc::Global;
use std::thread::Threads;

/// Does one act on a vault; the bytes are those that a put stores.
pub fn step<R: Threads + Sync, F: Fleet>(
    rt: &R,
    alloc: Global,
    fleet: &mut F,
    setting: &Setting,
    act: &Act,
    bytes: &[u8],
) -> Reply
    requires ready { F.ready }
    requires wide { 4 ≤ F.clouds fleet.old }
    requires narrow { F.clouds fleet.old ≤ 10 }
    requires setting { IsSetting setting.now }
    requires short { length bytes.now ≤ 2 ^ 26 }
    requires fits { FitsWidth (F.clouds fleet.old) act.now }
    ensures acted { Acted F.Fleet (task_of setting.now act.now bytes.now) fleet.old fleet.new result }
{
    match act {
        Act::Put(name) => put(rt, alloc, fleet, setting, name, bytes),
        Act::Get(name) => get(rt, alloc, fleet, setting, name),
        Act::Remove(name) => remove(alloc, fleet, name),
        Act::List => list(alloc, fleet),
        Act::Stat(name) => stat(alloc, fleet, name),
        Act::Repair(_) | Act::Restore { .. } | Act::Recover => sweep(
            rt, alloc, fleet, setting, act,
        ),
        Act::Scrub => scrub(alloc, fleet),
    }
}
