//! `get` of a file.
ghost use Rattle.std.specs.Prelude.{◌≤◌, ℕ, List};
ghost use Rattle.nc_words.specs.declared.act.Act.TheVariants as act;
ghost use Rattle.nc_words.specs.Acts.{task_of};
ghost use Rattle.nc_words.specs.Settings.{IsSetting};
ghost use Rattle.nc_vault.specs.Acting.{Acted};

use crate::fault::Fault;
use crate::reply::Reply;
use nc_cloud::Fleet;
use nc_fetch::fetch;
use nc_name::Name;
use nc_words::Setting;
use std::alloc::Global;
use std::thread::Threads;

/// Gives the file of this name. It changes nothing, and goes on while at most two clouds are damaged or fail.
pub(crate) fn get<R: Threads + Sync, F: Fleet>(
    rt: &R,
    alloc: Global,
    fleet: &mut F,
    setting: &Setting,
    name: &Name,
) -> Reply
    requires ready { F.ready }
    requires wide { 4 ≤ F.clouds fleet.old }
    requires narrow { F.clouds fleet.old ≤ 10 }
    requires setting { IsSetting setting.now }
    ensures acted { (bytes : List ℕ) → Acted F.Fleet (task_of setting.now (act.Get name.now) bytes) fleet.old fleet.new result }
{
    match fetch(rt, alloc, fleet, name, setting.workers) {
        Ok(file) => Reply::Bytes(file),
        Err(fault) => Reply::Stopped {
            fault: Fault::from(fault),
            after: None,
        },
    }
}
