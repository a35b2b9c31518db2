//! The restoring of one name.
ghost use Rattle.std.specs.Prelude.{◌≤◌, ℕ, IfErr, IfOk, List, Option};
ghost use Rattle.nc_meta.specs.Metas.{IsLive};
ghost use Rattle.nc_words.specs.declared.act.Act.TheVariants as act;
ghost use Rattle.nc_words.specs.Acts.{FitsWidth, heals, task_of};
ghost use Rattle.nc_words.specs.Settings.{IsSetting};
ghost use Rattle.nc_vault.specs.Parts.{PartDone, PartStopped};
ghost use Rattle.nc_vault.specs.Restoring.{IsFileRestored, IsFileUnrestored};

use crate::coming::{come, file_of};
use crate::fault::Fault;
use crate::putting::told_name;
use nc_cloud::Fleet;
use nc_meta::Live;
use nc_name::Name;
use nc_restore::{RestoreFault, restore_one};
use nc_words::Setting;
use std::alloc::Global;
use std::thread::Threads;

/// Brings a name to rest, and makes the chunks of its file right on one cloud or two, if it has a file. It tells how many chunks it
/// wrote: four at most. It deletes nothing.
pub(crate) fn restore_name<R: Threads + Sync, F: Fleet>(
    rt: &R,
    alloc: Global,
    fleet: &mut F,
    setting: &Setting,
    name: &Name,
    first: u8,
    second: Option<u8>,
) -> Result<u64, Fault>
    requires ready { F.ready }
    requires wide { 4 ≤ F.clouds fleet.old }
    requires narrow { F.clouds fleet.old ≤ 10 }
    requires setting { IsSetting setting.now }
    requires fits { FitsWidth (F.clouds fleet.old) (act.Restore first second) }
    ensures done { (bytes : List ℕ)
        → IfOk result
        (λ objects. PartDone F.Fleet (task_of setting.now (act.Restore first second) bytes) name.now
        objects fleet.old fleet.new) }
    ensures stopped { (bytes : List ℕ)
        → IfErr result
        (λ cause. PartStopped F.Fleet (task_of setting.now (act.Restore first second) bytes) name.now
        cause fleet.old fleet.new) }
{
    told_name(name);
    let top = match come(alloc, fleet, name) {
        Ok(top) => top,
        Err(fault) => return Err(Fault::from(fault)),
    };
    let Some(live) = file_of(&top) else {
        return Ok(0);
    };
    match restore_file(rt, alloc, fleet, setting, name, &live, first, second) {
        Ok(objects) => Ok(objects),
        Err(fault) => Err(Fault::from(fault)),
    }
}

/// Makes the chunks of the file that the name is settled on right on one cloud or two.
fn restore_file<R: Threads + Sync, F: Fleet>(
    rt: &R,
    alloc: Global,
    fleet: &mut F,
    setting: &Setting,
    name: &Name,
    live: &Live,
    first: u8,
    second: Option<u8>,
) -> Result<u64, RestoreFault>
    requires ready { F.ready }
    requires wide { 4 ≤ F.clouds fleet.old }
    requires narrow { F.clouds fleet.old ≤ 10 }
    requires setting { IsSetting setting.now }
    requires live { IsLive (F.clouds fleet.old) live.now }
    requires fits { FitsWidth (F.clouds fleet.old) (act.Restore first second) }
    ensures restored { IfOk result
        (IsFileRestored F.Fleet (F.clouds fleet.old) name.now live.now
        (heals (act.Restore first second)) fleet.old fleet.new) }
    ensures unrestored { IfErr result
        (IsFileUnrestored F.Fleet (F.clouds fleet.old) name.now live.now
        (heals (act.Restore first second)) fleet.old fleet.new) }
{
    match restore_one(rt, alloc, fleet, name, live, first, second, setting.workers) {
        Ok(count) => Ok(count),
        Err(fault) => Err(fault),
    }
}
