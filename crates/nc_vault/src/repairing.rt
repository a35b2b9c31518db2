//! The repair of one name.
ghost use Rattle.std.specs.Prelude.{◌≡◌, ◌<◌, ◌≤◌, ℕ, IfErr, IfNone, IfOk, IfSome, List, Some};
ghost use Rattle.nc_meta.specs.Metas.{IsLive};
ghost use Rattle.nc_words.specs.declared.act.Act.TheVariants as act;
ghost use Rattle.nc_words.specs.Acts.{task_of};
ghost use Rattle.nc_words.specs.Settings.{IsSetting};
ghost use Rattle.nc_vault.specs.Parts.{PartDone, PartStopped};
ghost use Rattle.nc_vault.specs.Repairing.{IsFileMended, IsFileUnmended};

use crate::coming::{come, file_of};
use crate::drawing::draw_repair;
use crate::fault::Fault;
use crate::finishing::finish;
use crate::putting::told_name;
use nc_cloud::Fleet;
use nc_meta::Live;
use nc_name::Name;
use nc_repair::repair_one;
use nc_settle::Settled;
use nc_words::Setting;
use std::alloc::Global;
use std::thread::Threads;

/// Brings a name to rest, makes the lost cloud's chunks of its file anew, if it has one, and deletes what no longer counts of the
/// name. It tells how many files it repaired: one or none.
pub(crate) fn repair_name<R: Threads + Sync, F: Fleet>(
    rt: &R,
    alloc: Global,
    fleet: &mut F,
    setting: &Setting,
    name: &Name,
    lost: u8,
) -> Result<u64, Fault>
    requires ready { F.ready }
    requires wide { 4 ≤ F.clouds fleet.old }
    requires narrow { F.clouds fleet.old ≤ 10 }
    requires setting { IsSetting setting.now }
    requires lost { lost < F.clouds fleet.old }
    ensures done { (bytes : List ℕ)
        → IfOk result
        (λ files. PartDone F.Fleet (task_of setting.now (act.Repair lost) bytes) name.now files
        fleet.old fleet.new) }
    ensures stopped { (bytes : List ℕ)
        → IfErr result
        (λ cause. PartStopped F.Fleet (task_of setting.now (act.Repair lost) bytes) name.now cause
        fleet.old fleet.new) }
{
    told_name(name);
    let top = match come(alloc, fleet, name) {
        Ok(top) => top,
        Err(fault) => return Err(Fault::from(fault)),
    };
    let Some(old) = file_of(&top) else {
        return match finish(alloc, fleet, name, &top) {
            Ok(()) => Ok(0),
            Err(_) => Err(Fault::Memory),
        };
    };
    let after = match mend_file(rt, alloc, fleet, setting, name, &old, lost) {
        Ok(after) => after,
        Err(fault) => return Err(fault),
    };
    match finish(alloc, fleet, name, &after) {
        Ok(()) => Ok(1),
        Err(_) => Err(Fault::Memory),
    }
}

/// Draws a code for the version after the file that the name is settled on, and repairs the lost cloud by it. It gives what the
/// name is settled on then.
fn mend_file<R: Threads + Sync, F: Fleet>(
    rt: &R,
    alloc: Global,
    fleet: &mut F,
    setting: &Setting,
    name: &Name,
    old: &Live,
    lost: u8,
) -> Result<Settled, Fault>
    requires ready { F.ready }
    requires wide { 4 ≤ F.clouds fleet.old }
    requires narrow { F.clouds fleet.old ≤ 10 }
    requires setting { IsSetting setting.now }
    requires live { IsLive (F.clouds fleet.old) old.now }
    requires lost { lost < F.clouds fleet.old }
    ensures mended { IfOk result
        (λ after. IsFileMended F.Fleet (F.clouds fleet.old) setting.now lost name.now old.now
        fleet.old fleet.new after.top) }
    ensures unmended { IfErr result
        (IsFileUnmended F.Fleet (F.clouds fleet.old) setting.now lost name.now old.now
        fleet.old fleet.new) }
{
    let (plan, good) = match draw_repair(setting, name, old, lost) {
        Ok(drawn) => drawn,
        Err(fault) => return Err(fault),
    };
    plan.told_plan();
    match repair_one(
        rt,
        alloc,
        fleet,
        name,
        old,
        lost,
        &plan,
        &good,
        setting.workers,
    ) {
        Ok(after) => Ok(after),
        Err(fault) => Err(Fault::from(fault)),
    }
}
