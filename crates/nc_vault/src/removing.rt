//! `rm` of a file.
ghost use Rattle.std.specs.Prelude.{◌≤◌, ℕ, List};
ghost use Rattle.nc_words.specs.declared.act.Act.TheVariants as act;
ghost use Rattle.nc_words.specs.declared.setting.Setting.{Setting};
ghost use Rattle.nc_words.specs.Acts.{task_of};
ghost use Rattle.nc_vault.specs.Acting.{remove_reply, Acted};

use crate::coming::come;
use crate::fault::Fault;
use crate::finishing::finish;
use crate::putting::told_name;
use crate::reply::Reply;
use nc_cloud::Fleet;
use nc_name::Name;
use std::alloc::Global;

/// Removes the file of this name, where there is one: all clouds come to hold metadata that says so, of the next generation, and then
/// what no longer counts of the name is deleted, its chunks too.
pub fn remove<F: Fleet>(alloc: Global, fleet: &mut F, name: &Name) -> Reply
    requires ready { F.ready }
    requires wide { 4 ≤ F.clouds fleet.old }
    requires narrow { F.clouds fleet.old ≤ 10 }
    ensures acted { (s : Setting) (v : List ℕ) → Acted F.Fleet (task_of s (act.Remove name.now) v) fleet.old fleet.new result }
{
    match take_away(alloc, fleet, name) {
        Ok(generation) => Reply::Removed { generation },
        Err(fault) => Reply::Stopped { fault, after: None },
    }
}

fn take_away<F: Fleet>(alloc: Global, fleet: &mut F, name: &Name) -> Result<u64, Fault>
    requires ready { F.ready }
    requires wide { 4 ≤ F.clouds fleet.old }
    requires narrow { F.clouds fleet.old ≤ 10 }
    ensures acted { (s : Setting) (v : List ℕ) → Acted F.Fleet (task_of s (act.Remove name.now) v) fleet.old fleet.new (remove_reply result) }
{
    told_name(name);
    let before = match come(alloc, fleet, name) {
        Ok(before) => before,
        Err(fault) => return Err(Fault::from(fault)),
    };
    if !before.is_live() {
        return Err(Fault::NoFile);
    }
    let after = match nc_write::remove(alloc, fleet, name, &before) {
        Ok(after) => after,
        Err(fault) => return Err(Fault::from(fault)),
    };
    match finish(alloc, fleet, name, &after) {
        Ok(()) => Ok(after.generation()),
        Err(_) => Err(Fault::Memory),
    }
}
