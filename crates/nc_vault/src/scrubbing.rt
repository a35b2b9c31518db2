//! `scrub` of all names.
ghost use Rattle.std.specs.Prelude.{◌≡◌, ◌≤◌, ◌++◌, ℕ, IfErr, List, OnOk};
ghost use Rattle.nc_words.specs.declared.act.Act.TheVariants as act;
ghost use Rattle.nc_words.specs.declared.setting.Setting.{Setting};
ghost use Rattle.nc_words.specs.Acts.{task_of};
ghost use Rattle.nc_vault.specs.Acting.{Acted};
ghost use Rattle.nc_vault.specs.Damage.{with_name};
ghost use Rattle.nc_vault.specs.Scrubbing.{NameTold, NameUntold, OnlyScrubs};

use crate::fault::Fault;
use crate::reply::{NamedFlaw, NamedFlaws, Reply};
use crate::sweeping::{list_fault, stopped};
use nc_cloud::Fleet;
use nc_name::{Memory, Name};
use nc_names::all_names;
use nc_scrub::{Flaw, scrub_one};
use std::alloc::Global;

/// Tells what isn't right of all names, name by name, in their order. It writes nothing, and every cloud must answer: a failed list
/// of a cloud ends it before the first name; then the first name that can't be told does, and nothing is told of those before it.
pub(crate) fn scrub<F: Fleet>(alloc: Global, fleet: &mut F) -> Reply
    requires ready { F.ready }
    requires wide { 4 ≤ F.clouds fleet.old }
    requires narrow { F.clouds fleet.old ≤ 10 }
    ensures acted { (s : Setting) (bytes : List ℕ) → Acted F.Fleet (task_of s act.Scrub bytes) fleet.old fleet.new result }
{
    let names = match all_names(alloc, fleet) {
        Ok(names) => names,
        Err(fault) => return stopped(list_fault(fault), 0),
    };
    let mut told = NamedFlaws::new(alloc);
    for done in 0..names.len() {
        match scrub_name(alloc, fleet, &names[done], &mut told) {
            Ok(()) => {}
            Err(fault) => return stopped(fault, done),
        }
    }
    Reply::Damage(told)
}

/// Tells what isn't right of one name, after what was told of others.
fn scrub_name<F: Fleet>(
    alloc: Global,
    fleet: &mut F,
    name: &Name,
    told: &mut NamedFlaws,
) -> Result<(), Fault>
    requires ready { F.ready }
    requires wide { 4 ≤ F.clouds fleet.old }
    requires narrow { F.clouds fleet.old ≤ 10 }
    ensures only { OnlyScrubs F.Fleet fleet.old fleet.new }
    ensures done { OnOk result
        (NameTold F.Fleet name.now told.old told.new fleet.old fleet.new) }
    ensures stopped { IfErr result
        (λ cause. NameUntold F.Fleet name.now cause fleet.old fleet.new) }
{
    let flaws = match scrub_one(alloc, fleet, name) {
        Ok(flaws) => flaws,
        Err(fault) => return Err(Fault::from(fault)),
    };
    match push_flaws(told, name, flaws.items()) {
        Ok(()) => Ok(()),
        Err(_) => Err(Fault::Memory),
    }
}

/// Adds these flaws, each with the name.
fn push_flaws(told: &mut NamedFlaws, name: &Name, flaws: &[Flaw]) -> Result<(), Memory>
    ensures { OnOk result (told.new ≡ told.old ++ with_name name.now flaws.now) }
{
    for k in 0..flaws.len() {
        told.push(NamedFlaw {
            name: *name,
            flaw: flaws[k],
        })?;
    }
    Ok(())
}
