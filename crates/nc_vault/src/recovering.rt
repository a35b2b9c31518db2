ghost use Rattle.std.specs.Prelude.{◌≡◌, ◌≤◌, ℕ, IfErr, IfOk, List};
ghost use Rattle.nc_words.specs.declared.act.Act.TheVariants as act;
ghost use Rattle.nc_words.specs.declared.setting.Setting.{Setting};
ghost use Rattle.nc_words.specs.Acts.{task_of};
ghost use Rattle.nc_vault.specs.Parts.{PartDone, PartStopped};

use crate::coming::come;
use crate::fault::Fault;
use crate::finishing::finish;
use crate::putting::told_name;
use nc_cloud::Fleet;
use nc_name::Name;
use std::alloc::Global;

/// Brings a name to rest, and deletes what no longer counts of it. It repairs no file.
pub(crate) fn recover_name<F: Fleet>(
    alloc: Global,
    fleet: &mut F,
    name: &Name,
) -> Result<u64, Fault>
    requires ready { F.ready }
    requires wide { 4 ≤ F.clouds fleet.old }
    requires narrow { F.clouds fleet.old ≤ 10 }
    ensures done { (s : Setting) (bytes : List ℕ) → IfOk result (λ files.
        PartDone F.Fleet (task_of s act.Recover bytes) name.now files fleet.old fleet.new) }
    ensures stopped { (s : Setting) (bytes : List ℕ) → IfErr result (λ cause.
        PartStopped F.Fleet (task_of s act.Recover bytes) name.now cause fleet.old fleet.new) }
    ensures unread { (c : ℕ) → F.chunk_gets fleet.new c ≡ F.chunk_gets fleet.old c }
{
    told_name(name);
    let top = match come(alloc, fleet, name) {
        Ok(top) => top,
        Err(fault) => return Err(Fault::from(fault)),
    };
    match finish(alloc, fleet, name, &top) {
        Ok(()) => Ok(0),
        Err(_) => Err(Fault::Memory),
    }
}
