ghost use Rattle.std.specs.Prelude.{◌≤◌, OnOk};
ghost use Rattle.nc_state.specs.Tidy.{IsTidy};
ghost use Rattle.nc_write.specs.Tidying.{NoneSlipped};
ghost use Rattle.nc_vault.specs.Writing.{Tidies};

use nc_cloud::Fleet;
use nc_name::{Memory, Name};
use nc_settle::Settled;
use nc_write::tidy;
use std::alloc::Global;

/// Deletes what no longer counts of a name that is settled on this.
pub fn finish<F: Fleet>(
    alloc: Global,
    fleet: &mut F,
    name: &Name,
    top: &Settled,
) -> Result<(), Memory>
    requires ready { F.ready }
    requires narrow { F.clouds fleet.old ≤ 10 }
    ensures tidies { Tidies F.Fleet (F.clouds fleet.old) name.now top.now.top fleet.old fleet.new }
    ensures tidy { F.tells → F.sure_deletes → OnOk result (NoneSlipped F.Fleet fleet.old fleet.new → IsTidy (F.clouds fleet.old) (F.held fleet.new) name.now top.now.top) }
{
    match tidy(alloc, fleet, name, top) {
        Ok(()) => Ok(()),
        Err(fault) => Err(fault),
    }
}
