ghost use Rattle.std.specs.Prelude.{◌≡◌, ◌≤◌, ℕ, IfOk};
ghost use Rattle.nc_meta.specs.Metas.{IsLive};
ghost use Rattle.nc_cloud.specs.Deciding.{OnlyLooked};
ghost use Rattle.nc_cloud.specs.Stopping.{Stops};
ghost use Rattle.nc_download.specs.Finding.{Finds, FindShows};

use crate::fault::FetchFault;
use crate::showing::shown;
use nc_cloud::Fleet;
use nc_meta::Live;
use nc_name::Name;
use nc_settle::look;
use std::alloc::Global;

/// The metadata of the file of this name. It is looked for on all clouds, of which at most two may fail; that of the highest
/// generation that was seen counts.
pub fn find<F: Fleet>(alloc: Global, fleet: &mut F, name: &Name) -> Result<Live, FetchFault>
    requires ready { F.ready }
    requires wide { 4 ≤ F.clouds fleet.old }
    requires narrow { F.clouds fleet.old ≤ 10 }
    ensures finds { Finds F.Fleet name.now fleet.old fleet.new result }
    ensures shows { F.tells → FindShows F.Fleet name.now fleet.old fleet.new result }
    ensures valid { IfOk result (IsLive (F.clouds fleet.old)) }
    ensures looked { OnlyLooked F.Fleet fleet.old fleet.new }
    ensures stops { Stops F.Fleet fleet.old fleet.new (λ G. G ≡ F.held fleet.old) }
    ensures gets { (c : ℕ) → F.chunk_gets fleet.new c ≡ F.chunk_gets fleet.old c }
{
    let view = look(alloc, fleet, name)?;
    match shown(&view) {
        Ok(live) => Ok(live),
        Err(fault) => Err(fault),
    }
}
