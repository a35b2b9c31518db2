ghost use Rattle.std.specs.Prelude.{◌≡◌, ◌≤◌, ◌<◌, ℕ, All, IfErr, IfNone, IfOk, IfSome, false};
ghost use Rattle.nc_cloud.specs.Deciding.{HasCause};
ghost use Rattle.nc_name.specs.Names.{IsName};
ghost use Rattle.nc_state.specs.Standing.{AreNames};
ghost use Rattle.nc_names.specs.Listing.{AreSortedNames, IsFirstMarked, IsOfCloud, OnlyListed, named};

use crate::listing::list_names;
use nc_cloud::{Fleet, RoundFault};
use nc_name::Name;
use std::alloc::Global;

/// The names of all keys that clouds hold, sorted by their bytes, each once. The least cloud whose list failed is told.
pub fn all_names<F: Fleet>(alloc: Global, fleet: &mut F) -> Result<Vec<Name>, RoundFault>
    requires ready { F.ready }
    requires narrow { F.clouds fleet.old ≤ 10 }
    ensures names { F.tells → IfOk result (λ names. AreNames (F.clouds fleet.old) (F.held fleet.old) names.items) }
    ensures valid { IfOk result (λ names. All IsName names.items) }
    ensures sorted { IfOk result (λ names. AreSortedNames names.items) }
    ensures cause { IfErr result (HasCause F.counts_exactly (F.slips fleet.old) (F.slips fleet.new)) }
    ensures below { IfErr result (IsOfCloud (F.clouds fleet.old)) }
    ensures listed { OnlyListed F.Fleet fleet.old fleet.new }
{
    let mut failed = [false; 10];
    match list_names(alloc, fleet, &mut failed) {
        Ok(names) => match first_marked(&failed) {
            None => Ok(names),
            Some(cloud) => Err(RoundFault::Cloud(cloud)),
        },
        Err(_) => Err(RoundFault::Memory),
    }
}

/// The least cloud that the table names.
pub fn first_marked(table: &[bool; 10]) -> Option<u8>
    ensures some { IfSome result (IsFirstMarked table.now) }
    ensures none { IfNone result ((c : ℕ) → named table.now c ≡ false) }
{
    match table.iter().position(|marked| *marked) {
        Some(cloud) => Some(cloud as u8),
        None => None,
    }
}
