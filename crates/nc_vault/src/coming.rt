ghost use Rattle.std.specs.Prelude.{◌≡◌, ◌≤◌, IfErr, IfNone, IfOk, IfSome, Some};
ghost use Rattle.nc_meta.specs.declared.meta.Meta.TheVariants.{Live as LiveMeta};
ghost use Rattle.nc_state.specs.Holding.{IsLiveTop};
ghost use Rattle.nc_vault.specs.Writing.{IsSettled, IsUnsettled};

use nc_cloud::Fleet;
use nc_meta::{Live, Meta};
use nc_name::Name;
use nc_settle::{SettleFault, Settled, settle};
use std::alloc::Global;

/// Settles a name, before a version is written over what it is settled on.
pub fn come<F: Fleet>(alloc: Global, fleet: &mut F, name: &Name) -> Result<Settled, SettleFault>
    requires ready { F.ready }
    requires wide { 4 ≤ F.clouds fleet.old }
    requires narrow { F.clouds fleet.old ≤ 10 }
    ensures settled { IfOk result (λ s. IsSettled F.Fleet name.now fleet.old fleet.new s.top) }
    ensures unsettled { IfErr result (IsUnsettled F.Fleet name.now fleet.old fleet.new) }
{
    match settle(alloc, fleet, name) {
        Ok(settled) => Ok(settled),
        Err(fault) => Err(fault),
    }
}

/// The metadata of the file that the name is settled on, if it is one.
pub(crate) fn file_of(top: &Settled) -> Option<Live>
    ensures file { IfSome result (λ live. top.now.top ≡ Some (LiveMeta live)) }
    ensures none { IfNone result (IsLiveTop top.now.top → ⊥) }
{
    match &top.top {
        Some(Meta::Live(live)) => Some(*live),
        Some(Meta::Gone { .. }) | None => None,
    }
}
