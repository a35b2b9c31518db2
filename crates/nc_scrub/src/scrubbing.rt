ghost use Rattle.std.specs.Prelude.{◌≡◌, ◌≤◌, ◌+◌, ℕ, IfErr, IfOk, OnOk};
ghost use Rattle.nc_cloud.specs.Deciding.{OnlyLooked};
ghost use Rattle.nc_cloud.specs.Stopping.{Stops};
ghost use Rattle.nc_settle.specs.Settling.{HasSettleCause, SettleRefuses};
ghost use Rattle.nc_scrub.specs.Flaws.{AreFlaws};

use crate::comparing::compare;
use crate::flaw::Flaws;
use nc_cloud::{Fleet, RoundFault};
use nc_name::{Name, Sequence};
use nc_settle::{SettleFault, agreed, look};
use std::alloc::Global;

/// Tells exactly what of a name isn't as its highest metadata says, by cloud, metadata first and then row by row. It writes
/// nothing, and every cloud must answer. A cloud that failed in the look comes first among the refusals, then metadata of
/// elsewhere, then a conflict; then a cloud that failed in the round of row 0, and in that of row 1.
pub fn scrub_one<F: Fleet>(alloc: Global, fleet: &mut F, name: &Name) -> Result<Flaws, SettleFault>
    requires ready { F.ready }
    requires wide { 4 ≤ F.clouds fleet.old }
    requires narrow { F.clouds fleet.old ≤ 10 }
    ensures flaws { F.tells
        → IfOk result (AreFlaws (F.clouds fleet.old) name.now (F.held fleet.old)) }
    ensures refuses { F.tells
        → IfErr result (SettleRefuses (F.clouds fleet.old) name.now (F.held fleet.old)) }
    ensures counts { IfErr result
        (HasSettleCause F.counts_exactly (F.faults fleet.old) (F.faults fleet.new)) }
    ensures clean { F.counts_exactly
        → OnOk result ((c : ℕ) → F.faults fleet.new c ≡ F.faults fleet.old c) }
    ensures looked { OnlyLooked F.Fleet fleet.old fleet.new }
    ensures stops { Stops F.Fleet fleet.old fleet.new (λ G. G ≡ F.held fleet.old) }
    ensures gets { (c : ℕ) → F.chunk_gets fleet.new c ≤ F.chunk_gets fleet.old c + 2 }
{
    let view = look(alloc, fleet, name)?;
    match agreed(&view) {
        Ok(()) => {}
        Err(fault) => return Err(fault),
    }
    match view.top() {
        None => Ok(Sequence::new(alloc)),
        Some(top) => match compare(alloc, fleet, name, &view, top.meta) {
            Ok(flaws) => Ok(flaws),
            Err(RoundFault::Cloud(cloud)) => Err(SettleFault::Cloud(cloud)),
            Err(RoundFault::Memory) => Err(SettleFault::Memory),
        },
    }
}
