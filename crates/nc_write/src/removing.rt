//! `remove`: a file's name says after that it was removed.
ghost use Rattle.std.specs.Prelude.{◌≡◌, ◌≤◌, ◌+◌, ◌∷◌, [], ℕ, All, IfErr, IfOk, IfSome, OnOk, Some, Err};
ghost use Rattle.nc_frame.specs.Frames.{Whole};
ghost use Rattle.nc_meta.specs.Metas.{IsMeta};
ghost use Rattle.nc_meta.specs.declared.meta.Meta.TheVariants.{Gone};
ghost use Rattle.nc_cloud.specs.Contents.{Grows};
ghost use Rattle.nc_cloud.specs.Deciding.{AreAscending};
ghost use Rattle.nc_cloud.specs.Fleet.{writes};
ghost use Rattle.nc_cloud.specs.Stopping.{GoesOn, Keeps};
ghost use Rattle.nc_state.specs.Holding.{AllHold, IsLiveTop, top_generation};
ghost use Rattle.nc_state.specs.Vaults.{ChangesOnlyName, MayBegin, MayDo};
ghost use Rattle.nc_state.specs.Versions.Version.{Removed};
ghost use Rattle.nc_write.specs.declared.fault.WriteFault.TheVariants.{Worn};
ghost use Rattle.nc_write.specs.Doing.{HasWriteCause, IsWorn, WriteDid};
ghost use Rattle.nc_write.specs.InTurn.{WroteInTurn};
ghost use Rattle.nc_write.specs.Removing.{IsRemoval, PreparesRemoval};

use crate::answering::answer_of;
use crate::fault::WriteFault;
use crate::sealing::metas_for;
use nc_cloud::{Fleet, Job, RoundFault, write_row};
use nc_meta::Meta;
use nc_name::Name;
use nc_settle::Settled;
use nc_state::next_generation;
use std::alloc::Global;

/// Writes that the file was removed, as metadata of the next generation, after what its name was settled on, in one round. It gives
/// what the name is settled on then. All memory but that of the round is taken before it.
pub fn remove<F: Fleet>(
    alloc: Global,
    fleet: &mut F,
    name: &Name,
    before: &Settled,
) -> Result<Settled, WriteFault>
    requires ready { F.ready }
    requires wide { 4 ≤ F.clouds fleet.old }
    requires narrow { F.clouds fleet.old ≤ 10 }
    requires live { IsLiveTop before.now.top }
    requires fits { IfSome before.now.top (IsMeta (F.clouds fleet.old)) }
    ensures did { WriteDid F.Fleet before.now.top (PreparesRemoval (F.clouds fleet.old) name.now before.now.top) fleet.old fleet.new result }
    ensures made { IfOk result (λ s. s.top ≡ Some (Gone (top_generation before.now.top + 1))) }
    ensures fits { IfOk result (λ s. IfSome s.top (IsMeta (F.clouds fleet.old))) }
    ensures held { F.tells → OnOk result (AllHold (F.clouds fleet.old) (F.held fleet.new) name.now (Removed (top_generation before.now.top + 1))) }
    ensures begins { F.tells → MayBegin F.Fleet (F.clouds fleet.old) name.now before.now.top (IsRemoval (F.clouds fleet.old)) fleet.old fleet.new }
    ensures does { F.tells → IfOk result (λ s. MayDo (F.clouds fleet.old) name.now before.now.top (IsRemoval (F.clouds fleet.old)) (F.held fleet.old) (F.held fleet.new) s.top) }
    ensures alone { F.tells → Keeps F.Fleet fleet.old fleet.new (ChangesOnlyName name.now (F.held fleet.old)) }
    ensures worn { IsWorn before.now.top → (result ≡ Err Worn) × (fleet.new ≡ fleet.old) }
    ensures not_worn { result ≡ Err Worn → IsWorn before.now.top }
    ensures cause { IfErr result (HasWriteCause F.counts_exactly (F.faults fleet.old) (F.faults fleet.new)) }
    ensures clean { F.counts_exactly → OnOk result ((c : ℕ) → F.faults fleet.new c ≡ F.faults fleet.old c) }
    ensures clouds { F.clouds fleet.new ≡ F.clouds fleet.old }
    ensures grows { Grows (F.faults fleet.old) (F.faults fleet.new) }
    ensures slips { F.slips fleet.new ≡ F.slips fleet.old }
    ensures gets { F.chunk_gets fleet.new ≡ F.chunk_gets fleet.old }
    ensures time { GoesOn F.Fleet fleet.old fleet.new }
{
    let _told = name.bytes();
    remove_in_turn(alloc, fleet, name, before)
}

/// Prepares the writes of a removal, and makes them.
fn remove_in_turn<F: Fleet>(
    alloc: Global,
    fleet: &mut F,
    name: &Name,
    before: &Settled,
) -> Result<Settled, WriteFault>
    requires ready { F.ready }
    requires wide { 4 ≤ F.clouds fleet.old }
    requires narrow { F.clouds fleet.old ≤ 10 }
    requires fits { IfSome before.now.top (IsMeta (F.clouds fleet.old)) }
    ensures did { WriteDid F.Fleet before.now.top (PreparesRemoval (F.clouds fleet.old) name.now before.now.top) fleet.old fleet.new result }
{
    let Some(generation) = next_generation(before.generation()) else {
        return Err(WriteFault::Worn);
    };
    let gone = Meta::Gone { generation };
    let width = fleet.width() as u8;
    let metas = match metas_for(alloc, width, name, &gone) {
        Ok(metas) => metas,
        Err(_) => return Err(WriteFault::Memory),
    };
    let answer = write_metas(fleet, metas);
    answer_of(answer, gone)
}

/// Writes metadata alone, in one round.
fn write_metas<F: Fleet>(fleet: &mut F, metas: Vec<Job>) -> Result<(), RoundFault>
    requires ready { F.ready }
    requires clouds { AreAscending (λ j. j.cloud) (F.clouds fleet.old) metas.items }
    requires whole { All (λ j. Whole j.bytes) metas.items }
    ensures rounds { WroteInTurn F.Fleet (writes metas.items ∷ []) fleet.old fleet.new result }
{
    match write_row(fleet, metas) {
        Ok(()) => Ok(()),
        Err(fault) => Err(fault),
    }
}
