//! `tidy`: what no longer counts of a name is deleted.
ghost use Rattle.std.specs.Prelude.{◌≡◌, ◌≤◌, OnOk};
ghost use Rattle.nc_cloud.specs.Contents.{Grows};
ghost use Rattle.nc_cloud.specs.Stopping.{GoesOn, Keeps};
ghost use Rattle.nc_state.specs.Tidy.{IsTidy};
ghost use Rattle.nc_state.specs.Vaults.{ChangesOnlyName};
ghost use Rattle.nc_write.specs.Tidying.{ErasedInTurn, ErasedPart, LeavesWhatCounts, NoneSlipped, all_parts};

use crate::erasing::doomed;
use crate::part::Part;
use nc_cloud::{Fleet, erase_row};
use nc_name::{Memory, Name};
use nc_settle::Settled;
use std::alloc::Global;

/// Deletes what no longer counts of a name that is settled on this: the metadata in the other slot, and the chunks that it doesn't
/// name; for a removed file all chunks, and where nothing was ever stored all objects. Metadata goes first. Of a file that makes
/// three rounds, since each cloud deletes in the slot beside its own; for a removed one five; else six. A delete that isn't Ok
/// changes no answer. Memory is taken for the entries of a round alone: where none is found, no further round is made.
pub fn tidy<F: Fleet>(
    alloc: Global,
    fleet: &mut F,
    name: &Name,
    top: &Settled,
) -> Result<(), Memory>
    requires ready { F.ready }
    requires narrow { F.clouds fleet.old ≤ 10 }
    ensures keeps { F.tells → Keeps F.Fleet fleet.old fleet.new (LeavesWhatCounts (F.clouds fleet.old) name.now top.now.top (F.held fleet.old)) }
    ensures alone { F.tells → Keeps F.Fleet fleet.old fleet.new (ChangesOnlyName name.now (F.held fleet.old)) }
    ensures tidy { F.tells → F.sure_deletes → OnOk result (NoneSlipped F.Fleet fleet.old fleet.new → IsTidy (F.clouds fleet.old) (F.held fleet.new) name.now top.now.top) }
    ensures clouds { F.clouds fleet.new ≡ F.clouds fleet.old }
    ensures faults { F.faults fleet.new ≡ F.faults fleet.old }
    ensures grows { Grows (F.slips fleet.old) (F.slips fleet.new) }
    ensures gets { F.chunk_gets fleet.new ≡ F.chunk_gets fleet.old }
    ensures time { GoesOn F.Fleet fleet.old fleet.new }
{
    let _told = name.bytes();
    tidy_in_turn(alloc, fleet, name, top)
}

/// Deletes all parts of a name in turn.
fn tidy_in_turn<F: Fleet>(
    alloc: Global,
    fleet: &mut F,
    name: &Name,
    top: &Settled,
) -> Result<(), Memory>
    requires ready { F.ready }
    requires narrow { F.clouds fleet.old ≤ 10 }
    ensures turn { ErasedInTurn F.Fleet name.now top.now.top all_parts fleet.old fleet.new result }
{
    match erase(alloc, fleet, name, top, Part::Metas { slot: 0 }) {
        Ok(()) => {}
        Err(fault) => return Err(fault),
    }
    match erase(alloc, fleet, name, top, Part::Metas { slot: 1 }) {
        Ok(()) => {}
        Err(fault) => return Err(fault),
    }
    match erase(alloc, fleet, name, top, Part::Beside { row: 0 }) {
        Ok(()) => {}
        Err(fault) => return Err(fault),
    }
    match erase(alloc, fleet, name, top, Part::Beside { row: 1 }) {
        Ok(()) => {}
        Err(fault) => return Err(fault),
    }
    match erase(alloc, fleet, name, top, Part::Named { row: 0 }) {
        Ok(()) => {}
        Err(fault) => return Err(fault),
    }
    match erase(alloc, fleet, name, top, Part::Named { row: 1 }) {
        Ok(()) => Ok(()),
        Err(fault) => Err(fault),
    }
}

/// Deletes a part of a name, on the clouds where it doesn't count, in one round.
fn erase<F: Fleet>(
    alloc: Global,
    fleet: &mut F,
    name: &Name,
    top: &Settled,
    part: Part,
) -> Result<(), Memory>
    requires ready { F.ready }
    requires narrow { F.clouds fleet.old ≤ 10 }
    ensures { ErasedPart F.Fleet name.now top.now.top part fleet.old fleet.new result }
{
    let width = fleet.width() as u8;
    let erases = doomed(alloc, width, name, &top.top, part)?;
    erase_row(fleet, erases);
    Ok(())
}
