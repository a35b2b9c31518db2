//! The bad chunks are made anew of the file.
ghost use Rattle.std.specs.Prelude.{◌≡◌, ◌≤◌, ◌*◌, ◌++◌, ◌∷◌, [], IfOk, OnOk, None, Some, if◌then◌else◌, length, option_to_list};
ghost use Rattle.nc_cloud.specs.Rounds.{some_row};
ghost use Rattle.nc_meta.specs.Metas.{IsLive};
ghost use Rattle.nc_settle.specs.MetaWrites.{named};
ghost use Rattle.nc_write.specs.InTurn.{WroteInTurn};
ghost use Rattle.nc_restore.specs.Restoring.{AreRestoreWrites, CanBeWritten, by_row, chosen_of, restore_rounds};

use nc_cloud::{Fleet, RoundFault, write_row};
use nc_fetch::is_named;
use nc_meta::Live;
use nc_mix::{Chunks, Open, encode_file};
use nc_name::{Blob, Memory, Name};
use nc_write::{Placed, RowWrites, Rows, seal_rows};
use std::alloc::Global;
use std::thread::Threads;

/// Combines the file by the metadata's code, and seals the chunks that the tables name. All memory of the writes is taken here.
pub(crate) fn make_anew<R: Threads + Sync>(
    rt: &R,
    alloc: Global,
    width: u8,
    name: &Name,
    live: &Live,
    zeros: &[bool; 10],
    ones: &[bool; 10],
    file: &[u8],
    workers: u8,
) -> Result<RowWrites, Memory>
    requires wide { 4 ≤ width }
    requires narrow { width ≤ 10 }
    requires live { IsLive width live.now }
    requires some_workers { 1 ≤ workers }
    requires few_workers { workers ≤ 16 }
    ensures { IfOk result
        (AreRestoreWrites width name.now live.now (by_row zeros.now ones.now) file.now) }
{
    let chunks = encode_file(rt, alloc, file, &live.code, workers, &Open)?;
    let chosen = chosen_rows(alloc, width, chunks, zeros, ones)?;
    let writes = seal_rows(rt, alloc, width, name, live, chosen, workers)?;
    Ok(writes)
}

/// The chunks that the tables name, by row. None is copied, and the others are let go.
fn chosen_rows(
    alloc: Global,
    width: u8,
    chunks: Chunks,
    zeros: &[bool; 10],
    ones: &[bool; 10],
) -> Result<Rows, Memory>
    requires narrow { width ≤ 10 }
    requires count { length chunks ≡ 2 * width }
    ensures zeros { IfOk result
        (λ rows. rows.zeros.items ≡ some_row (chosen_of chunks (named zeros.now) 0) 0 width) }
    ensures ones { IfOk result
        (λ rows. rows.ones.items ≡ some_row (chosen_of chunks (named ones.now) 1) 0 width) }
{
    let mut rest = chunks.into_items();
    let mut first = Vec::new(alloc);
    let mut second = Vec::new(alloc);
    for cloud in 0..width {
        let zero = rest.remove(0);
        place(&mut first, is_named(zeros, cloud), cloud, zero)?;
        let one = rest.remove(0);
        place(&mut second, is_named(ones, cloud), cloud, one)?;
    }
    Ok(Rows {
        zeros: first,
        ones: second,
    })
}

/// Adds a chunk of a cloud, where it is wanted.
fn place(placed: &mut Vec<Placed>, wanted: bool, cloud: u8, chunk: Blob) -> Result<(), Memory>
    ensures { OnOk result
        (placed.new.items ≡ placed.old.items
        ++ option_to_list (if wanted then Some (record { cloud = cloud; chunk = chunk }) else None)) }
{
    if wanted {
        push_placed(placed, cloud, chunk)?;
    }
    Ok(())
}

fn push_placed(placed: &mut Vec<Placed>, cloud: u8, chunk: Blob) -> Result<(), Memory>
    ensures { OnOk result
        (placed.new.items
        ≡ placed.old.items ++ record { cloud = cloud; chunk = chunk } ∷ []) }
{
    match placed.push(Placed { cloud, chunk }) {
        Ok(()) => Ok(()),
        Err(_) => Err(Memory),
    }
}

/// Writes row 0 of the bad chunks, and then row 1, each in a round, where it has entries. The first round that isn't Ok is the
/// last.
pub(crate) fn write_anew<F: Fleet>(fleet: &mut F, writes: RowWrites) -> Result<(), RoundFault>
    requires ready { F.ready }
    requires made { CanBeWritten (F.clouds fleet.old) writes }
    ensures rounds { WroteInTurn F.Fleet (restore_rounds writes) fleet.old fleet.new result }
{
    let RowWrites { first, second } = writes;
    match write_row(fleet, first) {
        Ok(()) => {}
        Err(fault) => return Err(fault),
    }
    match write_row(fleet, second) {
        Ok(()) => Ok(()),
        Err(fault) => Err(fault),
    }
}
