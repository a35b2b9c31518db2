//! `put`: a file is stored after what its name was settled on.
ghost use Rattle.std.specs.Prelude.{◌≡◌, ◌≤◌, ◌-◌, ◌^◌, ℕ, IfErr, IfOk, IfSome, OnOk, Some, Err, length};
ghost use Rattle.nc_meta.specs.Metas.{IsMeta};
ghost use Rattle.nc_meta.specs.declared.meta.Meta.TheVariants.{Live as LiveMeta};
ghost use Rattle.nc_cloud.specs.Contents.{Grows};
ghost use Rattle.nc_cloud.specs.Stopping.{GoesOn, Keeps};
ghost use Rattle.nc_state.specs.Vaults.{ChangesOnlyName, MayBegin, MayDo};
ghost use Rattle.nc_state.specs.Versions.Version.{Stored};
ghost use Rattle.nc_write.specs.declared.fault.WriteFault.TheVariants.{Worn};
ghost use Rattle.nc_write.specs.Doing.{HasWriteCause, IsWorn, PreparesPut, WriteDid};
ghost use Rattle.nc_write.specs.Putting.{IsPutBy, IsStored, put_meta};

use crate::answering::answer_of;
use crate::fault::WriteFault;
use crate::preparing::prepare;
use crate::writing::write_laid;
use nc_cloud::Fleet;
use nc_meta::Meta;
use nc_name::Name;
use nc_nextloss::GoodCode;
use nc_settle::Settled;
use nc_state::next_generation;
use std::alloc::Global;
use std::thread::Threads;

/// Stores a file by this code after what its name was settled on: its chunks, beside those of the version before, and then its
/// metadata, of the next generation. It gives what the name is settled on then. All memory but that of the rounds is taken before
/// the first of them, and no round follows one that isn't Ok.
pub fn put<R: Threads + Sync, F: Fleet>(
    rt: &R,
    alloc: Global,
    fleet: &mut F,
    name: &Name,
    before: &Settled,
    good: &GoodCode,
    bytes: &[u8],
    workers: u8,
) -> Result<Settled, WriteFault>
    requires ready { F.ready }
    requires width { good.now.code.width ≡ F.clouds fleet.old }
    requires some_workers { 1 ≤ workers }
    requires few_workers { workers ≤ 16 }
    requires short { length bytes.now ≤ 2 ^ 26 }
    requires fits { IfSome before.now.top (IsMeta (F.clouds fleet.old)) }
    ensures did { WriteDid F.Fleet before.now.top (PreparesPut (F.clouds fleet.old) name.now before.now.top good.now bytes.now) fleet.old fleet.new result }
    ensures made { IfOk result (λ s. s.top ≡ Some (LiveMeta (put_meta (F.clouds fleet.old) before.now.top good.now bytes.now))) }
    ensures fits { IfOk result (λ s. IfSome s.top (IsMeta (F.clouds fleet.old))) }
    ensures stored { F.tells → OnOk result (IsStored (F.clouds fleet.old) (F.held fleet.new) name.now (Stored (put_meta (F.clouds fleet.old) before.now.top good.now bytes.now) bytes.now)) }
    ensures begins { F.tells → MayBegin F.Fleet (F.clouds fleet.old) name.now before.now.top (IsPutBy (F.clouds fleet.old) good.now bytes.now) fleet.old fleet.new }
    ensures does { F.tells → IfOk result (λ s. MayDo (F.clouds fleet.old) name.now before.now.top (IsPutBy (F.clouds fleet.old) good.now bytes.now) (F.held fleet.old) (F.held fleet.new) s.top) }
    ensures alone { F.tells → Keeps F.Fleet fleet.old fleet.new (ChangesOnlyName name.now (F.held fleet.old)) }
    ensures worn { IsWorn before.now.top → (result ≡ Err Worn) × (fleet.new ≡ fleet.old) }
    ensures not_worn { result ≡ Err Worn → IsWorn before.now.top }
    ensures cause { IfErr result (HasWriteCause F.counts_exactly (F.faults fleet.old) (F.faults fleet.new)) }
    ensures clean { F.counts_exactly → OnOk result ((c : ℕ) → F.faults fleet.new c ≡ F.faults fleet.old c) }
    ensures clouds { F.clouds fleet.new ≡ F.clouds fleet.old }
    ensures grows { Grows (F.faults fleet.old) (F.faults fleet.new) }
    ensures slips { F.slips fleet.new ≡ F.slips fleet.old }
    ensures gets { F.chunk_gets fleet.new ≡ F.chunk_gets fleet.old }
    ensures time { GoesOn F.Fleet fleet.old fleet.new }
{
    let _told = name.bytes();
    put_in_turn(rt, alloc, fleet, name, before, good, bytes, workers)
}

/// Prepares the writes of a put, and makes them in turn.
fn put_in_turn<R: Threads + Sync, F: Fleet>(
    rt: &R,
    alloc: Global,
    fleet: &mut F,
    name: &Name,
    before: &Settled,
    good: &GoodCode,
    bytes: &[u8],
    workers: u8,
) -> Result<Settled, WriteFault>
    requires ready { F.ready }
    requires width { good.now.code.width ≡ F.clouds fleet.old }
    requires some_workers { 1 ≤ workers }
    requires few_workers { workers ≤ 16 }
    requires short { length bytes.now ≤ 2 ^ 26 }
    requires fits { IfSome before.now.top (IsMeta (F.clouds fleet.old)) }
    ensures did { WriteDid F.Fleet before.now.top (PreparesPut (F.clouds fleet.old) name.now before.now.top good.now bytes.now) fleet.old fleet.new result }
{
    let Some(generation) = next_generation(before.generation()) else {
        return Err(WriteFault::Worn);
    };
    let version = match prepare(
        rt,
        alloc,
        name,
        &before.top,
        generation,
        good,
        workers,
        bytes,
    ) {
        Ok(version) => version,
        Err(_) => return Err(WriteFault::Memory),
    };
    let live = version.live;
    let answer = write_laid(rt, alloc, fleet, version, workers);
    answer_of(answer, Meta::Live(live))
}
