ghost use Rattle.std.specs.Prelude.{◌≡◌, ◌<◌, ◌≤◌, ℕ, IfErr, IfOk, IfSome, OnOk};
ghost use Rattle.nc_meta.specs.Metas.{IsMeta};
ghost use Rattle.nc_cloud.specs.Contents.{Grows};
ghost use Rattle.nc_cloud.specs.Deciding.{TellsCounts};
ghost use Rattle.nc_cloud.specs.Images.{Image, Written};
ghost use Rattle.nc_cloud.specs.Stopping.{GoesOn, Keeps};
ghost use Rattle.nc_state.specs.Holding.{IsSettledOn, IsTopOrNone, Undisputed};
ghost use Rattle.nc_state.specs.Vaults.{ChangesOnlyName};
ghost use Rattle.nc_settle.specs.Elsewhere.{NothingMisplaced};
ghost use Rattle.nc_settle.specs.Settling.{lacking_writes, lacks, AreLacking, ChangesOnlyMetas, HasSettleCause, IsSeenFault, SeesFault, SeesOne, SettleBegins, SettleComes, SettleRefuses};
ghost use Rattle.nc_settle.specs.Stops.{RoundStopped, SettleStopped};
ghost use Rattle.nc_settle.specs.Views.{width_of};

use crate::looking::look;
use crate::metas::meta_jobs;
use crate::place::Place;
use crate::settled::{SettleFault, Settled};
use crate::view::View;
use nc_cloud::{Fleet, RoundFault, write_row};
use nc_meta::Meta;
use nc_name::Name;
use nc_state::slot_of;
use std::alloc::Global;

/// Brings a name to rest: the highest metadata that any cloud holds is written, in one round, to each cloud that lacks it. Where
/// none lacks it, nothing is written. A cloud that failed comes first among the refusals, then metadata of elsewhere, then a
/// conflict.
pub fn settle<F: Fleet>(alloc: Global, fleet: &mut F, name: &Name) -> Result<Settled, SettleFault>
    requires ready { F.ready }
    requires wide { 4 ≤ F.clouds fleet.old }
    requires narrow { F.clouds fleet.old ≤ 10 }
    ensures refused { F.tells → IfErr result (SettleRefuses (F.clouds fleet.old) name.now (F.held fleet.old)) }
    ensures kept { IfErr result (λ fault. IsSeenFault fault → F.held fleet.new ≡ F.held fleet.old) }
    ensures top { F.tells → IfOk result (λ s. IsTopOrNone (F.clouds fleet.old) (F.held fleet.old) name.now s.top) }
    ensures undisputed { F.tells → IfOk result (λ s. IfSome s.top (Undisputed (F.clouds fleet.old) (F.held fleet.old) name.now)) }
    ensures nothing_misplaced { F.tells → OnOk result (NothingMisplaced (F.clouds fleet.old) name.now (F.held fleet.old)) }
    ensures settled { F.tells → IfOk result (λ s. IsSettledOn (F.clouds fleet.old) (F.held fleet.new) name.now s.top) }
    ensures fits { IfOk result (λ s. IfSome s.top (IsMeta (F.clouds fleet.old))) }
    ensures begins { F.tells → SettleBegins F.Fleet name.now fleet.old fleet.new }
    ensures comes { F.tells → IfOk result (SettleComes F.Fleet name.now fleet.old fleet.new) }
    ensures chunks { F.tells → Keeps F.Fleet fleet.old fleet.new (ChangesOnlyMetas name.now (F.held fleet.old)) }
    ensures alone { F.tells → Keeps F.Fleet fleet.old fleet.new (ChangesOnlyName name.now (F.held fleet.old)) }
    ensures stopped { IfErr result (SettleStopped F.Fleet fleet.old fleet.new) }
    ensures cause { IfErr result (HasSettleCause F.counts_exactly (F.faults fleet.old) (F.faults fleet.new)) }
    ensures clean { F.counts_exactly → OnOk result ((c : ℕ) → F.faults fleet.new c ≡ F.faults fleet.old c) }
    ensures clouds { F.clouds fleet.new ≡ F.clouds fleet.old }
    ensures grows { Grows (F.faults fleet.old) (F.faults fleet.new) }
    ensures slips { F.slips fleet.new ≡ F.slips fleet.old }
    ensures gets { (c : ℕ) → F.chunk_gets fleet.new c ≡ F.chunk_gets fleet.old c }
    ensures time { GoesOn F.Fleet fleet.old fleet.new }
{
    let view = look(alloc, fleet, name)?;
    match agreed(&view) {
        Ok(()) => {}
        Err(fault) => return Err(fault),
    }
    match view.top() {
        None => Ok(Settled { top: None }),
        Some(top) => match spread(alloc, fleet, name, &view, top.meta) {
            Ok(()) => Ok(Settled {
                top: Some(*top.meta),
            }),
            Err(RoundFault::Cloud(cloud)) => Err(SettleFault::Cloud(cloud)),
            Err(RoundFault::Memory) => Err(SettleFault::Memory),
        },
    }
}

/// Whether all clouds answered and don't contradict each other.
pub fn agreed(view: &View) -> Result<(), SettleFault>
    ensures fault { IfErr result (SeesFault view.now) }
    ensures one { OnOk result (SeesOne view.now) }
{
    if let Some(cloud) = view.failing() {
        return Err(SettleFault::Cloud(cloud));
    }
    if let Some(misplaced) = view.misplaced() {
        return Err(SettleFault::Misplaced {
            cloud: misplaced.cloud,
            said_cloud: misplaced.said_cloud,
            said_width: misplaced.said_width,
        });
    }
    if let Some(conflict) = view.conflict() {
        return Err(SettleFault::Conflict {
            generation: conflict.generation,
            a: conflict.a,
            b: conflict.b,
        });
    }
    Ok(())
}

/// Writes this metadata, in one round, on each cloud that was not seen to have some of its generation. Where there is none, no
/// round is made.
fn spread<F: Fleet>(
    alloc: Global,
    fleet: &mut F,
    name: &Name,
    view: &View,
    meta: &Meta,
) -> Result<(), RoundFault>
    requires ready { F.ready }
    requires width { width_of view.now ≡ F.clouds fleet.old }
    requires wide { 4 ≤ F.clouds fleet.old }
    requires narrow { F.clouds fleet.old ≤ 10 }
    requires fits { IsMeta (F.clouds fleet.old) meta.now }
    ensures done { F.tells → OnOk result (Written (lacking_writes (F.clouds fleet.old) name.now view.now meta.now) (F.held fleet.old) (F.held fleet.new)) }
    ensures keeps { F.tells → Keeps F.Fleet fleet.old fleet.new (Image (lacking_writes (F.clouds fleet.old) name.now view.now meta.now) (F.held fleet.old)) }
    ensures stopped { IfErr result (RoundStopped F.Fleet fleet.old fleet.new) }
    ensures counts { TellsCounts F.Fleet fleet.old fleet.new result }
    ensures clouds { F.clouds fleet.new ≡ F.clouds fleet.old }
    ensures grows { Grows (F.faults fleet.old) (F.faults fleet.new) }
    ensures slips { F.slips fleet.new ≡ F.slips fleet.old }
    ensures gets { F.chunk_gets fleet.new ≡ F.chunk_gets fleet.old }
    ensures time { GoesOn F.Fleet fleet.old fleet.new }
{
    match meta_jobs(alloc, view.width(), name, meta, &lacking(view, meta)) {
        Ok(jobs) => write_row(fleet, jobs),
        Err(_) => Err(RoundFault::Memory),
    }
}

/// The clouds that were not seen to have metadata of this generation.
fn lacking(view: &View, meta: &Meta) -> [bool; 10]
    ensures { AreLacking view.now meta.now (width_of view.now) result }
{
    let mut table = [false; 10];
    for cloud in 0..view.width() {
        table[cloud as usize] = lacks(view, cloud, meta);
    }
    table
}

fn lacks(view: &View, cloud: u8, meta: &Meta) -> bool
    requires { cloud < width_of view.now }
    ensures { result ≡ lacks view.now meta.now cloud }
{
    let generation = meta.generation();
    match view.place(cloud, slot_of(generation)) {
        Place::Sealed(other) => other.generation() != generation,
        _ => true,
    }
}
