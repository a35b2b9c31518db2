ghost use Rattle.std.specs.Prelude.{◌≡◌, ◌≤◌, ◌+◌, ℕ, IfOk};
ghost use Rattle.nc_cloud.specs.Deciding.{OnlyLooked, TellsCounts};
ghost use Rattle.nc_cloud.specs.Stopping.{Stops};
ghost use Rattle.nc_meta.specs.Metas.{IsLive, IsMeta};
ghost use Rattle.nc_settle.specs.Views.{width_of};
ghost use Rattle.nc_scrub.specs.Tables.{Compares, ComparesChunks};

use crate::asking::row_states;
use crate::flaw::{Flaws, State};
use crate::judging::meta_states;
use crate::listing::listed;
use nc_cloud::{Fleet, RoundFault};
use nc_meta::{Live, Meta};
use nc_name::Name;
use nc_settle::View;
use std::alloc::Global;

/// What isn't as the highest metadata says: of metadata by what was seen, and of the chunks of a file by what their clouds answer.
pub(crate) fn compare<F: Fleet>(
    alloc: Global,
    fleet: &mut F,
    name: &Name,
    view: &View,
    top: &Meta,
) -> Result<Flaws, RoundFault>
    requires ready { F.ready }
    requires wide { 4 ≤ F.clouds fleet.old }
    requires narrow { F.clouds fleet.old ≤ 10 }
    requires width { width_of view.now ≡ F.clouds fleet.old }
    requires fits { IsMeta (F.clouds fleet.old) top.now }
    ensures told { F.tells
        → IfOk result
        (Compares (F.clouds fleet.old) name.now view.now top.now (F.held fleet.old)) }
    ensures counts { TellsCounts F.Fleet fleet.old fleet.new result }
    ensures looked { OnlyLooked F.Fleet fleet.old fleet.new }
    ensures stops { Stops F.Fleet fleet.old fleet.new (λ G. G ≡ F.held fleet.old) }
    ensures gets { (c : ℕ) → F.chunk_gets fleet.new c ≤ F.chunk_gets fleet.old c + 2 }
{
    let metas = meta_states(view, top);
    match top {
        Meta::Live(live) => compare_chunks(alloc, fleet, name, live, &metas),
        Meta::Gone { generation: _ } => match listed(
            alloc,
            view.width(),
            &metas,
            &[None; 10],
            &[None; 10],
        ) {
            Ok(flaws) => Ok(flaws),
            Err(_) => Err(RoundFault::Memory),
        },
    }
}

/// What isn't as the metadata of a file says, where this is why metadata isn't right.
fn compare_chunks<F: Fleet>(
    alloc: Global,
    fleet: &mut F,
    name: &Name,
    live: &Live,
    metas: &[Option<State>; 10],
) -> Result<Flaws, RoundFault>
    requires ready { F.ready }
    requires wide { 4 ≤ F.clouds fleet.old }
    requires narrow { F.clouds fleet.old ≤ 10 }
    requires live { IsLive (F.clouds fleet.old) live.now }
    ensures told { F.tells
        → IfOk result
        (ComparesChunks (F.clouds fleet.old) name.now live.now (F.held fleet.old) metas.now) }
    ensures counts { TellsCounts F.Fleet fleet.old fleet.new result }
    ensures looked { OnlyLooked F.Fleet fleet.old fleet.new }
    ensures stops { Stops F.Fleet fleet.old fleet.new (λ G. G ≡ F.held fleet.old) }
    ensures gets { (c : ℕ) → F.chunk_gets fleet.new c ≤ F.chunk_gets fleet.old c + 2 }
{
    let width = fleet.width() as u8;
    let zeros = match row_states(alloc, fleet, name, live, 0) {
        Ok(zeros) => zeros,
        Err(fault) => return Err(fault),
    };
    let ones = match row_states(alloc, fleet, name, live, 1) {
        Ok(ones) => ones,
        Err(fault) => return Err(fault),
    };
    match listed(alloc, width, metas, &zeros, &ones) {
        Ok(flaws) => Ok(flaws),
        Err(_) => Err(RoundFault::Memory),
    }
}
