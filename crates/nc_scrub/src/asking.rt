ghost use Rattle.std.specs.Prelude.{◌≡◌, ◌<◌, ◌≤◌, ◌+◌, ℕ, IfOk, map};
ghost use Rattle.nc_cloud.specs.Deciding.{OnlyLooked, TellsCounts};
ghost use Rattle.nc_cloud.specs.Fleet.{asked};
ghost use Rattle.nc_cloud.specs.Rounds.{row as row_of};
ghost use Rattle.nc_cloud.specs.Stopping.{Stops};
ghost use Rattle.nc_download.specs.Chunks.{chunk_ask};
ghost use Rattle.nc_meta.specs.Metas.{IsLive};
ghost use Rattle.nc_scrub.specs.Tables.{RowTold};

use crate::flaw::State;
use crate::judging::chunk_states;
use nc_cloud::{Ask, Fleet, RoundFault, ask_round};
use nc_download::{push_ask, wanted};
use nc_meta::Live;
use nc_name::{Memory, Name};
use std::alloc::Global;

/// Asks all clouds for their chunks of a row, in one round, and tells by cloud why a chunk isn't right. The least entry that says
/// nothing decides.
pub(crate) fn row_states<F: Fleet>(
    alloc: Global,
    fleet: &mut F,
    name: &Name,
    live: &Live,
    row: u8,
) -> Result<[Option<State>; 10], RoundFault>
    requires ready { F.ready }
    requires wide { 4 ≤ F.clouds fleet.old }
    requires narrow { F.clouds fleet.old ≤ 10 }
    requires live { IsLive (F.clouds fleet.old) live.now }
    requires row { row < 2 }
    ensures told { F.tells
        → IfOk result (RowTold (F.clouds fleet.old) name.now live.now row (F.held fleet.old)) }
    ensures counts { TellsCounts F.Fleet fleet.old fleet.new result }
    ensures looked { OnlyLooked F.Fleet fleet.old fleet.new }
    ensures stops { Stops F.Fleet fleet.old fleet.new (λ G. G ≡ F.held fleet.old) }
    ensures gets { (c : ℕ) → F.chunk_gets fleet.new c ≤ F.chunk_gets fleet.old c + 1 }
{
    let width = fleet.width() as u8;
    let mut asks = match asks_of(alloc, width, name, live, row) {
        Ok(asks) => asks,
        Err(_) => return Err(RoundFault::Memory),
    };
    ask_row(fleet, name, live, row, &mut asks)
}

/// Why chunks aren't right, by the answers to these asks.
fn ask_row<F: Fleet>(
    fleet: &mut F,
    name: &Name,
    live: &Live,
    row: u8,
    asks: &mut [Ask],
) -> Result<[Option<State>; 10], RoundFault>
    requires ready { F.ready }
    requires wide { 4 ≤ F.clouds fleet.old }
    requires narrow { F.clouds fleet.old ≤ 10 }
    requires live { IsLive (F.clouds fleet.old) live.now }
    requires row { row < 2 }
    requires asks { map asked asks.old
        ≡ row_of (chunk_ask (F.clouds fleet.old) name.now live.now row) 0 (F.clouds fleet.old) }
    ensures told { F.tells
        → IfOk result (RowTold (F.clouds fleet.old) name.now live.now row (F.held fleet.old)) }
    ensures counts { TellsCounts F.Fleet fleet.old fleet.new result }
    ensures looked { OnlyLooked F.Fleet fleet.old fleet.new }
    ensures stops { Stops F.Fleet fleet.old fleet.new (λ G. G ≡ F.held fleet.old) }
    ensures gets { (c : ℕ) → F.chunk_gets fleet.new c ≤ F.chunk_gets fleet.old c + 1 }
{
    let width = fleet.width() as u8;
    match ask_round(fleet, asks) {
        Ok(()) => Ok(chunk_states(width, name, live, row, asks)),
        Err(fault) => Err(fault),
    }
}

/// An ask to each cloud for its chunk of a row.
fn asks_of(alloc: Global, width: u8, name: &Name, live: &Live, row: u8) -> Result<Vec<Ask>, Memory>
    requires wide { 4 ≤ width }
    requires narrow { width ≤ 10 }
    requires live { IsLive width live.now }
    requires row { row < 2 }
    ensures { IfOk result
        (λ asks. map asked asks.items
        ≡ row_of (chunk_ask width name.now live.now row) 0 width) }
{
    let mut asks = Vec::new(alloc);
    for cloud in 0..width {
        push_ask(&mut asks, &wanted(width, name, live, row, cloud))?;
    }
    Ok(asks)
}
