ghost use Rattle.std.specs.Prelude.{◌≡◌, ◌<◌, ◌≤◌, ℕ, IfOk, true, length, map};
ghost use Rattle.nc_cloud.specs.Fleet.{asked};
ghost use Rattle.nc_cloud.specs.Rounds.{some_row};
ghost use Rattle.nc_cloud.specs.Deciding.{OnlyLooked};
ghost use Rattle.nc_cloud.specs.Stopping.{Stops};
ghost use Rattle.nc_name.specs.Names.{IsName};
ghost use Rattle.nc_settle.specs.Looking.{FailuresRose, HasMetas, HasMetasIn, HasWidth, OnlyFailuresRose, OnlyFailuresRoseIn, OthersRose, OthersRoseIn, Sees, SeesSlot, SkipsFailed, SkipsFailedIn};
ghost use Rattle.nc_settle.specs.MetaWrites.{named};
ghost use Rattle.nc_settle.specs.Rounds.{meta_ask_outside};

use crate::asking::{asks_for, judge_all};
use crate::judging::told_name;
use crate::place::Place;
use crate::view::View;
use nc_cloud::{Ask, Fleet};
use nc_name::{Memory, Name};
use std::alloc::Global;

/// Looks at both metadata objects of a name on each cloud: slot 0 of all in one round, and slot 1 of all in the next. A cloud
/// that failed is a place of the view. At most 2048 bytes of an object are asked for; a longer one is broken.
pub fn look<F: Fleet>(alloc: Global, fleet: &mut F, name: &Name) -> Result<View, Memory>
    requires ready { F.ready }
    requires wide { 4 ≤ F.clouds fleet.old }
    requires narrow { F.clouds fleet.old ≤ 10 }
    ensures told { F.tells → IfOk result (Sees (F.clouds fleet.old) name.now (F.held fleet.old)) }
    ensures width { IfOk result (HasWidth (F.clouds fleet.old)) }
    ensures metas { IfOk result (HasMetas (F.clouds fleet.old)) }
    ensures failed { IfOk result (FailuresRose (F.clouds fleet.old) (F.faults fleet.old) (F.faults fleet.new)) }
    ensures exact { F.counts_exactly → IfOk result (OnlyFailuresRose (F.faults fleet.old) (F.faults fleet.new)) }
    ensures looked { OnlyLooked F.Fleet fleet.old fleet.new }
    ensures stops { Stops F.Fleet fleet.old fleet.new (λ G. G ≡ F.held fleet.old) }
    ensures gets { (c : ℕ) → F.chunk_gets fleet.new c ≡ F.chunk_gets fleet.old c }
    ensures valid { IsName name.now }
{
    look_without(alloc, fleet, name, &[false; 10])
}

/// Does the same, but asks no cloud that `skip` names: both places of such a cloud count as failed.
pub fn look_without<F: Fleet>(
    alloc: Global,
    fleet: &mut F,
    name: &Name,
    skip: &[bool; 10],
) -> Result<View, Memory>
    requires ready { F.ready }
    requires wide { 4 ≤ F.clouds fleet.old }
    requires narrow { F.clouds fleet.old ≤ 10 }
    ensures told { F.tells → IfOk result (Sees (F.clouds fleet.old) name.now (F.held fleet.old)) }
    ensures width { IfOk result (HasWidth (F.clouds fleet.old)) }
    ensures metas { IfOk result (HasMetas (F.clouds fleet.old)) }
    ensures skipped { IfOk result (SkipsFailed (F.clouds fleet.old) (named skip.now)) }
    ensures failed { IfOk result (OthersRose (F.clouds fleet.old) (named skip.now) (F.faults fleet.old) (F.faults fleet.new)) }
    ensures exact { F.counts_exactly → IfOk result (OnlyFailuresRose (F.faults fleet.old) (F.faults fleet.new)) }
    ensures spared { F.counts_exactly → (c : ℕ) → named skip.now c ≡ true → F.faults fleet.new c ≡ F.faults fleet.old c }
    ensures looked { OnlyLooked F.Fleet fleet.old fleet.new }
    ensures stops { Stops F.Fleet fleet.old fleet.new (λ G. G ≡ F.held fleet.old) }
    ensures gets { (c : ℕ) → F.chunk_gets fleet.new c ≡ F.chunk_gets fleet.old c }
    ensures valid { IsName name.now }
{
    told_name(name);
    let width = fleet.width() as u8;
    let mut zeros = asks_for(alloc, width, name, 0, skip)?;
    let first = ask_all(alloc, fleet, name, 0, skip, &mut zeros)?;
    let mut ones = asks_for(alloc, width, name, 1, skip)?;
    let second = ask_all(alloc, fleet, name, 1, skip, &mut ones)?;
    Ok(View::new(first, second))
}

/// What the answers to these asks say, by cloud.
fn ask_all<F: Fleet>(
    alloc: Global,
    fleet: &mut F,
    name: &Name,
    slot: u8,
    skip: &[bool; 10],
    asks: &mut [Ask],
) -> Result<Vec<Place>, Memory>
    requires ready { F.ready }
    requires wide { 4 ≤ F.clouds fleet.old }
    requires narrow { F.clouds fleet.old ≤ 10 }
    requires slot { slot < 2 }
    requires asks { map asked asks.old ≡ some_row (meta_ask_outside name.now slot (named skip.now)) 0 (F.clouds fleet.old) }
    ensures told { F.tells → IfOk result (λ places. SeesSlot (F.clouds fleet.old) name.now slot (F.held fleet.old) places.items) }
    ensures width { IfOk result (λ places. length places.items ≡ F.clouds fleet.old) }
    ensures metas { IfOk result (λ places. HasMetasIn (F.clouds fleet.old) slot places.items) }
    ensures skipped { IfOk result (λ places. SkipsFailedIn (F.clouds fleet.old) (named skip.now) places.items) }
    ensures failed { IfOk result (λ places. OthersRoseIn (F.clouds fleet.old) (named skip.now) (F.faults fleet.old) (F.faults fleet.new) places.items) }
    ensures exact { F.counts_exactly → IfOk result (λ places. OnlyFailuresRoseIn (F.faults fleet.old) (F.faults fleet.new) places.items) }
    ensures spared { F.counts_exactly → (c : ℕ) → named skip.now c ≡ true → F.faults fleet.new c ≡ F.faults fleet.old c }
    ensures looked { OnlyLooked F.Fleet fleet.old fleet.new }
    ensures stops { Stops F.Fleet fleet.old fleet.new (λ G. G ≡ F.held fleet.old) }
    ensures gets { (c : ℕ) → F.chunk_gets fleet.new c ≡ F.chunk_gets fleet.old c }
{
    let width = fleet.width() as u8;
    fleet.get_round(asks);
    judge_all(alloc, width, name, slot, asks)
}
