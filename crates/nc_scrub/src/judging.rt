ghost use Rattle.std.specs.Prelude.{◌≡◌, ◌<◌, ◌≤◌, ◌%◌, All, length, true};
ghost use Rattle.nc_cloud.specs.Deciding.{IsSeen};
ghost use Rattle.nc_meta.specs.Metas.{IsLive, generation_of};
ghost use Rattle.nc_name.specs.Keys.{Slots};
ghost use Rattle.nc_settle.specs.Views.{place_at, width_of};
ghost use Rattle.nc_scrub.specs.Tables.{meta_state, AreChunkStates, AreMetaStates, JudgesAsk, JudgesChunk};

use crate::flaw::State;
use nc_cloud::{Answer, Ask};
use nc_download::{How, Wanted, judge, wanted};
use nc_meta::{Live, Meta};
use nc_name::Name;
use nc_settle::{Place, View};
use nc_state::slot_of;

/// Why the metadata isn't right, by cloud, where the highest is this.
pub(crate) fn meta_states(view: &View, top: &Meta) -> [Option<State>; 10]
    ensures { AreMetaStates view.now top.now (width_of view.now) result }
{
    let mut table = [None; 10];
    for cloud in 0..view.width() {
        table[cloud as usize] = meta_state(view, cloud, top);
    }
    table
}

fn meta_state(view: &View, cloud: u8, top: &Meta) -> Option<State>
    requires { cloud < width_of view.now }
    ensures { result
        ≡ meta_state (place_at view.now cloud (generation_of top.now % 2)) (generation_of top.now) }
{
    let generation = top.generation();
    match view.place(cloud, slot_of(generation)) {
        Place::Absent => Some(State::Missing),
        Place::Sealed(meta) => older(meta, generation),
        Place::Broken | Place::Misplaced { .. } | Place::Failed => Some(State::Broken),
    }
}

fn older(meta: &Meta, generation: u64) -> Option<State>
    ensures { result ≡ meta_state (Place.Sealed meta.now) generation }
{
    if meta.generation() < generation {
        Some(State::Old)
    } else {
        None
    }
}

/// Why the chunks of a row aren't right, by cloud. There is an answer of each.
pub(crate) fn chunk_states(
    width: u8,
    name: &Name,
    live: &Live,
    row: u8,
    asks: &[Ask],
) -> [Option<State>; 10]
    requires wide { 4 ≤ width }
    requires narrow { width ≤ 10 }
    requires live { IsLive width live.now }
    requires row { row < 2 }
    requires count { length asks.now ≡ width }
    requires seen { All (λ a. IsSeen a.answer ≡ true) asks.now }
    ensures { AreChunkStates width name.now live.now row asks.now width result }
{
    let mut table = [None; 10];
    for cloud in 0..width {
        table[cloud as usize] = state_of_ask(width, name, live, row, cloud, asks);
    }
    table
}

/// Why the chunk of a cloud isn't right.
fn state_of_ask(
    width: u8,
    name: &Name,
    live: &Live,
    row: u8,
    cloud: u8,
    asks: &[Ask],
) -> Option<State>
    requires wide { 4 ≤ width }
    requires narrow { width ≤ 10 }
    requires live { IsLive width live.now }
    requires row { row < 2 }
    requires cloud { cloud < width }
    requires count { length asks.now ≡ width }
    requires seen { All (λ a. IsSeen a.answer ≡ true) asks.now }
    ensures { JudgesAsk width name.now live.now row cloud asks.now result }
{
    let ask = &asks[cloud as usize];
    chunk_state(&wanted(width, name, live, row, cloud), &ask.answer)
}

/// Why a chunk isn't right.
fn chunk_state(wanted: &Wanted, answer: &Answer) -> Option<State>
    requires slots { Slots wanted.now.key }
    requires seen { IsSeen answer.now ≡ true }
    ensures { JudgesChunk wanted.now answer.now result }
{
    match judge(wanted, answer) {
        Ok(_) => None,
        Err(How::Missing) => Some(State::Missing),
        Err(How::Broken) => Some(State::Broken),
        Err(How::Marked) => Some(State::Marked),
    }
}
