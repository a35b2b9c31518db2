ghost use Rattle.std.specs.Prelude.{◌≡◌, ◌<◌, ◌≤◌, ◌++◌, ◌∷◌, [], All, IfOk, OnOk, false, map, option_to_list};
ghost use Rattle.nc_cloud.specs.Fleet.{asked};
ghost use Rattle.nc_cloud.specs.Rounds.{some_row};
ghost use Rattle.nc_settle.specs.Judging.{is_starved};
ghost use Rattle.nc_settle.specs.MetaWrites.{named};
ghost use Rattle.nc_settle.specs.Rounds.{meta_ask, meta_ask_outside, AreJudged, JudgesCloud};

use crate::judging::{is_starved, judge};
use crate::place::Place;
use nc_cloud::{Answer, Ask};
use nc_name::{Key, Memory, Name};
use std::alloc::Global;

/// How many bytes of a metadata object are asked for. No metadata has as many.
const MOST: u64 = 2048;

/// Asks for the metadata in this slot, one of each cloud that `skip` doesn't name.
pub(crate) fn asks_for(
    alloc: Global,
    width: u8,
    name: &Name,
    slot: u8,
    skip: &[bool; 10],
) -> Result<Vec<Ask>, Memory>
    requires { width ≤ 10 }
    ensures { IfOk result (λ asks. map asked asks.items ≡ some_row (meta_ask_outside name.now slot (named skip.now)) 0 width) }
{
    let mut asks = Vec::new(alloc);
    for cloud in 0..width {
        push_outside(&mut asks, cloud, name, slot, skip)?;
    }
    Ok(asks)
}

/// Adds the ask of a cloud, unless `skip` names it.
fn push_outside(
    asks: &mut Vec<Ask>,
    cloud: u8,
    name: &Name,
    slot: u8,
    skip: &[bool; 10],
) -> Result<(), Memory>
    requires { cloud < 10 }
    ensures { OnOk result (map asked asks.new.items ≡ map asked asks.old.items ++ option_to_list (meta_ask_outside name.now slot (named skip.now) cloud)) }
{
    if skip[cloud as usize] {
        return Ok(());
    }
    push(asks, cloud, name, slot)?;
    Ok(())
}

fn push(asks: &mut Vec<Ask>, cloud: u8, name: &Name, slot: u8) -> Result<(), Memory>
    ensures { OnOk result (map asked asks.new.items ≡ map asked asks.old.items ++ meta_ask name.now slot cloud ∷ []) }
{
    let ask = Ask {
        cloud,
        key: Key::Meta { name: *name, slot },
        most: MOST,
        answer: Answer::Waiting,
    };
    match asks.push(ask) {
        Ok(()) => Ok(()),
        Err(_) => Err(Memory),
    }
}

/// What the answers of a round say, cloud by cloud. A cloud without an entry counts as one that failed.
pub(crate) fn judge_all(
    alloc: Global,
    width: u8,
    name: &Name,
    slot: u8,
    asks: &[Ask],
) -> Result<Vec<Place>, Memory>
    requires wide { 4 ≤ width }
    requires narrow { width ≤ 10 }
    requires slot { slot < 2 }
    ensures { IfOk result (λ places. AreJudged width name.now slot width asks.now places.items) }
{
    if some_starved(asks) {
        return Err(Memory);
    }
    let mut places = Vec::new(alloc);
    for cloud in 0..width {
        push_place(&mut places, judge_cloud(cloud, width, name, slot, asks))?;
    }
    Ok(places)
}

/// Whether some answer says nothing, for want of memory.
fn some_starved(asks: &[Ask]) -> bool
    ensures { result ≡ false → All (λ a. is_starved a.answer ≡ false) asks.now }
{
    for ask in asks {
        if is_starved(&ask.answer) {
            return true;
        }
    }
    false
}

/// What the answers say of a cloud.
fn judge_cloud(cloud: u8, width: u8, name: &Name, slot: u8, asks: &[Ask]) -> Place
    requires wide { 4 ≤ width }
    requires narrow { width ≤ 10 }
    requires slot { slot < 2 }
    requires fed { All (λ a. is_starved a.answer ≡ false) asks.now }
    ensures { JudgesCloud width name.now slot cloud asks.now result }
{
    for ask in asks {
        if ask.cloud == cloud {
            return judge(cloud, width, name, slot, &ask.answer);
        }
    }
    Place::Failed
}

fn push_place(places: &mut Vec<Place>, place: Place) -> Result<(), Memory>
    ensures { OnOk result (places.new.items ≡ places.old.items ++ place ∷ []) }
{
    places.extend_from_slice(&[place])?;
    Ok(())
}
