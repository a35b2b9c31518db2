ghost use Rattle.std.specs.Prelude.{◌≡◌, ◌&&◌, ◌+◌, ◌<◌, nat_eq, find, option_map, option_copied, IfOk};
ghost use Rattle.nc_cloud.specs.Fleet.{tally};
ghost use Rattle.nc_memory.specs.Record.{broken, counted, fate_in, gifts, step_at, left, lost, refused_at, value_after, value, without_last};
ghost use Rattle.nc_cloud.specs.Contents.{nothing};

use nc_name::{Blob, Key, Memory, Sequence};
use std::alloc::Global;

/// How the object of an entry that fails is left. `Broken` leaves a put's bytes without their last byte, and of the
/// object of a delete, where there was one, no bytes.
#[derive(Clone, Copy, Debug, PartialEq, Eq)]
pub enum Torn {
    Old,
    New,
    Gone,
    Broken,
}

/// The entry of this number, from 1 on, fails so.
#[derive(Clone, Copy, Debug)]
pub struct Refusal {
    pub nth: u64,
    pub outcome: Torn,
}

/// A get that was served.
#[derive(Clone, Copy, Debug)]
pub struct Look {
    pub cloud: u8,
    /// It failed.
    pub failed: bool,
    /// It gave the bytes of a chunk.
    pub gave_chunk: bool,
}

/// A put that was served, or a delete: a write of nothing.
#[derive(Debug, Drop)]
pub struct Step {
    pub cloud: u8,
    pub key: Key,
    pub new: Option<Blob>,
    pub failed: bool,
    /// How its object was left, where not as was asked.
    pub fate: Option<Torn>,
}

/// Gets of one round.
pub type LookList = Sequence<Look>;

/// Puts and deletes of one round.
pub type StepList = Sequence<Step>;

/// How the object of a key is left by a loss.
#[derive(Clone, Copy, Debug)]
pub struct KeyFate {
    pub key: Key,
    pub fate: Torn,
}

/// Objects that a loss leaves in other ways than the rest.
pub type KeyFates = Sequence<KeyFate>;

/// What a loss leaves of a cloud's objects: each as the first entry of `except` for its key says, else as `rest`.
/// `Old` and `New` leave an object as it was, `Gone` takes it away, and `Broken` its last byte; an empty one stays, and
/// none is made.
#[derive(Debug, Drop)]
pub struct Damage {
    pub rest: Torn,
    pub except: KeyFates,
}

/// What happened to a fleet.
#[derive(Debug, Drop)]
pub enum Event {
    Gets(LookList),
    Writes(StepList),
    /// A list. It is an entry, but no round.
    Listed { cloud: u8, failed: bool },
    /// An object was placed without a round.
    Planted { cloud: u8, key: Key, bytes: Blob },
    /// A cloud lost objects. It is no round and no entry.
    Lost { cloud: u8, damage: Damage },
}

/// The step of a cloud.
pub(crate) fn step_of(steps: &[Step], cloud: u8) -> Option<&Step>
    ensures { option_copied result ≡ step_at steps.now cloud }
{
    steps.iter().find(|s| s.cloud == cloud)
}

/// What a write was to leave.
pub(crate) fn object_written(step: &Step) -> Option<&[u8]>
    ensures { option_map (λ r. r.now) result ≡ step.now.new }
{
    match &step.new {
        Some(bytes) => Some(bytes.bytes()),
        None => None,
    }
}

fn without_last(bytes: &[u8]) -> &[u8]
    ensures { result.now ≡ without_last bytes.now }
{
    nc_bytes::part_of(bytes, 0, bytes.len().saturating_sub(1))
}

/// What a broken write leaves.
fn object_broken<'a>(new: Option<&'a [u8]>, old: Option<&'a [u8]>) -> Option<&'a [u8]>
    ensures { option_map (λ r. r.now) result ≡ broken (option_map (λ r. r.now) new.entry) (option_map (λ r. r.now) old.entry) }
{
    match (new, old) {
        (Some(bytes), _) => Some(without_last(bytes)),
        (None, Some(bytes)) => Some(nc_bytes::part_of(bytes, 0, 0)),
        (None, None) => None,
    }
}

/// What an object is after a write, where it was `old` before.
pub(crate) fn object_left<'a>(step: &'a Step, old: Option<&'a [u8]>) -> Option<&'a [u8]>
    ensures { option_map (λ r. r.now) result ≡ left step.now.fate step.now.new (option_map (λ r. r.now) old.entry) }
{
    match step.fate {
        None | Some(Torn::New) => object_written(step),
        Some(Torn::Old) => old,
        Some(Torn::Gone) => None,
        Some(Torn::Broken) => object_broken(object_written(step), old),
    }
}

/// A copy of an object.
pub(crate) fn copied_object(alloc: Global, object: Option<&[u8]>) -> Result<Option<Blob>, Memory>
    ensures { IfOk result (λ copy. copy ≡ option_map (λ r. r.now) object.entry) }
{
    match object {
        Some(bytes) => Ok(Some(Blob::from_slice(alloc, bytes)?)),
        None => Ok(None),
    }
}

/// How a loss leaves the object of a key.
fn fate_by(damage: &Damage, key: &Key) -> Torn
    ensures { result ≡ fate_in damage.now key.now }
{
    match damage.except.items().iter().find(|f| f.key.is_same(key)) {
        Some(known) => known.fate,
        None => damage.rest,
    }
}

fn object_cut(old: Option<&[u8]>) -> Option<&[u8]>
    ensures { option_map (λ r. r.now) result ≡ option_map without_last (option_map (λ r. r.now) old.entry) }
{
    match old {
        Some(bytes) => Some(without_last(bytes)),
        None => None,
    }
}

/// What an object is after a loss, where it was `old` before.
pub(crate) fn object_lost<'a>(damage: &Damage, key: &Key, old: Option<&'a [u8]>) -> Option<&'a [u8]>
    ensures { option_map (λ r. r.now) result ≡ lost (fate_in damage.now key.now) (option_map (λ r. r.now) old.entry) }
{
    match fate_by(damage, key) {
        Torn::Old | Torn::New => old,
        Torn::Gone => None,
        Torn::Broken => object_cut(old),
    }
}

/// What an object is after an event, where it was `old` before.
fn object_after<'a>(
    event: &'a Event,
    cloud: u8,
    key: &Key,
    old: Option<&'a [u8]>,
) -> Option<&'a [u8]>
    ensures { option_map (λ r. r.now) result ≡ value_after event.now cloud key.now (option_map (λ r. r.now) old.entry) }
{
    match event {
        Event::Gets(_) | Event::Listed { .. } => old,
        Event::Writes(steps) => match step_of(steps.items(), cloud) {
            Some(step) if step.key.is_same(key) => object_left(step, old),
            _ => old,
        },
        Event::Planted {
            cloud: place,
            key: name,
            bytes,
        } => {
            if *place == cloud && name.is_same(key) {
                Some(bytes.bytes())
            } else {
                old
            }
        }
        Event::Lost {
            cloud: place,
            damage,
        } => {
            if *place == cloud {
                object_lost(damage, key, old)
            } else {
                old
            }
        }
    }
}

/// What a cloud holds under a key after these events.
pub(crate) fn object_in<'a>(log: &'a [Event], cloud: u8, key: &Key) -> Option<&'a [u8]>
    ensures { option_map (λ r. r.now) result ≡ value log.now cloud key.now None }
{
    let mut object = None;
    for event in log {
        object = object_after(event, cloud, key, object);
    }
    object
}

/// What entry i of a round fails with, where `entries` came before the round.
pub(crate) fn refusal_of(refusals: &[Refusal], entries: u64, i: usize) -> Option<Torn>
    ensures { result ≡ refused_at refusals.now (entries + i + 1) }
{
    for refusal in refusals {
        if entries < refusal.nth && refusal.nth - entries - 1 == i as u64 {
            return Some(refusal.outcome);
        }
    }
    None
}

/// How many of these gets gave the bytes of a chunk of a cloud.
fn given_by(looks: &LookList, cloud: u8) -> u64
    ensures { result ≡ counted (tally (λ l. nat_eq l.cloud cloud && l.gave_chunk) looks.now) }
{
    let mut count: u64 = 0;
    for look in looks.items() {
        if look.cloud == cloud && look.gave_chunk {
            count = count.saturating_add(1);
        }
    }
    count
}

/// How many gets of chunks of a cloud gave bytes.
pub(crate) fn gifts_in(log: &[Event], cloud: u8) -> u64
    ensures { result ≡ counted (gifts log.now cloud) }
{
    let mut count: u64 = 0;
    for event in log {
        if let Event::Gets(looks) = event {
            count = count.saturating_add(given_by(looks, cloud));
        }
    }
    count
}
