ghost use Rattle.std.specs.Prelude.{◌≡◌, ◌++◌, ◌∷◌, [], None, Some, IfOk, OnOk, option_map};
ghost use Rattle.std.specs.BTreeMap.{keys};
ghost use Rattle.std.specs.Option.{ForSome};
ghost use Rattle.nc_cloud.specs.Cloud.{Lists};
ghost use Rattle.nc_cloud.specs.Contents.{Contents, nothing};
ghost use Rattle.nc_memory.specs.Record.{contents_after};
ghost use Rattle.nc_memory.specs.Shelf.{after_steps, keys_at, lost_at, lost_each, set_at, shelved};

use crate::record::{Damage, Event, Step, copied_object, object_left, object_lost, step_of};
use crate::site::Site;
use nc_cloud::{KeyList, sorted_keys};
use nc_name::{Blob, Key, Memory};
use std::alloc::Global;
use std::collections::BTreeMap;

/// What clouds hold: the bytes of each object under its site.
pub type Shelf = BTreeMap<Site, Blob>;

/// The bytes of an object.
pub(crate) fn bytes_at<'a>(shelf: &'a Shelf, cloud: u8, key: &Key) -> Option<&'a [u8]>
    ensures { option_map (λ r. r.now) result ≡ shelved shelf.now cloud key.now }
{
    let site = Site { cloud, key: *key };
    match shelf.get(&site) {
        None => None,
        Some(bytes) => Some(bytes.bytes()),
    }
}

/// Puts these bytes there.
fn put_there(shelf: &mut Shelf, site: Site, bytes: Blob) -> Result<(), Memory>
    ensures { OnOk result (shelved shelf.new ≡ set_at site (Some bytes) (shelved shelf.old)) }
{
    match shelf.insert(site, bytes) {
        Ok(_) => Ok(()),
        Err(_) => Err(Memory),
    }
}

/// Takes what is there away.
fn clear_there(shelf: &mut Shelf, site: Site)
    ensures { shelved shelf.new ≡ set_at site None (shelved shelf.old) }
{
    let _old = shelf.remove(&site);
}

/// Makes an object what is given.
fn set_there(shelf: &mut Shelf, site: Site, object: Option<Blob>) -> Result<(), Memory>
    ensures { OnOk result (shelved shelf.new ≡ set_at site object (shelved shelf.old)) }
{
    match object {
        Some(bytes) => put_there(shelf, site, bytes),
        None => {
            clear_there(shelf, site);
            Ok(())
        }
    }
}

/// What a write leaves.
fn shelve_step(alloc: Global, shelf: &mut Shelf, step: &Step) -> Result<(), Memory>
    ensures { OnOk result (shelved shelf.new ≡ after_steps (step.now ∷ []) (shelved shelf.old)) }
{
    let left = object_left(step, bytes_at(shelf, step.cloud, &step.key));
    let object = copied_object(alloc, left)?;
    let site = Site {
        cloud: step.cloud,
        key: step.key,
    };
    set_there(shelf, site, object)
}

/// What a write leaves, where these came before it in its round: of each cloud, the first alone is done.
fn shelve_next(alloc: Global, shelf: &mut Shelf, before: &[Step], step: &Step) -> Result<(), Memory>
    ensures { (F : Contents) → shelved shelf.old ≡ after_steps before.now F → OnOk result (shelved shelf.new ≡ after_steps (before.now ++ step.now ∷ []) F) }
{
    match step_of(before, step.cloud) {
        Some(_) => Ok(()),
        None => shelve_step(alloc, shelf, step),
    }
}

/// What the writes of a round leave.
fn shelve_steps(alloc: Global, shelf: &mut Shelf, steps: &[Step]) -> Result<(), Memory>
    ensures { OnOk result (shelved shelf.new ≡ after_steps steps.now (shelved shelf.old)) }
{
    for i in 0..steps.len() {
        shelve_next(alloc, shelf, steps.split_at(i).0, &steps[i])?;
    }
    Ok(())
}

/// What a loss leaves of an object.
fn lose_there(alloc: Global, shelf: &mut Shelf, damage: &Damage, site: Site) -> Result<(), Memory>
    ensures { OnOk result (shelved shelf.new ≡ lost_at damage.now site (shelved shelf.old)) }
{
    let left = object_lost(damage, &site.key, bytes_at(shelf, site.cloud, &site.key));
    let object = copied_object(alloc, left)?;
    set_there(shelf, site, object)
}

/// What a loss leaves of these objects of a cloud.
fn lose_each(
    alloc: Global,
    shelf: &mut Shelf,
    damage: &Damage,
    cloud: u8,
    keys: &[Key],
) -> Result<(), Memory>
    ensures { OnOk result (shelved shelf.new ≡ lost_each damage.now cloud keys.now (shelved shelf.old)) }
{
    for key in keys {
        lose_there(alloc, shelf, damage, Site { cloud, key: *key })?;
    }
    Ok(())
}

/// What a loss leaves of a cloud.
fn shelve_loss(alloc: Global, shelf: &mut Shelf, damage: &Damage, cloud: u8) -> Result<(), Memory>
    ensures { OnOk result (shelved shelf.new ≡ contents_after (Event.Lost cloud damage.now ∷ []) (shelved shelf.old)) }
{
    let keys = list_there(alloc, shelf, cloud)?;
    lose_each(alloc, shelf, damage, cloud, keys.items())
}

/// What an event leaves.
fn shelve(alloc: Global, shelf: &mut Shelf, event: &Event) -> Result<(), Memory>
    ensures { OnOk result (shelved shelf.new ≡ contents_after (event.now ∷ []) (shelved shelf.old)) }
{
    match event {
        Event::Gets(_) | Event::Listed { .. } => Ok(()),
        Event::Writes(steps) => shelve_steps(alloc, shelf, steps.items()),
        Event::Planted { cloud, key, bytes } => {
            let site = Site {
                cloud: *cloud,
                key: *key,
            };
            put_there(shelf, site, Blob::from_slice(alloc, bytes.bytes())?)
        }
        Event::Lost { cloud, damage } => shelve_loss(alloc, shelf, damage, *cloud),
    }
}

/// The shelf after one event more. It is let go where no memory is found for it.
pub(crate) fn kept(alloc: Global, shelf: Option<Shelf>, event: &Event) -> Option<Shelf>
    ensures { (F : Contents) → ForSome shelf (λ s. shelved s ≡ F) → ForSome result (λ s. shelved s ≡ contents_after (event.now ∷ []) F) }
{
    let mut shelf = shelf?;
    match shelve(alloc, &mut shelf, event) {
        Ok(()) => Some(shelf),
        Err(_) => None,
    }
}

/// The shelf after these events.
pub(crate) fn shelf_of(alloc: Global, log: &[Event]) -> Option<Shelf>
    ensures { ForSome result (λ s. shelved s ≡ contents_after log.now nothing) }
{
    let mut shelf = Shelf::new(alloc);
    for event in log {
        match shelve(alloc, &mut shelf, event) {
            Ok(()) => {}
            Err(_) => return None,
        }
    }
    Some(shelf)
}

/// The keys of a cloud's objects, in no order.
fn keys_there(alloc: Global, shelf: &Shelf, cloud: u8) -> Result<Vec<Key>, Memory>
    ensures { IfOk result (λ list. list.items ≡ keys_at cloud (keys shelf.now)) }
{
    let mut list = Vec::new(alloc);
    for site in shelf.keys() {
        if site.cloud == cloud {
            list.push(site.key)?;
        }
    }
    Ok(list)
}

/// The keys of a cloud's objects, sorted by their texts.
pub(crate) fn list_there(alloc: Global, shelf: &Shelf, cloud: u8) -> Result<KeyList, Memory>
    ensures { IfOk result (Lists (shelved shelf.now cloud)) }
{
    sorted_keys(alloc, keys_there(alloc, shelf, cloud)?)
}
