ghost use Rattle.std.specs.Prelude.{◌≡◌, ◌≢◌, Some, None, All, IfOk, MatchOption, OnOk, OnErr, map, option_map, []};
ghost use Rattle.nc_cloud.specs.Contents.{ChangesAt};
ghost use Rattle.nc_cloud.specs.Cloud.{Lists};
ghost use Rattle.nc_memory.specs.Store.{stored, Found};

use nc_cloud::{KeyList, sorted_keys};
use nc_name::{Blob, Key, Memory};
use std::alloc::Global;

/// An object of a memory cloud.
#[derive(Debug, Drop)]
pub struct Object {
    pub key: Key,
    pub bytes: Blob,
}

/// Where the first object under a key stands.
fn place_of(objects: &[Object], key: &Key) -> Option<usize>
    ensures { MatchOption result (All (λ o. o.key ≢ key.now) objects.now) (Found objects.now key.now) }
{
    for (i, object) in objects.iter().enumerate() {
        if object.key.is_same(key) {
            return Some(i);
        }
    }
    None
}

/// The bytes under a key.
pub(crate) fn bytes_of<'a>(objects: &'a [Object], key: &Key) -> Option<&'a [u8]>
    ensures { option_map (λ r. r.now) result ≡ stored objects.now key.now }
{
    match place_of(objects, key) {
        None => None,
        Some(i) => Some(objects[i].bytes.bytes()),
    }
}

/// The keys of all objects, in no order.
fn keys_in(alloc: Global, objects: &[Object]) -> Result<Vec<Key>, Memory>
    ensures { IfOk result (λ keys. keys.items ≡ map (λ o. o.key) objects.now) }
{
    let mut keys = Vec::new(alloc);
    for object in objects {
        keys.push(object.key)?;
    }
    Ok(keys)
}

/// The keys of all objects, sorted by their texts.
pub(crate) fn keys_of(alloc: Global, objects: &[Object]) -> Result<KeyList, Memory>
    ensures { IfOk result (Lists (stored objects.now)) }
{
    sorted_keys(alloc, keys_in(alloc, objects)?)
}

/// Puts bytes under a key.
pub(crate) fn place(objects: &mut Vec<Object>, key: &Key, bytes: Blob) -> Result<(), Memory>
    ensures ok { OnOk result (ChangesAt key.now (λ old left. left ≡ Some bytes) (stored objects.old.items) (stored objects.new.items)) }
    ensures err { OnErr result (objects.new.items ≡ objects.old.items) }
{
    match place_of(objects, key) {
        None => {
            let key = *key;
            objects.push(Object { key, bytes })?;
            Ok(())
        }
        Some(i) => {
            objects[i].bytes = bytes;
            Ok(())
        }
    }
}

/// Takes what is under a key away.
pub(crate) fn remove(objects: &mut Vec<Object>, key: &Key)
    ensures { ChangesAt key.now (λ old left. left ≡ None) (stored objects.old.items) (stored objects.new.items) }
{
    while let Some(i) = place_of(objects, key) {
        let _object = objects.remove(i);
    }
}

/// Leaves an empty object where there was one. It takes no memory.
pub(crate) fn empty(alloc: Global, objects: &mut Vec<Object>, key: &Key)
    ensures { ChangesAt key.now (λ old left. left ≡ option_map (λ bytes. []) old) (stored objects.old.items) (stored objects.new.items) }
{
    if let Some(i) = place_of(objects, key) {
        objects[i].bytes = Blob::from_vec(Vec::new(alloc));
    }
}
