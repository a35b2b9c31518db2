ghost use Rattle.std.specs.Prelude.{◌≡◌, ◌-◌, ◌<◌, Contains, IfOk, IsPermutation, OnOk, false, length, slice_index_or, true};
ghost use Rattle.std.specs.Cmp.Lexicographic.{slice_cmp};
ghost use Rattle.std.specs.Ordering.{nat_cmp};
ghost use Rattle.std.specs.declared.cmp.Ordering.TheVariants.{Equal as Tied};
ghost use Rattle.nc_name.specs.declared.key.Key.{Key};
ghost use Rattle.nc_name.specs.Keys.{key_text};
ghost use Rattle.nc_cloud.specs.Cloud.{AreSorted, Ascend, IsBefore, key_order};

use crate::cloud::KeyList;
use nc_name::{Key, Memory};
use std::alloc::Global;
use std::cmp::Ordering;

/// The order of two keys by their parts.
fn parts_cmp(a: &Key, b: &Key) -> Ordering
    ensures { result ≡ key_order a.now b.now }
{
    match (a, b) {
        (
            Key::Chunk { name, slot, row },
            Key::Chunk {
                name: other,
                slot: s,
                row: r,
            },
        ) => {
            let rest = slot.cmp(s).then(row.cmp(r));
            name.bytes().cmp(other.bytes()).then(rest)
        }
        (
            Key::Meta { name, slot },
            Key::Meta {
                name: other,
                slot: s,
            },
        ) => { name.bytes().cmp(other.bytes()).then(slot.cmp(s)) }
        (Key::Chunk { .. }, Key::Meta { .. }) => Ordering::Less,
        (Key::Meta { .. }, Key::Chunk { .. }) => Ordering::Greater,
    }
}

/// The order of two keys by their texts.
pub fn key_cmp(a: &Key, b: &Key) -> Ordering
    ensures order { result ≡ slice_cmp nat_cmp (key_text a.now) (key_text b.now) }
    ensures same { result ≡ Tied → a.now ≡ b.now }
{
    let _first = a.name().bytes();
    let _second = b.name().bytes();
    parts_cmp(a, b)
}

/// Sorts keys by their texts.
fn sort(keys: &mut Vec<Key>) -> Result<(), Memory>
    ensures ascend { OnOk result (Ascend keys.new.items) }
    ensures same { IsPermutation keys.old.items keys.new.items }
{
    match keys.sort_by(|a, b| key_cmp(a, b)) {
        Ok(()) => Ok(()),
        Err(_) => Err(Memory),
    }
}

/// Whether a key of sorted ones isn't the one before it.
fn is_first(keys: &[Key], i: usize) -> bool
    requires within { i < length keys.now }
    requires ascend { Ascend keys.now }
    ensures yes { result ≡ true → 0 < i → (d : Key) → IsBefore (slice_index_or keys.now (i - 1) d) (slice_index_or keys.now i d) }
    ensures no { result ≡ false → (0 < i) × ((d : Key) → slice_index_or keys.now (i - 1) d ≡ slice_index_or keys.now i d) }
{
    if i == 0 {
        return true;
    }
    match key_cmp(&keys[i - 1], &keys[i]) {
        Ordering::Equal => false,
        Ordering::Less => true,
        Ordering::Greater => true,
    }
}

/// Each of sorted keys once.
fn each_once(alloc: Global, keys: &[Key]) -> Result<KeyList, Memory>
    requires { Ascend keys.now }
    ensures sorted { IfOk result AreSorted }
    ensures all { IfOk result (λ list. (q : Key) → Contains keys.now q → Contains list q) }
    ensures only { IfOk result (λ list. (q : Key) → Contains list q → Contains keys.now q) }
{
    let mut list = KeyList::new(alloc);
    for i in 0..keys.len() {
        if is_first(keys, i) {
            list.push(keys[i])?;
        }
    }
    Ok(list)
}

/// These keys, sorted by their texts, each once.
pub fn sorted_keys(alloc: Global, mut keys: Vec<Key>) -> Result<KeyList, Memory>
    ensures sorted { IfOk result AreSorted }
    ensures all { IfOk result (λ list. (q : Key) → Contains keys.items q → Contains list q) }
    ensures only { IfOk result (λ list. (q : Key) → Contains list q → Contains keys.items q) }
{
    sort(&mut keys)?;
    each_once(alloc, &keys)
}
