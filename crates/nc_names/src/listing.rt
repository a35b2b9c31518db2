ghost use Rattle.std.specs.Prelude.{◌≡◌, ◌≤◌, ◌<◌, ◌++◌, ℕ, All, IfOk, OnOk, false, map};
ghost use Rattle.nc_name.specs.Keys.{name_of};
ghost use Rattle.nc_name.specs.Names.{IsName};
ghost use Rattle.nc_names.specs.Listing.{AreNamesOutside, AreSortedNames, HaveRisen, ListsBelow, ListsOne, OnlyListed, StayOutside, named};

use crate::sorting::sorted_names;
use nc_cloud::{CloudError, Fleet};
use nc_name::{Key, Memory, Name};
use std::alloc::Global;

/// The names of all keys that clouds hold, sorted by their bytes, each once. Each cloud is listed once, in ascending order. One
/// whose list fails is marked, and what it holds isn't known. At `Memory` the marks say nothing.
pub fn list_names<F: Fleet>(
    alloc: Global,
    fleet: &mut F,
    failed: &mut [bool; 10],
) -> Result<Vec<Name>, Memory>
    requires ready { F.ready }
    requires narrow { F.clouds fleet.old ≤ 10 }
    requires none { (c : ℕ) → named failed.old c ≡ false }
    ensures names { F.tells → IfOk result (λ names. AreNamesOutside (F.clouds fleet.old) (F.held fleet.old) (named failed.new) names.items) }
    ensures valid { IfOk result (λ names. All IsName names.items) }
    ensures sorted { IfOk result (λ names. AreSortedNames names.items) }
    ensures failed { OnOk result (HaveRisen (F.clouds fleet.old) (F.slips fleet.old) (F.slips fleet.new) (named failed.new)) }
    ensures exact { F.counts_exactly → OnOk result (StayOutside (F.slips fleet.old) (F.slips fleet.new) (named failed.new)) }
    ensures listed { OnlyListed F.Fleet fleet.old fleet.new }
{
    let names = list_clouds(alloc, fleet, failed)?;
    sorted_names(names)
}

/// The names of the keys of each cloud, as often as they come.
fn list_clouds<F: Fleet>(
    alloc: Global,
    fleet: &mut F,
    failed: &mut [bool; 10],
) -> Result<Vec<Name>, Memory>
    requires ready { F.ready }
    requires narrow { F.clouds fleet.old ≤ 10 }
    requires none { (c : ℕ) → named failed.old c ≡ false }
    ensures lists { IfOk result (λ names. ListsBelow F.Fleet (F.clouds fleet.old) fleet.old fleet.new failed.new names.items) }
    ensures listed { OnlyListed F.Fleet fleet.old fleet.new }
{
    let width = fleet.width() as u8;
    let mut names = Vec::new(alloc);
    for cloud in 0..width {
        failed[cloud as usize] = list_one(fleet, cloud, &mut names)?;
    }
    Ok(names)
}

/// Adds the names of the keys of one cloud, and tells whether its list failed.
fn list_one<F: Fleet>(fleet: &mut F, cloud: u8, names: &mut Vec<Name>) -> Result<bool, Memory>
    requires ready { F.ready }
    requires below { cloud < F.clouds fleet.old }
    ensures lists { IfOk result (ListsOne F.Fleet cloud fleet.old fleet.new names.old.items names.new.items) }
    ensures listed { OnlyListed F.Fleet fleet.old fleet.new }
{
    match fleet.list(cloud) {
        Ok(keys) => {
            push_names(names, keys.items())?;
            Ok(false)
        }
        Err(CloudError::Failed) => Ok(true),
        Err(CloudError::Memory) => Err(Memory),
    }
}

/// Adds the name of each key.
fn push_names(names: &mut Vec<Name>, keys: &[Key]) -> Result<(), Memory>
    ensures added { OnOk result (names.new.items ≡ names.old.items ++ map name_of keys.now) }
    ensures valid { OnOk result (All IsName (map name_of keys.now)) }
{
    for key in keys {
        let name = key.name();
        let _bytes = name.bytes();
        names.push(*name)?;
    }
    Ok(())
}
