//! The deletes of a round of tidying.
ghost use Rattle.std.specs.Prelude.{◌≡◌, ◌≤◌, ◌<◌, ◌++◌, ◌∷◌, [], IfOk, OnOk, option_to_list};
ghost use Rattle.nc_cloud.specs.Fleet.{erasures};
ghost use Rattle.nc_state.specs.Tidy.{counts as counts_by};
ghost use Rattle.nc_write.specs.Tidying.{AreErasures, erasure_of, part_key as part_key_of};

use crate::live::next_slot;
use crate::part::Part;
use nc_cloud::{Done, Erase};
use nc_meta::Meta;
use nc_name::{Key, Memory, Name};
use nc_state::{is_live, other_slot, slot_of};
use std::alloc::Global;

/// The deletes of a part of a name, on the clouds where it doesn't count, in ascending order.
pub fn doomed(
    alloc: Global,
    width: u8,
    name: &Name,
    top: &Option<Meta>,
    part: Part,
) -> Result<Vec<Erase>, Memory>
    requires { width ≤ 10 }
    ensures { IfOk result (λ erases. AreErasures name.now top.now part width erases.items) }
{
    let mut erases = Vec::new(alloc);
    for cloud in 0..width {
        push_doomed(&mut erases, name, top, part, cloud)?;
    }
    Ok(erases)
}

/// Adds the delete of a part on a cloud, unless it counts there.
fn push_doomed(
    erases: &mut Vec<Erase>,
    name: &Name,
    top: &Option<Meta>,
    part: Part,
    cloud: u8,
) -> Result<(), Memory>
    requires { cloud < 10 }
    ensures { OnOk result (erasures erases.new.items ≡ erasures erases.old.items ++ option_to_list (erasure_of name.now top.now part cloud)) }
{
    let key = part_key(name, top, part, cloud);
    if counts(top, cloud, &key) {
        return Ok(());
    }
    push_erase(erases, cloud, &key)?;
    Ok(())
}

fn push_erase(erases: &mut Vec<Erase>, cloud: u8, key: &Key) -> Result<(), Memory>
    ensures { OnOk result (erasures erases.new.items ≡ erasures erases.old.items ++ record { cloud = cloud; key = key.now; new = None } ∷ []) }
{
    let erase = Erase {
        cloud,
        key: *key,
        done: Done::Waiting,
    };
    match erases.extend_from_slice(&[erase]) {
        Ok(()) => Ok(()),
        Err(_) => Err(Memory),
    }
}

/// Where the object of a part stands on a cloud.
fn part_key(name: &Name, top: &Option<Meta>, part: Part, cloud: u8) -> Key
    requires { cloud < 10 }
    ensures { result ≡ part_key_of name.now top.now part cloud }
{
    let name = *name;
    let beside = next_slot(top, cloud);
    match part {
        Part::Metas { slot } => Key::Meta { name, slot },
        Part::Beside { row } => Key::Chunk {
            name,
            slot: beside,
            row,
        },
        Part::Named { row } => Key::Chunk {
            name,
            slot: other_slot(beside),
            row,
        },
    }
}

/// Whether the object under this key of a cloud counts, where its name is settled on this metadata.
fn counts(top: &Option<Meta>, cloud: u8, key: &Key) -> bool
    requires { cloud < 10 }
    ensures { result ≡ counts_by top.now cloud key.now }
{
    match (top, key) {
        (None, _) => false,
        (Some(meta), Key::Meta { name: _, slot }) => slot_of(meta.generation()) == *slot,
        (
            Some(meta),
            Key::Chunk {
                name: _,
                slot,
                row: _,
            },
        ) => is_live(meta, cloud, *slot),
    }
}
