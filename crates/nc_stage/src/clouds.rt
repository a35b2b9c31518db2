//! The clouds of a scene: what they hold, and how they change by themselves.

use nc_cloud::Fleet;
use nc_frame::seal;
use nc_memory::{MemFleet, Torn};
use nc_name::{Key, Name, read_key};
use std::alloc::Global;
use std::test::Fail;

/// No cloud.
pub const NONE: u8 = 255;

/// A name with spaces.
const SPACED: &str = "n of two";

/// A name of 100 bytes.
const LONG: &str =
    "llllllllllllllllllllllllllllllllllllllllllllllllllllllllllllllllllllllllllllllllllllllllllllllllllll";

/// Each key of the names of all files in scenes.
pub fn keys(alloc: Global) -> Result<Vec<Key>, Fail> {
    let mut keys = Vec::new(alloc);
    for text in ["a", "b", "p", "Z", "-x", SPACED, LONG] {
        let name = Name::read(text)?;
        for slot in 0..2u8 {
            keys.push(Key::Meta { name, slot })?;
            for row in 0..2u8 {
                keys.push(Key::Chunk { name, slot, row })?;
            }
        }
    }
    Ok(keys)
}

/// The number of clouds, as a number of a frame.
pub fn width_of(fleet: &MemFleet) -> u8 {
    fleet.width().min(255) as u8
}

/// The object of a cloud under the key of this text.
pub fn object<'a>(fleet: &'a MemFleet, cloud: u8, text: &str) -> Result<&'a [u8], Fail> {
    let key = read_key(text).ok_or("no key")?;
    Ok(fleet.object(cloud, &key).ok_or("no object")?)
}

/// How many objects there are.
pub fn count(fleet: &MemFleet, keys: &[Key]) -> usize {
    let mut count = 0_usize;
    for cloud in 0..width_of(fleet) {
        for key in keys {
            if fleet.object(cloud, key).is_some() {
                count = count.saturating_add(1);
            }
        }
    }
    count
}

/// Whether these clouds hold the same.
pub fn are_same(a: &MemFleet, b: &MemFleet, keys: &[Key]) -> bool {
    for cloud in 0..width_of(a) {
        for key in keys {
            if a.object(cloud, key) != b.object(cloud, key) {
                return false;
            }
        }
    }
    true
}

/// What a stop in this round of their last run leaves, each entry in its fate.
pub fn image_of(fleet: &MemFleet, round: u64, fates: &[Torn]) -> Result<MemFleet, Fail> {
    if fleet.rounds() <= round {
        return Err(Fail::new("no such round"));
    }
    Ok(fleet.stopped(round, fates)?)
}

/// Places an object.
pub fn place(fleet: &mut MemFleet, cloud: u8, key: &Key, bytes: &[u8]) -> Result<(), Fail> {
    if usize::from(cloud) < fleet.width() {
        Ok(fleet.plant(cloud, key, bytes)?)
    } else {
        Err(Fail::new("no such cloud"))
    }
}

/// Places the frame of a payload on a cloud, made for a cloud of so many.
pub fn place_frame(
    alloc: Global,
    fleet: &mut MemFleet,
    cloud: u8,
    said: (u8, u8),
    text: &str,
    payload: &[u8],
) -> Result<(), Fail> {
    let key = read_key(text).ok_or("no key")?;
    let frame = seal(alloc, said.0, said.1, &key, payload)?;
    place(fleet, cloud, &key, frame.bytes())
}

/// The numbers of all clouds.
pub fn all_clouds(alloc: Global, fleet: &MemFleet) -> Result<Vec<u8>, Fail> {
    let mut clouds = Vec::new(alloc);
    for cloud in 0..width_of(fleet) {
        clouds.push(cloud)?;
    }
    Ok(clouds)
}

/// Clouds of which each holds what the cloud of its number here holds, and nothing for NONE. None of them has been asked yet.
pub fn arranged(
    alloc: Global,
    fleet: &MemFleet,
    keys: &[Key],
    order: &[u8],
) -> Result<MemFleet, Fail> {
    let mut new = MemFleet::new(alloc, fleet.width())?;
    for (cloud, from) in (0_u8..255).zip(order) {
        fill(&mut new, cloud, fleet, *from, keys, None)?;
    }
    Ok(new)
}

/// Places all objects of a cloud of another fleet on a cloud, but for that under this key.
pub fn fill(
    new: &mut MemFleet,
    cloud: u8,
    fleet: &MemFleet,
    from: u8,
    keys: &[Key],
    but: Option<&Key>,
) -> Result<(), Fail> {
    for key in keys {
        if let Some(bytes) = fleet.object(from, key) {
            if !is_that(but, key) {
                place(new, cloud, key, bytes)?;
            }
        }
    }
    Ok(())
}

fn is_that(one: Option<&Key>, key: &Key) -> bool {
    match one {
        Some(one) => one.is_same(key),
        None => false,
    }
}
