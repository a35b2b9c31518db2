//! What isn't right of a name is told by cloud, metadata first and then row by row, without a write.
ghost use Rattle.std.specs.Prelude.{◌≡◌, ◌<◌};
ghost use Rattle.nc_memory.specs.Memory.{width_of};
ghost use Rattle.nc_name.specs.Keys.{Slots};

use crate::stored::{gets, stored};
use nc_frame::seal;
use nc_memory::{MemFleet, Torn};
use nc_meta::Meta;
use nc_name::{Key, Memory, Name};
use nc_scrub::{Flaw, Part, State, scrub_one};
use nc_settle::SettleFault;
use std::alloc::Global;
use std::test::Fail;

fn flaw(cloud: u8, part: Part, state: State) -> Flaw {
    Flaw { cloud, part, state }
}

/// Places the frame of a payload on a cloud of four.
fn place(
    alloc: Global,
    fleet: &mut MemFleet,
    cloud: u8,
    key: &Key,
    payload: &[u8],
) -> Result<(), Memory>
    requires within { cloud < 4 }
    requires slots { Slots key.now }
    requires width { width_of fleet.old ≡ 4 }
    ensures { width_of fleet.new ≡ 4 }
{
    let frame = seal(alloc, cloud, 4, key, payload)?;
    fleet.plant(cloud, key, frame.bytes())
}

#[test]
fn an_emptied_cloud_lacks_all_three_parts(rt: HostRuntime) -> Result<(), Fail> {
    let alloc = rt.alloc();
    let name = Name::read("a")?;
    let mut fleet = MemFleet::new(alloc, 4)?;
    stored(&rt, alloc, &mut fleet, &name);
    let flaws = scrub_one(alloc, &mut fleet, &name)?;
    let wanted = [
        flaw(1, Part::Meta, State::Missing),
        flaw(1, Part::Chunk(0), State::Missing),
        flaw(1, Part::Chunk(1), State::Missing),
    ];
    assert!(rt; flaws.items() == wanted.as_slice());
    assert_eq!(rt; (gets(&fleet), fleet.rounds()), ([2, 0, 2, 2], 7));
    Ok(())
}

#[test]
fn chunks_are_broken_or_have_another_digest(rt: HostRuntime) -> Result<(), Fail> {
    let alloc = rt.alloc();
    let name = Name::read("a")?;
    let slot = 0;
    let mut fleet = MemFleet::new(alloc, 4)?;
    stored(&rt, alloc, &mut fleet, &name);
    place(
        alloc,
        &mut fleet,
        0,
        &Key::Chunk { name, slot, row: 1 },
        &[0, 0],
    )?;
    place(
        alloc,
        &mut fleet,
        2,
        &Key::Chunk { name, slot, row: 0 },
        &[4, 4, 4],
    )?;
    fleet.plant(3, &Key::Chunk { name, slot, row: 1 }, b"no frame")?;
    let flaws = scrub_one(alloc, &mut fleet, &name)?;
    let wanted = [
        flaw(0, Part::Chunk(1), State::Marked),
        flaw(1, Part::Meta, State::Missing),
        flaw(1, Part::Chunk(0), State::Missing),
        flaw(1, Part::Chunk(1), State::Missing),
        flaw(2, Part::Chunk(0), State::Broken),
        flaw(3, Part::Chunk(1), State::Broken),
    ];
    assert!(rt; flaws.items() == wanted.as_slice());
    Ok(())
}

#[test]
fn metadata_is_old_broken_or_missing(rt: HostRuntime) -> Result<(), Fail> {
    let alloc = rt.alloc();
    let name = Name::read("a")?;
    let key = Key::Meta { name, slot: 1 };
    let mut fleet = MemFleet::new(alloc, 4)?;
    let old = Meta::Gone { generation: 1 }.write(alloc, 4)?;
    let top = Meta::Gone { generation: 3 }.write(alloc, 4)?;
    place(alloc, &mut fleet, 0, &key, old.bytes())?;
    fleet.plant(1, &key, b"no frame")?;
    place(alloc, &mut fleet, 3, &key, top.bytes())?;
    let flaws = scrub_one(alloc, &mut fleet, &name)?;
    let wanted = [
        flaw(0, Part::Meta, State::Old),
        flaw(1, Part::Meta, State::Broken),
        flaw(2, Part::Meta, State::Missing),
    ];
    assert!(rt; flaws.items() == wanted.as_slice());
    assert_eq!(rt; fleet.rounds(), 2);
    Ok(())
}

#[test]
fn a_cloud_that_fails_is_named(rt: HostRuntime) -> Result<(), Fail> {
    let alloc = rt.alloc();
    let name = Name::read("a")?;
    let mut fleet = MemFleet::new(alloc, 4)?;
    stored(&rt, alloc, &mut fleet, &name);
    fleet.refuse(23, Torn::Old)?;
    fleet.refuse(25, Torn::Old)?;
    let answer = scrub_one(alloc, &mut fleet, &name);
    assert!(rt; matches!(answer, Err(SettleFault::Cloud(2))));
    assert_eq!(rt; fleet.rounds(), 6);
    Ok(())
}
