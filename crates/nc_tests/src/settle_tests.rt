//! Settling over clouds in memory.
ghost use Rattle.std.specs.Prelude.{◌≡◌, ◌<◌, ◌≤◌};
ghost use Rattle.nc_memory.specs.Memory.{width_of};
ghost use Rattle.nc_name.specs.Keys.{Slots};

use nc_frame::seal;
use nc_memory::{MemFleet, Torn};
use nc_meta::Meta;
use nc_name::{Key, Memory, Name};
use nc_settle::{SettleFault, settle};
use std::alloc::Global;
use std::test::Fail;

fn key_of(name: &Name, generation: u8) -> Key
    ensures { Slots result }
{
    Key::Meta {
        name: *name,
        slot: generation % 2,
    }
}

/// Places the metadata of a removal on a cloud, sealed for this cloud.
fn plant(
    alloc: Global,
    fleet: &mut MemFleet,
    cloud: u8,
    sealed_for: u8,
    name: &Name,
    generation: u8,
) -> Result<(), Memory>
    requires below { cloud < width_of fleet.old }
    requires some { 1 ≤ generation }
    ensures { width_of fleet.new ≡ width_of fleet.old }
{
    let meta = Meta::Gone {
        generation: u64::from(generation),
    };
    let payload = meta.write(alloc, 4)?;
    let key = key_of(name, generation);
    let bytes = seal(alloc, sealed_for, 4, &key, payload.bytes())?;
    fleet.plant(cloud, &key, bytes.bytes())
}

/// Whether a cloud holds an object under the key of this generation.
fn holds(fleet: &MemFleet, cloud: u8, name: &Name, generation: u8) -> bool {
    fleet.object(cloud, &key_of(name, generation)).is_some()
}

/// The generation that a name is settled on.
fn settled(alloc: Global, fleet: &mut MemFleet, name: &Name) -> Option<u64>
    requires { width_of fleet.old ≡ 4 }
    ensures { width_of fleet.new ≡ width_of fleet.old }
{
    match settle(alloc, fleet, name) {
        Ok(settled) => Some(settled.generation()),
        Err(_) => None,
    }
}

#[test]
fn the_highest_is_written_where_it_lacks(rt: HostRuntime) -> Result<(), Fail> {
    let alloc = rt.alloc();
    let name = Name::read("a")?;
    let mut fleet = MemFleet::new(alloc, 4)?;
    plant(alloc, &mut fleet, 0, 0, &name, 2)?;
    plant(alloc, &mut fleet, 1, 1, &name, 2)?;
    plant(alloc, &mut fleet, 3, 3, &name, 5)?;
    assert_eq!(rt; settled(alloc, &mut fleet, &name), Some(5));
    for cloud in 0..4u8 {
        assert!(rt; holds(&fleet, cloud, &name, 5), "cloud {cloud}");
    }
    assert_eq!(rt; fleet.rounds(), 3);
    assert_eq!(rt; fleet.entries(2), 3);
    assert_eq!(rt; settled(alloc, &mut fleet, &name), Some(5));
    assert_eq!(rt; fleet.rounds(), 5);
    Ok(())
}

#[test]
fn a_failed_write_is_told(rt: HostRuntime) -> Result<(), Fail> {
    let alloc = rt.alloc();
    let name = Name::read("a")?;
    let mut fleet = MemFleet::new(alloc, 4)?;
    plant(alloc, &mut fleet, 2, 2, &name, 1)?;
    fleet.refuse(10, Torn::Old)?;
    match settle(alloc, &mut fleet, &name) {
        Err(fault) => assert_eq!(rt; fault, SettleFault::Cloud(1)),
        Ok(_) => assert!(rt; false, "a write failed"),
    }
    for cloud in 0..4u8 {
        assert_eq!(rt; holds(&fleet, cloud, &name, 1), cloud != 1, "cloud {cloud}");
    }
    Ok(())
}

#[test]
fn metadata_of_elsewhere_is_told(rt: HostRuntime) -> Result<(), Fail> {
    let alloc = rt.alloc();
    let name = Name::read("a")?;
    let mut fleet = MemFleet::new(alloc, 4)?;
    plant(alloc, &mut fleet, 1, 2, &name, 1)?;
    match settle(alloc, &mut fleet, &name) {
        Err(fault) => assert_eq!(rt;
            fault,
            SettleFault::Misplaced {
                cloud: 1,
                said_cloud: 2,
                said_width: 4
            }
        ),
        Ok(_) => assert!(rt; false, "an object is of elsewhere"),
    }
    assert_eq!(rt; fleet.rounds(), 2);
    Ok(())
}
