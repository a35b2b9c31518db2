//! In which order a look asks: no clause tells it.
ghost use Rattle.std.specs.Prelude.{◌<◌};
ghost use Rattle.nc_settle.specs.Views.{width_of};

use nc_memory::{MemFleet, Torn};
use nc_name::Name;
use nc_settle::{Place, View, look};
use std::test::Fail;

fn has_failed(view: &View, cloud: u8, slot: u8) -> bool
    requires cloud { cloud < width_of view.now }
    requires slot { slot < 2 }
{
    matches!(view.place(cloud, slot), Place::Failed)
}

#[test]
fn slot_0_of_each_cloud_is_asked_before_slot_1(rt: HostRuntime) -> Result<(), Fail> {
    let alloc = rt.alloc();
    let name = Name::read("a")?;
    for nth in 0..8u8 {
        let mut fleet = MemFleet::new(alloc, 4)?;
        fleet.refuse(u64::from(nth) + 1, Torn::Old)?;
        let view = look(alloc, &mut fleet, &name)?;
        let cloud = nth % 4;
        let slot = nth / 4;
        assert!(rt; has_failed(&view, cloud, slot), "entry {nth}");
        assert!(rt; !has_failed(&view, cloud, 1 - slot), "entry {nth}");
    }
    Ok(())
}
